//! The code of a nest of INDEPENDENT loops in the place of its loops (HPF 2.0, 5.1).

ghost use Rattle.std.specs.Prelude.{◌≡◌, ◌+◌, ◌*◌, [], ◌∷◌, ◌++◌, None, ℕ, List, length, map, pos, unwrap_or, IfOk, OnOk};
ghost use Rattle.array_meaning.specs.Statements.{Loop as LoopMeaning, Nest as NestMeaning};
ghost use Rattle.program_code.specs.NestCode.{indices_code, nest_code, nest_rows, nest_slots, plain, trips_code};
ghost use Rattle.program_code.specs.StatementCode.{marked_code, marked_copies, marked_slots};
ghost use Rattle.program_code.specs.NestInstructions.{nest_instructions};
ghost use Rattle.node_code.specs.Flat.{AndFlat, Int, NoFlat, Operated, Slot};
ghost use Rattle.node_code.specs.Instructions.{Instruction as Code, Trips, Verdict};
ghost use Rattle.node_code.specs.Texts.{flat, instruction, instructions};
ghost use Rattle.op_tables.specs.declared.op.Op.TheVariants as operator;
ghost use Rattle.resolved_program.specs.Resolved.{block_of, loop_of, mark};
ghost use Rattle.node_codegen.specs.NestCodes.{or_loops};
ghost use Rattle.node_codegen.specs.NestFinals.{finals_by};
ghost use Rattle.node_codegen.specs.NestNames.{AreNamesOf, beside_by, body_by, nest_of, over_by, test_by, text_by, with_index};

use crate::loops::{of_two, set};
use crate::nest_body::body_code;
use crate::nest_counts::{block_conditions, inner_slots};
use crate::nest_finals::{add_finals, add_makes, finals};
use crate::nest_loops::{add_bounds, innermost, loops_slots};
use crate::nest_names::{NestNames, loop_indices, nest_names};
use crate::nest_scalars::scalars;
use crate::sequences::{place_after, size};
use expression_code::{joined, plus};
use hpf_base::OutOfMemory;
use node_code::{Flat, Instruction};
use op_tables::Op;
use resolved_program::{Loop, Nest, Statement};
use std::alloc::Global;

// ---- marks of loops

/// The slots that a nest with statements takes from those of the bounds of its outermost loop on.
pub(crate) fn marked_slots(
    nest: &Option<Nest>,
    body: &Vec<Statement>,
) -> Result<Option<usize>, OutOfMemory>
    ensures { IfOk result (λ r. (l : LoopMeaning) (loops : ℕ) → unwrap_or r loops ≡ marked_slots (mark nest.now l (block_of body.now.items)) loops) }
{
    match nest {
        None => Ok(None),
        Some(nest) => {
            let inside = innermost(nest.inner_loops, body);
            if inside.len() == 0 {
                return Ok(None);
            }
            Ok(Some(nest_slots(nest, body, inside)?))
        }
    }
}

/// The rows that one takes after so many declared names.
pub(crate) fn marked_copies(
    alloc: Global,
    names: usize,
    nest: &Option<Nest>,
    body: &Vec<Statement>,
) -> Result<Option<usize>, OutOfMemory>
    ensures { IfOk result (λ r. (l : LoopMeaning) (loops : ℕ) → unwrap_or r loops ≡ marked_copies names (mark nest.now l (block_of body.now.items)) loops) }
{
    match nest {
        None => Ok(None),
        Some(nest) => {
            let inside = innermost(nest.inner_loops, body);
            if inside.len() == 0 {
                return Ok(None);
            }
            Ok(Some(nest_rows(alloc, names, inside)?))
        }
    }
}

/// The code of one at a place, whose outermost loop has its bounds in slots from `v` on.
pub(crate) fn marked_code(
    alloc: Global,
    names: usize,
    line: u32,
    nest: &Option<Nest>,
    l: &Loop,
    body: &Vec<Statement>,
    v: usize,
    pc: usize,
) -> Result<Option<Vec<Instruction>>, OutOfMemory>
    ensures { IfOk result (λ r. (loops : List Code) → or_loops r loops ≡ marked_code names line (mark nest.now (loop_of l.now) (block_of body.now.items)) v pc loops) }
{
    match nest {
        None => Ok(None),
        Some(nest) => {
            let inside = innermost(nest.inner_loops, body);
            if inside.len() == 0 {
                return Ok(None);
            }
            let w = nest_names(alloc, names, line, nest, l, body, inside, v)?;
            Ok(Some(nest_code(alloc, &w, nest, l, body, inside, v, pc)?))
        }
    }
}

// ---- nests

/// The slots of a nest with this innermost block.
fn nest_slots(
    nest: &Nest,
    body: &Vec<Statement>,
    inside: &Vec<Statement>,
) -> Result<usize, OutOfMemory>
    ensures { IfOk result (λ n. (l : LoopMeaning) → n ≡ nest_slots (nest_of nest.now l (block_of body.now.items)) (block_of inside.now.items)) }
{
    let outermost = plus(inner_slots(inside)?, 4)?;
    plus(loops_slots(nest.inner_loops, body)?, outermost)
}

/// The rows of a nest with this innermost block.
fn nest_rows(alloc: Global, names: usize, inside: &Vec<Statement>) -> Result<usize, OutOfMemory>
    ensures { IfOk result (λ n. (nest : NestMeaning) → n ≡ nest_rows names nest (block_of inside.now.items)) }
{
    let copies = scalars(alloc, names, inside)?.len();
    let conditions = plus(copies, block_conditions(inside)?)?;
    plus(conditions, copies)
}

/// The code of a nest with these names, whose bounds stand in slots from `v` on.
fn nest_code(
    alloc: Global,
    w: &NestNames,
    nest: &Nest,
    l: &Loop,
    body: &Vec<Statement>,
    inside: &Vec<Statement>,
    v: usize,
    pc: usize,
) -> Result<Vec<Instruction>, OutOfMemory>
    ensures { IfOk result (λ c. (n line : ℕ) → AreNamesOf n line (nest_of nest.now (loop_of l.now) (block_of body.now.items)) (block_of inside.now.items) v w.now
        → instructions c.items ≡ nest_code n line (nest_of nest.now (loop_of l.now) (block_of body.now.items)) (block_of inside.now.items) v pc) }
{
    let second = plus(v, 4)?;
    let free = plus(second, loops_slots(nest.inner_loops, body)?)?;
    let indices = loop_indices(alloc, nest.inner_loops, l, body)?;
    let mut code = Vec::new(alloc);
    add_bounds(alloc, &mut code, w.line, second, nest.inner_loops, body)?;
    let from = place_past_trips(pc, &code, &indices)?;
    let statements = statements_code(alloc, w, inside, free, from)?;
    add_round(alloc, &mut code, w.line, v, from, statements, &indices)?;
    Ok(code)
}

/// The place after code that stands at a place and the trips of loops, one instruction a loop.
fn place_past_trips(
    pc: usize,
    code: &Vec<Instruction>,
    indices: &[usize],
) -> Result<usize, OutOfMemory>
    ensures { IfOk result (λ n. n ≡ pc + length code.now.items + length indices.now) }
{
    plus(place_after(pc, code)?, indices.len())
}

/// Puts the trips of loops, then the code of the statements in them, which stands at a place, and then the values of the indices.
fn add_round(
    alloc: Global,
    code: &mut Vec<Instruction>,
    line: u32,
    v: usize,
    from: usize,
    statements: Vec<Instruction>,
    indices: &[usize],
) -> Result<(), OutOfMemory>
    ensures { OnOk result (instructions code.new.items ≡ instructions code.old.items
        ++ (trips_code line v (from + length statements.items) (map with_index indices.now)
        ++ (instructions statements.items ++ indices_code line v (from + length statements.items + 3 * length indices.now) (map with_index indices.now)))) }
{
    let after = place_after(from, &statements)?;
    add_trips(code, line, v, after, indices)?;
    joined(code, statements)?;
    let end = plus(after, three_times(indices.len())?)?;
    add_indices_code(alloc, code, line, v, end, indices)
}

/// Three times a number.
fn three_times(n: usize) -> Result<usize, OutOfMemory>
    ensures { IfOk result (λ m. m ≡ 3 * n) }
{
    plus(n, plus(n, n)?)
}

/// The statements of the innermost block over the copies of a nest, at a place and with slots from `b` on.
fn statements_code(
    alloc: Global,
    w: &NestNames,
    inside: &Vec<Statement>,
    b: usize,
    pc: usize,
) -> Result<Vec<Instruction>, OutOfMemory>
    ensures { IfOk result (λ c. instructions c.items
        ≡ nest_instructions w.now.line (over_by w.now) (beside_by w.now) (text_by w.now) (test_by w.now) w.now.stored (finals_by w.now (block_of inside.now.items) 0 w.now.scalars.items) (plain (block_of inside.now.items)) b pc) }
{
    let conditions = block_conditions(inside)?;
    let finals = finals(alloc, w, inside)?;
    let mut code = Vec::new(alloc);
    add_makes(alloc, &mut code, w, &finals, conditions)?;
    add_body(alloc, &mut code, w, inside, b, pc)?;
    add_finals(&mut code, w.line, &finals)?;
    Ok(code)
}

/// Puts the statements after the copies, which stand at a place, and what asks for their faults.
fn add_body(
    alloc: Global,
    code: &mut Vec<Instruction>,
    w: &NestNames,
    inside: &Vec<Statement>,
    b: usize,
    pc: usize,
) -> Result<(), OutOfMemory>
    ensures { OnOk result (instructions code.new.items ≡ instructions code.old.items
        ++ (body_by w.now (plain (block_of inside.now.items)) None 0 b (pc + length (instructions code.old.items)) ++ Verdict ∷ [])) }
{
    let at = plus(pc, size(code))?;
    joined(code, body_code(alloc, w, inside, None, 0, b, at)?)?;
    code.push(Instruction::Verdict)?;
    Ok(())
}

/// Puts the trips of loops: the run goes on at a target where a loop makes no trip. Each has four slots, those of the first one from `v` on.
fn add_trips(
    code: &mut Vec<Instruction>,
    line: u32,
    v: usize,
    target: usize,
    indices: &[usize],
) -> Result<(), OutOfMemory>
    ensures { OnOk result (instructions code.new.items ≡ instructions code.old.items ++ trips_code line v target (map with_index indices.now)) }
{
    let mut at = v;
    for _index in indices {
        code.push(trips(line, at, target)?)?;
        at = plus(at, 4)?;
    }
    Ok(())
}

/// How many trips a loop makes, by its four slots.
fn trips(line: u32, v: usize, target: usize) -> Result<Instruction, OutOfMemory>
    ensures { IfOk result (λ i. instruction i ≡ Trips line v (v + 1) (v + 2) (v + 3) target) }
{
    let last = plus(v, 1)?;
    let step = plus(v, 2)?;
    let left = plus(v, 3)?;
    Ok(Instruction::Trips {
        line,
        first: v,
        last,
        step,
        left,
        target,
    })
}

/// Puts what gives each index its value after the loop, and the run goes on at a target where a loop makes no trip.
fn add_indices_code(
    alloc: Global,
    code: &mut Vec<Instruction>,
    line: u32,
    v: usize,
    target: usize,
    indices: &[usize],
) -> Result<(), OutOfMemory>
    ensures { OnOk result (instructions code.new.items ≡ instructions code.old.items ++ indices_code line v target (map with_index indices.now)) }
{
    let mut at = v;
    for k in indices {
        add_index_code(alloc, code, line, at, target, *k)?;
        at = plus(at, 4)?;
    }
    Ok(())
}

/// Puts that of one.
fn add_index_code(
    alloc: Global,
    code: &mut Vec<Instruction>,
    line: u32,
    v: usize,
    target: usize,
    k: usize,
) -> Result<(), OutOfMemory>
    ensures { OnOk result (instructions code.new.items ≡ instructions code.old.items ++ indices_code line v target (with_index k ∷ [])) }
{
    code.push(set(line, k, Flat::Slot(v)))?;
    code.push(trips(line, v, target)?)?;
    code.push(set(line, k, value_after(alloc, v)?))?;
    Ok(())
}

/// The value of an index after a loop that makes a trip, by the slots of the loop.
fn value_after(alloc: Global, v: usize) -> Result<Flat, OutOfMemory>
    ensures { IfOk result (λ f. flat f ≡ Operated operator.Add (AndFlat (Slot v)
        (AndFlat (Operated operator.Mul (AndFlat (Operated operator.Add (AndFlat (Slot (v + 3)) (AndFlat (Int (pos 1)) NoFlat))) (AndFlat (Slot (v + 2)) NoFlat))) NoFlat))) }
{
    let left = plus(v, 3)?;
    let step = plus(v, 2)?;
    let trips = of_two(alloc, Op::Add, Flat::Slot(left), Flat::Int(1))?;
    let way = of_two(alloc, Op::Mul, trips, Flat::Slot(step))?;
    of_two(alloc, Op::Add, Flat::Slot(v), way)
}

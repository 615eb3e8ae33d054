//! The statements of the innermost block of a nest, one after the other.

ghost use Rattle.std.specs.Prelude.{◌≡◌, ◌+◌, [], ◌∷◌, ◌++◌, Some, IfOk, OnOk, pos};
ghost use Rattle.op_tables.specs.declared.op.Op.TheVariants as operator;
ghost use Rattle.program_code.specs.NestCode.{PlainArms, bounds_code, bounds_in, plain, plain_arms, plain_else};
ghost use Rattle.program_code.specs.NestInstructions.{count_nest, loop_instructions};
ghost use Rattle.node_code.specs.Flat.{AndFlat, Int, NoFlat, Operated, Slot};
ghost use Rattle.node_code.specs.Instructions.{Jump, JumpIfZero, MakeCopies, Set, Trips};
ghost use Rattle.node_code.specs.Texts.{instruction, instructions};
ghost use Rattle.resolved_program.specs.Resolved.{arms_of, block_of, loop_of, statement};
ghost use Rattle.node_codegen.specs.NestNames.{arms_by, beside_by, body_by, over_by};
ghost use Rattle.node_codegen.specs.NestTexts.{IsArmCode, IsTextCode, arm_body, arm_test};

use crate::loops::{add_next_turn, set};
use crate::nest_counts::{block_conditions, is_bare, statement_conditions};
use crate::nest_loops::add_loop_bounds;
use crate::nest_names::NestNames;
use crate::nest_statements::{element_text, making, scalar_text, setting_else, testing};
use crate::sequences::{put_at, size, with_more};
use expression_code::{joined, plus};
use hpf_base::OutOfMemory;
use node_code::{Flat, Instruction};
use resolved_program::{Action, Arm, Loop, Statement};
use std::alloc::Global;

/// The code of arms, and what an ELSE after them has to know.
#[derive(Drop)]
struct ArmsCode {
    code: Vec<Instruction>,
    /// The numbers of their conditions, the last one first.
    earlier: Vec<usize>,
    /// The number of the next condition.
    next: usize,
    /// The place after them.
    after: usize,
}

/// The code of statements at a place under a guard, with conditions numbered from `k` on and slots from `b` on.
#[cycle(body)]
pub(crate) fn body_code(
    alloc: Global,
    w: &NestNames,
    statements: &[Statement],
    guard: Option<usize>,
    k: usize,
    b: usize,
    pc: usize,
) -> Result<Vec<Instruction>, OutOfMemory>
    ensures { IfOk result (λ v. instructions v.items ≡ body_by w.now (plain (block_of statements.now)) guard k b pc) }
{
    let mut code = Vec::new(alloc);
    let mut next = k;
    let mut at = pc;
    for s in statements {
        let following = plus(next, statement_conditions(&s.what)?)?;
        let one = statement_code(alloc, w, s.line, &s.what, guard, next, b, at)?;
        at = put_at(&mut code, at, one)?;
        next = following;
    }
    Ok(code)
}

/// The code of a statement of a line.
#[cycle(body)]
fn statement_code(
    alloc: Global,
    w: &NestNames,
    line: u32,
    s: &Action,
    guard: Option<usize>,
    k: usize,
    b: usize,
    pc: usize,
) -> Result<Vec<Instruction>, OutOfMemory>
    ensures { IfOk result (λ v. IsTextCode w.now line (statement s.now) guard k b pc (instructions v.items)) }
{
    match s {
        Action::AssignScalar(x, right) => {
            let code = scalar_text(alloc, w, line, guard, *x, right)?;
            Ok(code)
        }
        Action::AssignElement(a, subscripts, right) => {
            let code = element_text(alloc, w, line, guard, *a, subscripts, right)?;
            Ok(code)
        }
        Action::If(arms, other) => {
            let made = arms_code(alloc, w, arms, guard, k, b, pc)?;
            let rest = else_code(
                alloc,
                w,
                other,
                guard,
                &made.earlier,
                made.next,
                b,
                made.after,
            )?;
            let code = with_more(made.code, rest)?;
            Ok(code)
        }
        Action::Do(_, l, body) => {
            let inside = plus(pc, 5)?;
            let slots = plus(b, 4)?;
            let inner = body_code(alloc, w, body, guard, k, slots, inside)?;
            let code = inner_loop_code(alloc, w.line, l, b, pc, inner)?;
            Ok(code)
        }
        _ => Ok(Vec::new(alloc)),
    }
}

/// The code of IF and its ELSE IFs.
#[cycle(body)]
fn arms_code(
    alloc: Global,
    w: &NestNames,
    arms: &[Arm],
    guard: Option<usize>,
    k: usize,
    b: usize,
    pc: usize,
) -> Result<ArmsCode, OutOfMemory>
    ensures { IfOk result (λ r. (other : PlainArms) → arms_by w.now (plain_arms (arms_of arms.now) other) guard [] k b pc ≡ instructions r.code.items ++ arms_by w.now other guard r.earlier.items r.next b r.after) }
{
    let mut code = Vec::new(alloc);
    let mut earlier = Vec::new(alloc);
    let mut next = k;
    let mut after = pc;
    for a in arms {
        let following = past_arm(next, &a.body)?;
        let one = arm_code(alloc, w, a, guard, &earlier, next, b, after)?;
        after = put_at(&mut code, after, one)?;
        earlier = with_first(alloc, next, &earlier)?;
        next = following;
    }
    Ok(ArmsCode {
        code,
        earlier,
        next,
        after,
    })
}

/// The number after those of an arm with this body, whose condition has the number `k`.
fn past_arm(k: usize, body: &[Statement]) -> Result<usize, OutOfMemory>
    ensures { IfOk result (λ n. n ≡ k + 1 + count_nest (plain (block_of body.now))) }
{
    plus(plus(k, 1)?, block_conditions(body)?)
}

/// The code of an arm, whose condition has the number `k`.
#[cycle(body)]
fn arm_code(
    alloc: Global,
    w: &NestNames,
    a: &Arm,
    guard: Option<usize>,
    earlier: &[usize],
    k: usize,
    b: usize,
    pc: usize,
) -> Result<Vec<Instruction>, OutOfMemory>
    ensures { IfOk result (λ v. IsArmCode w.now (arm_test a.now) (arm_body a.now) guard earlier.now k b pc (instructions v.items)) }
{
    let copy = plus(w.stored, k)?;
    let inside = plus(pc, 2)?;
    let next = plus(k, 1)?;
    let body = body_code(alloc, w, &a.body, Some(k), next, b, inside)?;
    let test = testing(alloc, w, a.line, guard, earlier, &a.condition, copy)?;
    let code = tested(alloc, w, copy, test, body)?;
    Ok(code)
}

/// The code of ELSE, if it has statements.
#[cycle(body)]
fn else_code(
    alloc: Global,
    w: &NestNames,
    other: &[Statement],
    guard: Option<usize>,
    earlier: &[usize],
    k: usize,
    b: usize,
    pc: usize,
) -> Result<Vec<Instruction>, OutOfMemory>
    ensures { IfOk result (λ v. instructions v.items ≡ arms_by w.now (plain_else (plain (block_of other.now))) guard earlier.now k b pc) }
{
    if is_bare(other) {
        return Ok(Vec::new(alloc));
    }
    let copy = plus(w.stored, k)?;
    let inside = plus(pc, 2)?;
    let next = plus(k, 1)?;
    let body = body_code(alloc, w, other, Some(k), next, b, inside)?;
    let test = setting_else(alloc, w, guard, earlier, copy)?;
    let code = tested(alloc, w, copy, test, body)?;
    Ok(code)
}

/// An arm: its condition, which no iteration has yet, is stored, and then its body stands under it.
fn tested(
    alloc: Global,
    w: &NestNames,
    copy: usize,
    test: Instruction,
    body: Vec<Instruction>,
) -> Result<Vec<Instruction>, OutOfMemory>
    ensures { IfOk result (λ v. instructions v.items ≡ MakeCopies copy (over_by w.now) (Int (pos 0)) (beside_by w.now) ∷ instruction test ∷ instructions body.items) }
{
    let code = vec![in alloc; making(alloc, w, copy, Flat::Int(0))?, test]?;
    with_more(code, body)
}

/// A number before others.
fn with_first(alloc: Global, k: usize, rest: &[usize]) -> Result<Vec<usize>, OutOfMemory>
    ensures { IfOk result (λ v. v.items ≡ k ∷ rest.now) }
{
    let mut all = Vec::new(alloc);
    all.push(k)?;
    all.extend_from_slice(rest)?;
    Ok(all)
}

/// An inner loop at a place, by the code of its body.
fn inner_loop_code(
    alloc: Global,
    line: u32,
    l: &Loop,
    b: usize,
    pc: usize,
    body: Vec<Instruction>,
) -> Result<Vec<Instruction>, OutOfMemory>
    ensures { IfOk result (λ v. instructions v.items ≡ loop_instructions line (bounds_in (loop_of l.now)) b pc (instructions body.items)) }
{
    let after = place_behind(pc, size(&body))?;
    let mut code = inner_head(alloc, line, l, b, after)?;
    joined(&mut code, body)?;
    add_inner_tail(alloc, &mut code, line, l.index, b, pc, after)?;
    Ok(code)
}

/// The place after an inner loop at a place, whose body has so many instructions.
fn place_behind(pc: usize, count: usize) -> Result<usize, OutOfMemory>
    ensures { IfOk result (λ n. n ≡ pc + 5 + count + 5) }
{
    plus(plus(plus(pc, 5)?, count)?, 5)
}

/// What stands before the body of an inner loop.
fn inner_head(
    alloc: Global,
    line: u32,
    l: &Loop,
    b: usize,
    after: usize,
) -> Result<Vec<Instruction>, OutOfMemory>
    ensures { IfOk result (λ v. instructions v.items ≡ bounds_code line b (loop_of l.now ∷ []) ++ Set line l.now.index (Slot b) ∷ Trips line b (b + 1) (b + 2) (b + 3) after ∷ []) }
{
    let last = plus(b, 1)?;
    let step = plus(b, 2)?;
    let left = plus(b, 3)?;
    let mut code = Vec::new(alloc);
    add_loop_bounds(alloc, &mut code, line, b, l)?;
    code.push(set(line, l.index, Flat::Slot(b)))?;
    code.push(Instruction::Trips {
        line,
        first: b,
        last,
        step,
        left,
        target: after,
    })?;
    Ok(code)
}

/// Puts what stands after the body of an inner loop over the index of a slot.
fn add_inner_tail(
    alloc: Global,
    code: &mut Vec<Instruction>,
    line: u32,
    index: usize,
    b: usize,
    pc: usize,
    after: usize,
) -> Result<(), OutOfMemory>
    ensures { OnOk result (instructions code.new.items ≡ instructions code.old.items
        ++ Set line b (Operated operator.Add (AndFlat (Slot b) (AndFlat (Slot (b + 2)) NoFlat)))
        ∷ Set line index (Slot b)
        ∷ JumpIfZero after (b + 3)
        ∷ Set line (b + 3) (Operated operator.Sub (AndFlat (Slot (b + 3)) (AndFlat (Int (pos 1)) NoFlat)))
        ∷ Jump (pc + 5)
        ∷ []) }
{
    let left = plus(b, 3)?;
    let inside = plus(pc, 5)?;
    add_next_turn(alloc, code, line, b, index, left, after)?;
    code.push(Instruction::Jump { target: inside })?;
    Ok(())
}

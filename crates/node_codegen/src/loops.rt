//! Loops (Fortran 95, 8.1.4).

ghost use Rattle.std.specs.Prelude.{◌≡◌, ◌+◌, [], ◌∷◌, ◌++◌, IfOk, OnOk, pos};
ghost use Rattle.op_tables.specs.declared.op.Op.TheVariants as operator;
ghost use Rattle.node_code.specs.Flat.{AndFlat, Int, NoFlat, Operated, Slot};
ghost use Rattle.node_code.specs.Instructions.{Jump, JumpIfZero, Set, Trips};
ghost use Rattle.node_code.specs.Texts as text;
ghost use Rattle.node_code.specs.Texts.{instruction, instructions};
ghost use Rattle.program_code.specs.StatementCode.{loop_code};

use crate::sequences::size;
use expression_code::{joined, plus};
use hpf_base::OutOfMemory;
use node_code::{Flat, Instruction};
use op_tables::Op;
use std::alloc::Global;

/// Puts the code of a loop over the index of a slot, at a place, whose first value, last value, step and iteration count left stand in four
/// slots from `first` on, with its body's code: that stands 8 places after the loop's, and EXIT and CYCLE go 3 and 4 after it.
pub(crate) fn add_loop(
    alloc: Global,
    code: &mut Vec<Instruction>,
    line: u32,
    pc: usize,
    first: usize,
    index: usize,
    body: Vec<Instruction>,
) -> Result<(), OutOfMemory>
    ensures { OnOk result (instructions code.new.items ≡ instructions code.old.items ++ loop_code line pc first index (λ inside leave again. instructions body.items)) }
{
    add_head(alloc, code, line, pc, first, index, size(&body))?;
    joined(code, body)?;
    let again = plus(pc, 4)?;
    code.push(Instruction::Jump { target: again })?;
    Ok(())
}

/// Puts what stands before the body, which has so many instructions.
fn add_head(
    alloc: Global,
    code: &mut Vec<Instruction>,
    line: u32,
    pc: usize,
    first: usize,
    index: usize,
    count: usize,
) -> Result<(), OutOfMemory>
    ensures { OnOk result (instructions code.new.items ≡ instructions code.old.items
        ++ Set line index (Slot first)
        ∷ Trips line first (first + 1) (first + 2) (first + 3) (pc + 3)
        ∷ Jump (pc + 8)
        ∷ Jump (pc + 8 + count + 1)
        ∷ Set line first (Operated operator.Add (AndFlat (Slot first) (AndFlat (Slot (first + 2)) NoFlat)))
        ∷ Set line index (Slot first)
        ∷ JumpIfZero (pc + 3) (first + 3)
        ∷ Set line (first + 3) (Operated operator.Sub (AndFlat (Slot (first + 3)) (AndFlat (Int (pos 1)) NoFlat)))
        ∷ []) }
{
    let left = plus(first, 3)?;
    let leave = plus(pc, 3)?;
    let inside = plus(pc, 8)?;
    let after = plus(plus(inside, count)?, 1)?;
    add_start(code, line, first, index, left, leave)?;
    code.push(Instruction::Jump { target: inside })?;
    code.push(Instruction::Jump { target: after })?;
    add_next_turn(alloc, code, line, first, index, left, leave)
}

/// The index gets its first value, and the iteration count is taken.
fn add_start(
    code: &mut Vec<Instruction>,
    line: u32,
    first: usize,
    index: usize,
    left: usize,
    leave: usize,
) -> Result<(), OutOfMemory>
    ensures { OnOk result (instructions code.new.items ≡ instructions code.old.items ++ Set line index (Slot first) ∷ Trips line first (first + 1) (first + 2) left leave ∷ []) }
{
    let last = plus(first, 1)?;
    let step = plus(first, 2)?;
    code.push(set(line, index, Flat::Slot(first)))?;
    code.push(Instruction::Trips {
        line,
        first,
        last,
        step,
        left,
        target: leave,
    })?;
    Ok(())
}

/// The index gets its next value, and one iteration less is left; where none is, the loop is left.
pub(crate) fn add_next_turn(
    alloc: Global,
    code: &mut Vec<Instruction>,
    line: u32,
    first: usize,
    index: usize,
    left: usize,
    leave: usize,
) -> Result<(), OutOfMemory>
    ensures { OnOk result (instructions code.new.items ≡ instructions code.old.items
        ++ Set line first (Operated operator.Add (AndFlat (Slot first) (AndFlat (Slot (first + 2)) NoFlat)))
        ∷ Set line index (Slot first)
        ∷ JumpIfZero leave left
        ∷ Set line left (Operated operator.Sub (AndFlat (Slot left) (AndFlat (Int (pos 1)) NoFlat)))
        ∷ []) }
{
    let step = plus(first, 2)?;
    code.push(set(
        line,
        first,
        of_two(alloc, Op::Add, Flat::Slot(first), Flat::Slot(step))?,
    ))?;
    code.push(set(line, index, Flat::Slot(first)))?;
    code.push(Instruction::JumpIfZero {
        target: leave,
        slot: left,
    })?;
    code.push(set(
        line,
        left,
        of_two(alloc, Op::Sub, Flat::Slot(left), Flat::Int(1))?,
    ))?;
    Ok(())
}

/// A slot gets a value.
pub(crate) fn set(line: u32, slot: usize, value: Flat) -> Instruction
    ensures { instruction result ≡ Set line slot (text.flat value) }
{
    Instruction::Set { line, slot, value }
}

/// An operator of two operands.
pub(crate) fn of_two(alloc: Global, op: Op, x: Flat, y: Flat) -> Result<Flat, OutOfMemory>
    ensures { IfOk result (λ f. text.flat f ≡ Operated op (AndFlat (text.flat x) (AndFlat (text.flat y) NoFlat))) }
{
    Ok(Flat::Operated(op, vec![in alloc; x, y]?))
}

//! IF (Fortran 95, 8.1.2).

ghost use Rattle.std.specs.Prelude.{◌≡◌, ◌+◌, [], ◌∷◌, ◌++◌, IfOk, OnOk, length};
ghost use Rattle.node_code.specs.Instructions.{JumpIfZero, Set};
ghost use Rattle.node_code.specs.Texts.{instructions};
ghost use Rattle.resolved_program.specs.Resolved.{term};
ghost use Rattle.program_code.specs.ExpressionCode.{code_of, flat_of, slots_of};
ghost use Rattle.node_codegen.specs.Arms.{arms_before, codes, jumping_to};

use crate::sequences::{place_past, size, with_last};
use expression_code::{code_of, flat_of, joined, plus, slots_of};
use hpf_base::OutOfMemory;
use node_code::Instruction;
use resolved_program::Term;
use std::alloc::Global;

/// The codes of arms, without their jumps to the end of the IF.
#[derive(Drop)]
pub(crate) struct ArmCodes {
    pub(crate) codes: Vec<Vec<Instruction>>,
    /// The place after the last one's jump.
    pub(crate) after: usize,
}

/// The condition of an arm into a slot.
pub(crate) fn condition_code(
    alloc: Global,
    line: u32,
    b: usize,
    condition: &Term,
) -> Result<Vec<Instruction>, OutOfMemory>
    ensures { IfOk result (λ v. instructions v.items ≡ code_of line b (term condition.now) ++ Set line (b + slots_of (term condition.now)) (flat_of b (term condition.now)) ∷ []) }
{
    let slot = plus(b, slots_of(condition)?)?;
    with_last(
        code_of(alloc, line, b, condition)?,
        Instruction::Set {
            line,
            slot,
            value: flat_of(alloc, b, condition)?,
        },
    )
}

/// Puts the code of an arm's body after that of its condition, which stands at a place, and one place after that: where the slot is 0,
/// the arm and its jump are passed over.
pub(crate) fn add_arm(
    code: &mut Vec<Instruction>,
    pc: usize,
    slot: usize,
    body: Vec<Instruction>,
) -> Result<(), OutOfMemory>
    ensures { OnOk result (instructions code.new.items
        ≡ instructions code.old.items ++ JumpIfZero (pc + length code.old.items + 1 + length body.items + 1) slot ∷ instructions body.items) }
{
    let after = place_past(place_past(pc, code)?, &body)?;
    code.push(Instruction::JumpIfZero {
        target: after,
        slot,
    })?;
    joined(code, body)
}

/// An IF, by the codes of its arms and that of ELSE, which stands after them.
pub(crate) fn if_code(
    alloc: Global,
    arms: ArmCodes,
    other: Vec<Instruction>,
) -> Result<Vec<Instruction>, OutOfMemory>
    ensures { IfOk result (λ v. instructions v.items ≡ arms_before arms.after (codes arms.codes.items) (λ pc. instructions other.items)) }
{
    let mut code = Vec::new(alloc);
    add_arms(&mut code, arms, size(&other))?;
    joined(&mut code, other)?;
    Ok(code)
}

/// Puts the codes of arms, each with a jump to the end, which stands so many places after them.
fn add_arms(code: &mut Vec<Instruction>, arms: ArmCodes, count: usize) -> Result<(), OutOfMemory>
    ensures { OnOk result (instructions code.new.items ≡ instructions code.old.items ++ jumping_to (arms.after + count) (codes arms.codes.items)) }
{
    let end = plus(arms.after, count)?;
    arms_jumping(code, end, arms.codes)
}

/// Puts codes, each with a jump to the end after it.
fn arms_jumping(
    code: &mut Vec<Instruction>,
    end: usize,
    arms: Vec<Vec<Instruction>>,
) -> Result<(), OutOfMemory>
    ensures { OnOk result (instructions code.new.items ≡ instructions code.old.items ++ jumping_to end (codes arms.items)) }
{
    for c in arms {
        joined(code, c)?;
        code.push(Instruction::Jump { target: end })?;
    }
    Ok(())
}

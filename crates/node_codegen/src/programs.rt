//! Programs.

ghost use Rattle.std.specs.Prelude.{◌≡◌, IfOk};
ghost use Rattle.node_code.specs.Texts.{instructions};
ghost use Rattle.resolved_program.specs.Resolved.{block_of};
ghost use Rattle.program_code.specs.StatementCode.{block_copies, block_slots, program_code};
ghost use Rattle.node_codegen.specs.Moves.{moves_by};

use crate::copies::block_copies;
use crate::moves::LineMoves;
use crate::sequences::with_last;
use crate::slots::block_slots;
use crate::statements::block_code;
use expression_code::joined;
use hpf_base::OutOfMemory;
use node_code::Instruction;
use resolved_program::ResolvedProgram;
use std::alloc::Global;

/// The node code of a program.
#[derive(Drop)]
pub struct Code {
    /// The instructions, from place 0 on. The slots of the declared names stand first, in their order, and so do their rows.
    pub instructions: Vec<Instruction>,
    /// How many slots it takes after those of the declared names.
    pub hidden: usize,
    /// How many copies it names, whose rows stand after those of the declared names.
    pub copies: usize,
}

/// The node code of a plan with so many declared names, where the REDISTRIBUTE of each line moves these arrays: what `lowering` gives for the
/// block that the plan stands for. It takes memory; an `Err` is want of it, also where a place or a slot has no number of 64 bits.
pub fn compile(
    alloc: Global,
    names: usize,
    plan: &ResolvedProgram,
    moves: &[LineMoves],
) -> Result<Code, OutOfMemory>
    ensures code { IfOk result (λ c. instructions c.instructions.items ≡ program_code names (moves_by moves.now) (block_of plan.now.body.items)) }
    ensures hidden { IfOk result (λ c. c.hidden ≡ block_slots (block_of plan.now.body.items)) }
    ensures copies { IfOk result (λ c. c.copies ≡ block_copies names (block_of plan.now.body.items)) }
{
    let hidden = block_slots(&plan.body)?;
    let copies = block_copies(alloc, names, &plan.body)?;
    let instructions = program_code(alloc, names, plan, moves)?;
    Ok(Code {
        instructions,
        hidden,
        copies,
    })
}

/// Its instructions. An EXIT or CYCLE outside of loops goes to the Halt at place 1.
fn program_code(
    alloc: Global,
    names: usize,
    plan: &ResolvedProgram,
    moves: &[LineMoves],
) -> Result<Vec<Instruction>, OutOfMemory>
    ensures { IfOk result (λ v. instructions v.items ≡ program_code names (moves_by moves.now) (block_of plan.now.body.items)) }
{
    let mut code = vec![in alloc; Instruction::Jump { target: 2 }, Instruction::Halt]?;
    let body = block_code(alloc, names, moves, &plan.body, names, 2, 1, 1)?;
    joined(&mut code, body)?;
    with_last(code, Instruction::Jump { target: 1 })
}

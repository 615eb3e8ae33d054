//! Code one after the other.

ghost use Rattle.std.specs.Prelude.{◌≡◌, ◌+◌, [], ◌∷◌, ◌++◌, IfOk, OnOk, length};
ghost use Rattle.node_code.specs.Texts.{instruction, instructions};

use expression_code::{joined, plus};
use hpf_base::OutOfMemory;
use node_code::Instruction;
use std::alloc::Global;

/// Code with one instruction more after it.
pub(crate) fn with_last(
    mut code: Vec<Instruction>,
    last: Instruction,
) -> Result<Vec<Instruction>, OutOfMemory>
    ensures { IfOk result (λ v. instructions v.items ≡ instructions code.items ++ instruction last ∷ []) }
{
    code.push(last)?;
    Ok(code)
}

/// Code with other code after it.
pub(crate) fn with_more(
    mut code: Vec<Instruction>,
    more: Vec<Instruction>,
) -> Result<Vec<Instruction>, OutOfMemory>
    ensures { IfOk result (λ v. instructions v.items ≡ instructions code.items ++ instructions more.items) }
{
    joined(&mut code, more)?;
    Ok(code)
}

/// Puts code that stands at a place after other code, and gives the place after it.
pub(crate) fn put_at(
    code: &mut Vec<Instruction>,
    at: usize,
    more: Vec<Instruction>,
) -> Result<usize, OutOfMemory>
    ensures place { IfOk result (λ n. n ≡ at + length more.items) }
    ensures code { OnOk result (code.new.items ≡ code.old.items ++ more.items) }
{
    let after = place_after(at, &more)?;
    joined(code, more)?;
    Ok(after)
}

/// One instruction.
pub(crate) fn only(alloc: Global, one: Instruction) -> Result<Vec<Instruction>, OutOfMemory>
    ensures { IfOk result (λ v. instructions v.items ≡ instruction one ∷ []) }
{
    Ok(vec![in alloc; one]?)
}

/// The place after code that stands at a place.
pub(crate) fn place_after(pc: usize, code: &Vec<Instruction>) -> Result<usize, OutOfMemory>
    ensures { IfOk result (λ n. n ≡ pc + length code.now.items) }
{
    plus(pc, code.len())
}

/// The place after code that stands at a place and has one instruction more after it.
pub(crate) fn place_past(pc: usize, code: &Vec<Instruction>) -> Result<usize, OutOfMemory>
    ensures { IfOk result (λ n. n ≡ pc + length code.now.items + 1) }
{
    plus(place_after(pc, code)?, 1)
}

/// How many instructions code has.
pub(crate) fn size(code: &Vec<Instruction>) -> usize
    ensures { result ≡ length (instructions code.now.items) }
{
    code.len()
}

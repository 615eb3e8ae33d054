//! REDISTRIBUTE (HPF 2.0, 8.3).

ghost use Rattle.std.specs.Prelude.{◌≡◌, [], ◌∷◌, ◌++◌, IfOk, OnOk, map};
ghost use Rattle.node_code.specs.Instructions.{Remap};
ghost use Rattle.node_code.specs.Texts.{instructions, new_mapping};
ghost use Rattle.node_codegen.specs.Moves.{moves_by, moves_of_line};

use crate::sequences::only;
use hpf_base::OutOfMemory;
use node_code::{Instruction, NewMapping};
use std::alloc::Global;

/// The arrays that the REDISTRIBUTE of a line moves, each with the number of its new mapping.
#[derive(Drop)]
pub struct LineMoves {
    pub line: u32,
    pub maps: Vec<NewMapping>,
}

/// The code of a REDISTRIBUTE: the arrays that its line moves get their new mappings.
pub(crate) fn remap_code(
    alloc: Global,
    line: u32,
    moves: &[LineMoves],
) -> Result<Vec<Instruction>, OutOfMemory>
    ensures { IfOk result (λ v. instructions v.items ≡ Remap line (moves_by moves.now line) ∷ []) }
{
    let new = moves_by(alloc, moves, line)?;
    only(alloc, Instruction::Remap { line, new })
}

/// The new mappings of a line.
fn moves_by(alloc: Global, moves: &[LineMoves], line: u32) -> Result<Vec<NewMapping>, OutOfMemory>
    ensures { IfOk result (λ found. map new_mapping found.items ≡ moves_by moves.now line) }
{
    let mut found = Vec::new(alloc);
    for one in moves {
        push_of_line(one, line, &mut found)?;
    }
    Ok(found)
}

/// Those of one entry, if it is of that line, after the others.
fn push_of_line(one: &LineMoves, line: u32, found: &mut Vec<NewMapping>) -> Result<(), OutOfMemory>
    ensures { OnOk result (map new_mapping found.new.items ≡ map new_mapping found.old.items ++ moves_of_line one.now line) }
{
    if one.line == line {
        found.extend_from_slice(&one.maps)?;
    }
    Ok(())
}

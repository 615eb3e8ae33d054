//! The copies of a nest before its statements and after them.

ghost use Rattle.std.specs.Prelude.{◌≡◌, ◌++◌, ℕ, map, IfOk, OnOk};
ghost use Rattle.program_code.specs.NestInstructions.{conditions_makes, final_instruction, final_makes, finals_instructions, finals_makes};
ghost use Rattle.node_code.specs.Texts.{instruction, instructions};
ghost use Rattle.resolved_program.specs.Resolved.{block_of};
ghost use Rattle.node_codegen.specs.NestFinals.{final, final_of, finals_by};
ghost use Rattle.node_codegen.specs.NestNames.{beside_by, over_by};

use crate::nest_names::NestNames;
use crate::nest_scalars::{is_in, operator_in};
use crate::nest_statements::making;
use expression_code::plus;
use hpf_base::OutOfMemory;
use node_code::{Flat, Instruction};
use op_tables::Join;
use resolved_program::Statement;
use std::alloc::Global;

/// How a scalar that a nest assigns gets its value after it.
#[derive(Clone, Copy, PartialEq, Eq)]
pub(crate) enum Final {
    /// Its copies in a row are folded into its slot.
    Folds {
        join: Join,
        row: usize,
        slot: usize,
    },
    /// Its slot gets the copy of the last iteration that is marked.
    Lasts {
        row: usize,
        mark: usize,
        slot: usize,
    },
}

/// Those of all scalars that the innermost block of a nest assigns, in their order.
pub(crate) fn finals(
    alloc: Global,
    w: &NestNames,
    body: &Vec<Statement>,
) -> Result<Vec<Final>, OutOfMemory>
    ensures { IfOk result (λ v. map final v.items ≡ finals_by w.now (block_of body.now.items) 0 w.now.scalars.items) }
{
    let mut made = Vec::new(alloc);
    for j in 0..w.scalars.len() {
        made.push(final_of(w, body, j, w.scalars[j])?)?;
    }
    Ok(made)
}

/// That of a scalar with a place among those.
fn final_of(w: &NestNames, body: &Vec<Statement>, j: usize, k: usize) -> Result<Final, OutOfMemory>
    ensures { IfOk result (λ f. final f ≡ final_of w.now (block_of body.now.items) j k) }
{
    let row = plus(w.names, j)?;
    if is_in(k, &w.reduction) {
        return Ok(Final::Folds {
            join: operator_in(body, k),
            row,
            slot: k,
        });
    }
    Ok(Final::Lasts {
        row,
        mark: plus(w.marks, j)?,
        slot: k,
    })
}

/// Puts the copies at the entry: those of scalars, and those of so many stored conditions.
pub(crate) fn add_makes(
    alloc: Global,
    code: &mut Vec<Instruction>,
    w: &NestNames,
    finals: &[Final],
    conditions: usize,
) -> Result<(), OutOfMemory>
    ensures { OnOk result (instructions code.new.items ≡ instructions code.old.items
        ++ (finals_makes w.now.line (over_by w.now) (beside_by w.now) (map final finals.now)
        ++ conditions_makes w.now.line (over_by w.now) (beside_by w.now) w.now.stored conditions)) }
{
    add_finals_makes(alloc, code, w, finals)?;
    add_conditions_makes(alloc, code, w, conditions)
}

/// Puts those of scalars.
fn add_finals_makes(
    alloc: Global,
    code: &mut Vec<Instruction>,
    w: &NestNames,
    finals: &[Final],
) -> Result<(), OutOfMemory>
    ensures { OnOk result (instructions code.new.items ≡ instructions code.old.items ++ finals_makes w.now.line (over_by w.now) (beside_by w.now) (map final finals.now)) }
{
    for f in finals {
        add_final_makes(alloc, code, w, f)?;
    }
    Ok(())
}

/// Puts those of a scalar: a REDUCTION variable's copies begin with the unit, any other's with its value, and no mark is set.
fn add_final_makes(
    alloc: Global,
    code: &mut Vec<Instruction>,
    w: &NestNames,
    f: &Final,
) -> Result<(), OutOfMemory>
    ensures { OnOk result (instructions code.new.items ≡ instructions code.old.items ++ final_makes w.now.line (over_by w.now) (beside_by w.now) (final f.now)) }
{
    match f {
        Final::Folds { join, row, .. } => {
            code.push(making(alloc, w, *row, Flat::Int(join.unit()))?)?;
            Ok(())
        }
        Final::Lasts { row, mark, slot } => {
            code.push(making(alloc, w, *row, Flat::Slot(*slot))?)?;
            code.push(making(alloc, w, *mark, Flat::Int(0))?)?;
            Ok(())
        }
    }
}

/// Puts those of stored conditions: none holds.
fn add_conditions_makes(
    alloc: Global,
    code: &mut Vec<Instruction>,
    w: &NestNames,
    conditions: usize,
) -> Result<(), OutOfMemory>
    ensures { OnOk result (instructions code.new.items ≡ instructions code.old.items ++ conditions_makes w.now.line (over_by w.now) (beside_by w.now) w.now.stored conditions) }
{
    for k in 0..conditions {
        let copy = plus(w.stored, k)?;
        code.push(making(alloc, w, copy, Flat::Int(0))?)?;
    }
    Ok(())
}

/// Puts the values of scalars after a nest.
pub(crate) fn add_finals(
    code: &mut Vec<Instruction>,
    line: u32,
    finals: &[Final],
) -> Result<(), OutOfMemory>
    ensures { OnOk result (instructions code.new.items ≡ instructions code.old.items ++ finals_instructions line (map final finals.now)) }
{
    for f in finals {
        code.push(final_instruction(f))?;
    }
    Ok(())
}

/// That of a scalar.
fn final_instruction(f: &Final) -> Instruction
    ensures { (line : ℕ) → instruction result ≡ final_instruction line (final f.now) }
{
    match f {
        Final::Folds { join, row, slot } => Instruction::FoldCopy {
            copy: *row,
            join: *join,
            slot: *slot,
        },
        Final::Lasts { row, mark, slot } => Instruction::LastCopy {
            copy: *row,
            set: *mark,
            slot: *slot,
        },
    }
}

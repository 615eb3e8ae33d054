//! The check of a nest of INDEPENDENT loops at its entry (HPF 2.0, 5.1).

ghost use Rattle.std.specs.Prelude.{◌≡◌, ◌<◌, ◌^◌, Some, map, IfOk, OnOk, OnErr};
ghost use Rattle.array_meaning.specs.NestEntry.{entered};
ghost use Rattle.code_meaning.specs.Instructions.{go_on_if};
ghost use Rattle.code_meaning.specs.NestChecks.{entry_state, without_elements};
ghost use Rattle.code_meaning.specs.Parallel.{at_line};
ghost use Rattle.resolved_program.specs.Resolved.{block_of, loop_of, mark};
ghost use Rattle.slot_values.specs.Controls.{control_of};
ghost use Rattle.slot_values.specs.Tested.{IsTest};
ghost use Rattle.term_values.specs.States.{state_of};

use crate::control::{Control, go_on_if};
use expression_rules::Dims;
use hpf_base::OutOfMemory;
use interference::enter;
use resolved_program::{Loop, Nest, Statement};
use std::alloc::{AllocError, Global};
use term_values::{Array, State, Stop};

/// The run ends with a fault where a nest with iterations is beyond the limits, or else two of them interfere, and else goes on. After
/// want of memory nothing has changed.
#[tactic(auto, using(crate::proofs::Tested::tested_as))]
pub(crate) fn check(
    alloc: Global,
    shapes: &[Dims],
    line: u32,
    nest: &Nest,
    outermost: &Loop,
    body: &Vec<Statement>,
    c: &mut Control,
) -> Result<(), OutOfMemory>
    requires in_code { c.old.at < 2 ^ 63 }
    ensures done { OnOk result (control_of c.new ≡ go_on_if (at_line line (entered (mark (Some nest.now) (loop_of outermost.now) (block_of body.now.items)) (entry_state shapes.now c.old.slots.items))) (control_of c.old)) }
    ensures unchanged { OnErr result (c.new ≡ c.old) }
{
    let test = is_entered(alloc, shapes, nest, outermost, body, &c.slots);
    go_on_if(line, test, c)
}

/// Whether a nest is entered.
fn is_entered(
    alloc: Global,
    shapes: &[Dims],
    nest: &Nest,
    outermost: &Loop,
    body: &Vec<Statement>,
    slots: &[i64],
) -> Result<(), Stop>
    ensures { IsTest (entered (mark (Some nest.now) (loop_of outermost.now) (block_of body.now.items)) (entry_state shapes.now slots.now)) result }
{
    let mut s = entry_state(alloc, shapes, slots)?;
    enter(alloc, &mut s, nest, outermost, body)
}

/// The state that the check sees: the slots, of which the first are the scalars, and the dimensions of the arrays.
fn entry_state(alloc: Global, shapes: &[Dims], slots: &[i64]) -> Result<State, AllocError>
    ensures { IfOk result (λ s. state_of s ≡ entry_state shapes.now slots.now) }
{
    let mut scalars = Vec::new(alloc);
    scalars.extend_from_slice(slots)?;
    Ok(State {
        scalars,
        arrays: without_elements(alloc, shapes)?,
        printed: Vec::new(alloc),
    })
}

/// Arrays of these dimensions, without their elements.
fn without_elements(alloc: Global, shapes: &[Dims]) -> Result<Vec<Array>, AllocError>
    ensures { IfOk result (λ v. v.items ≡ map without_elements shapes.now) }
{
    let mut arrays = Vec::new(alloc);
    for dims in shapes {
        let dims = dims.copy(alloc)?;
        arrays.push(Array::new(dims, Vec::new(alloc)))?;
    }
    Ok(arrays)
}

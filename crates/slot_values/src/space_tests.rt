//! The tests of the spaces of array statements.

ghost use Rattle.std.specs.Prelude.{◌≡◌, ◌<◌, ◌^◌, IfOk, IfErr, Ok, OnOk, OnErr};
ghost use Rattle.code_meaning.specs.Instructions.{go_on_if};
ghost use Rattle.code_meaning.specs.Parallel.{assignment_size, at_line, evaluation_size};
ghost use Rattle.node_code.specs.Texts.{assignment, evaluation};
ghost use Rattle.slot_values.specs.Controls.{control_of};
ghost use Rattle.slot_values.specs.Tested.{IsTest};
ghost use Rattle.term_values.specs.Stops.{IsStop};

use crate::control::{Control, go_on_if};
use crate::sections::{elemental_at, selections_at};
use hpf_base::OutOfMemory;
use node_code::{Assignment, Evaluation};
use std::alloc::Global;
use term_values::{Stop, extents, own_size, space_size};

/// The run ends with a fault where a section of an assignment has other extents than its space, or the space is beyond the limits, and
/// else goes on. After want of memory nothing has changed.
#[tactic(auto, using(crate::proofs::Tested::tested_as))]
pub fn limits(alloc: Global, p: &Assignment, c: &mut Control) -> Result<(), OutOfMemory>
    requires in_code { c.old.at < 2 ^ 63 }
    ensures done { OnOk result (control_of c.new ≡ go_on_if (at_line p.now.line (assignment_size (assignment p.now) c.old.slots.items)) (control_of c.old)) }
    ensures unchanged { OnErr result (c.new ≡ c.old) }
{
    let test = has_assignment_size(alloc, p, &c.slots);
    go_on_if(p.line, test, c)
}

/// Whether the space of an assignment has a size.
fn has_assignment_size(alloc: Global, p: &Assignment, slots: &[i64]) -> Result<(), Stop>
    ensures { IsTest (assignment_size (assignment p.now) slots.now) result }
{
    match assignment_size(alloc, p, slots) {
        Ok(_) => Ok(()),
        Err(stop) => Err(stop),
    }
}

/// How many tuples the space of an assignment has.
fn assignment_size(alloc: Global, p: &Assignment, slots: &[i64]) -> Result<usize, Stop>
    ensures value { IfOk result (λ n. assignment_size (assignment p.now) slots.now ≡ Ok n) }
    ensures stopped { IfErr result (IsStop (assignment_size (assignment p.now) slots.now)) }
{
    let over = selections_at(alloc, slots, &[], &p.over)?;
    let left = selections_at(alloc, slots, &[], &p.left)?;
    let right = elemental_at(alloc, slots, &[], &p.right)?;
    let ns = extents(alloc, &over)?;
    space_size(alloc, &ns, &left, &right)
}

/// The run ends with a fault where a section of an array expression by itself has other extents than its space, or the space is beyond
/// the limits, and else goes on. After want of memory nothing has changed.
#[tactic(auto, using(crate::proofs::Tested::tested_as))]
pub(crate) fn own_limits(alloc: Global, p: &Evaluation, c: &mut Control) -> Result<(), OutOfMemory>
    requires in_code { c.old.at < 2 ^ 63 }
    ensures done { OnOk result (control_of c.new ≡ go_on_if (at_line p.now.line (evaluation_size (evaluation p.now) c.old.slots.items)) (control_of c.old)) }
    ensures unchanged { OnErr result (c.new ≡ c.old) }
{
    let test = has_evaluation_size(alloc, p, &c.slots);
    go_on_if(p.line, test, c)
}

/// Whether the space of an array expression has a size.
fn has_evaluation_size(alloc: Global, p: &Evaluation, slots: &[i64]) -> Result<(), Stop>
    ensures { IsTest (evaluation_size (evaluation p.now) slots.now) result }
{
    match evaluation_size(alloc, p, slots) {
        Ok(_) => Ok(()),
        Err(stop) => Err(stop),
    }
}

/// How many tuples the space of an array expression has.
fn evaluation_size(alloc: Global, p: &Evaluation, slots: &[i64]) -> Result<usize, Stop>
    ensures value { IfOk result (λ n. evaluation_size (evaluation p.now) slots.now ≡ Ok n) }
    ensures stopped { IfErr result (IsStop (evaluation_size (evaluation p.now) slots.now)) }
{
    let over = selections_at(alloc, slots, &[], &p.over)?;
    let x = elemental_at(alloc, slots, &[], &p.form)?;
    let ns = extents(alloc, &over)?;
    own_size(alloc, &ns, &x)
}

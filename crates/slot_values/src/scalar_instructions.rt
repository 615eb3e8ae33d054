//! Assignments of slots, tests, and the iteration counts of loops.

ghost use Rattle.std.specs.Prelude.{◌≡◌, ◌<◌, ◌≤◌, ◌-◌, ◌^◌, pos, [], Ok, OnOk, OnErr};
ghost use Rattle.op_tables.specs.Operators.{wrapped};
ghost use Rattle.array_meaning.specs.Sections.{sequence};
ghost use Rattle.machine_steps.specs.Machine.{slot_of};
ghost use Rattle.code_meaning.specs.Flat.{flat_value};
ghost use Rattle.code_meaning.specs.Instructions.{begin_trips, element_in, go_on_if, set_result, stride_at};
ghost use Rattle.code_meaning.specs.Parallel.{at_line};
ghost use Rattle.node_code.specs.Texts.{flat, flats_of};
ghost use Rattle.slot_values.specs.Controls.{control_of};
ghost use Rattle.slot_values.specs.Elements.{element_spot};
ghost use Rattle.slot_values.specs.Tested.{IsTest};

use crate::control::{Control, go_on_if, set_slot, stop_at};
use crate::element_spots::element_spot;
use crate::expressions::{flat_value, slot};
use array_meaning::{FaultKind, Sequence};
use expression_rules::Dims;
use hpf_base::OutOfMemory;
use node_code::Flat;
use term_values::{Number, Stop, fault, sequence};

/// A slot gets the value of an expression, or the run ends with its fault. After want of memory nothing has changed.
pub fn set(line: u32, x: usize, value: &Flat, c: &mut Control) -> Result<(), OutOfMemory>
    requires in_code { c.old.at < 2 ^ 63 }
    ensures done { OnOk result (control_of c.new ≡ set_result (at_line line (flat_value c.old.slots.items [] [] (flat value.now))) x (control_of c.old)) }
    ensures unchanged { OnErr result (c.new ≡ c.old) }
{
    match flat_value(&c.slots, &[], value) {
        Ok(v) => {
            set_slot(x, v, c);
            Ok(())
        }
        Err(stop) => stop_at(line, stop, c),
    }
}

/// The run ends with a fault where a subscript has one or is out of bounds, and else goes on. After want of memory nothing has changed.
pub(crate) fn test_bounds(
    shapes: &[Dims],
    line: u32,
    array: usize,
    subscripts: &Vec<Flat>,
    c: &mut Control,
) -> Result<(), OutOfMemory>
    requires in_code { c.old.at < 2 ^ 63 }
    ensures done { OnOk result (control_of c.new ≡ go_on_if (element_in shapes.now line array (flats_of subscripts.now.items) c.old.slots.items) (control_of c.old)) }
    ensures unchanged { OnErr result (c.new ≡ c.old) }
{
    let test = bounds(shapes, array, subscripts, &c.slots);
    go_on_if(line, test, c)
}

/// Whether there is such an element.
fn bounds(shapes: &[Dims], array: usize, subscripts: &Vec<Flat>, slots: &[i64]) -> Result<(), Stop>
    ensures { IsTest (element_spot shapes.now array (flats_of subscripts.now.items) slots.now) result }
{
    match element_spot(shapes, array, subscripts, slots) {
        Ok(_) => Ok(()),
        Err(stop) => Err(stop),
    }
}

/// The run ends with a fault where a slot is 0, and else goes on.
pub(crate) fn test_stride(line: u32, x: usize, c: &mut Control) -> Result<(), OutOfMemory>
    requires in_code { c.old.at < 2 ^ 63 }
    ensures done { OnOk result (control_of c.new ≡ go_on_if (at_line line (stride_at x c.old.slots.items)) (control_of c.old)) }
    ensures unchanged { OnErr result (c.new ≡ c.old) }
{
    let test = stride(x, &c.slots);
    go_on_if(line, test, c)
}

/// Whether a slot isn't 0.
fn stride(x: usize, slots: &[i64]) -> Result<(), Stop>
    ensures { IsTest (stride_at x slots.now) result }
{
    if slot(slots, x) == 0 {
        Err(fault(FaultKind::ZeroStride))
    } else {
        Ok(())
    }
}

/// The iteration count of a loop by the slots of its first value, last value and step (Fortran 95, 8.1.4.4.1). Where it is 0 the run goes
/// on at a target, else a slot gets what is left of it after the first iteration, in 64 bits. The run ends with a fault where the step
/// is 0.
pub fn trips(
    line: u32,
    first: usize,
    last: usize,
    step: usize,
    left: usize,
    target: usize,
    c: &mut Control,
) -> Result<(), OutOfMemory>
    requires in_code { c.old.at < 2 ^ 63 }
    ensures done { OnOk result (control_of c.new ≡ begin_trips left target
        (at_line line (sequence (slot_of (control_of c.old) first) (slot_of (control_of c.old) last) (slot_of (control_of c.old) step))) (control_of c.old)) }
    ensures unchanged { OnErr result (c.new ≡ c.old) }
{
    let first = slot(&c.slots, first);
    let last = slot(&c.slots, last);
    let step = slot(&c.slots, step);
    match sequence(first, last, step) {
        Ok(p) => {
            begin_trips(left, target, p, c);
            Ok(())
        }
        Err(stop) => stop_at(line, stop, c),
    }
}

/// Begins a loop that takes these values.
#[tactic(auto, using(crate::proofs::Begun::begins))]
fn begin_trips(left: usize, target: usize, p: Sequence, c: &mut Control)
    requires in_code { c.old.at < 2 ^ 63 }
    ensures { control_of c.new ≡ begin_trips left target (Ok p) (control_of c.old) }
{
    if p.count == 0 {
        c.at = target;
    } else {
        set_slot(left, trips_left(p.count).value, c);
    }
}

/// What is left of an iteration count after the first iteration, in 64 bits.
#[tactic(auto, using(crate::proofs::Begun::in_64_bits))]
fn trips_left(count: u128) -> Number
    requires some { 1 ≤ count }
    ensures { result.value ≡ wrapped (pos (count - 1)) }
{
    let left = ((count - 1) % (1 << 64)) as u64;
    Number {
        value: left.cast_signed(),
    }
}

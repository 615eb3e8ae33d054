//! Whether all elements of a section are elements of the array.

ghost use Rattle.std.specs.Prelude.{◌≡◌, ◌<◌, ◌^◌, OnOk, OnErr};
ghost use Rattle.array_meaning.specs.Faults.{at_tuple};
ghost use Rattle.array_meaning.specs.Sections.{positions};
ghost use Rattle.code_meaning.specs.Forms.{selections_in};
ghost use Rattle.code_meaning.specs.Instructions.{all_inside, go_on_if};
ghost use Rattle.code_meaning.specs.Parallel.{at_line};
ghost use Rattle.node_code.specs.Texts.{subs};
ghost use Rattle.slot_values.specs.Controls.{control_of};
ghost use Rattle.slot_values.specs.Elements.{inside_to, place_at};
ghost use Rattle.slot_values.specs.Tested.{IsTest};

use crate::control::{Control, go_on_if};
use crate::element_spots::element_place;
use crate::sections::selections_at;
use crate::spaces::space_count;
use array_meaning::{FaultKind, Selection};
use expression_rules::Dims;
use hpf_base::OutOfMemory;
use node_code::Sub;
use std::alloc::Global;
use term_values::{Stop, at_tuple, extents, fault, positions, subscripts_at};

/// The run ends with a fault at the first tuple of positions at which an element of a section is out of bounds, and goes on where there is
/// none. After want of memory nothing has changed.
#[tactic(auto, using(crate::proofs::Tested::tested_as))]
pub fn inside(
    alloc: Global,
    shapes: &[Dims],
    line: u32,
    array: usize,
    section: &[Sub],
    c: &mut Control,
) -> Result<(), OutOfMemory>
    requires in_code { c.old.at < 2 ^ 63 }
    ensures done { OnOk result (control_of c.new ≡ go_on_if (at_line line (all_inside shapes.now array (selections_in c.old.slots.items (subs section.now)))) (control_of c.old)) }
    ensures unchanged { OnErr result (c.new ≡ c.old) }
{
    let ds = selections_at(alloc, &c.slots, &[], section)?;
    let test = all_inside(alloc, shapes, array, &ds);
    go_on_if(line, test, c)
}

/// Whether all elements are in bounds.
fn all_inside(alloc: Global, shapes: &[Dims], array: usize, ds: &[Selection]) -> Result<(), Stop>
    ensures { IsTest (all_inside shapes.now array ds.now) result }
{
    let ns = extents(alloc, ds)?;
    first_inside(alloc, shapes, array, ds, &ns, space_count(&ns))
}

/// Whether those at the first tuples are.
#[tactic(auto, using(crate::proofs::InBounds::next_has_value, crate::proofs::InBounds::stops_there))]
fn first_inside(
    alloc: Global,
    shapes: &[Dims],
    array: usize,
    ds: &[Selection],
    ns: &[u128],
    n: usize,
) -> Result<(), Stop>
    ensures { IsTest (inside_to shapes.now array ds.now ns.now n) result }
{
    for t in 0..n {
        match is_inside(alloc, shapes, array, ds, ns, t) {
            Ok(()) => {}
            Err(stop) => return Err(stop),
        }
    }
    Ok(())
}

/// Whether the one at the tuple with a number is.
fn is_inside(
    alloc: Global,
    shapes: &[Dims],
    array: usize,
    ds: &[Selection],
    ns: &[u128],
    t: usize,
) -> Result<(), Stop>
    ensures { IsTest (at_tuple (positions ns.now t) (place_at shapes.now array ds.now ns.now t)) result }
{
    let tuple = positions(alloc, ns, t)?;
    let subscripts = subscripts_at(alloc, ds, tuple.as_slice())?;
    match element_place(shapes, array, subscripts.as_slice()) {
        Some(_) => Ok(()),
        None => Err(at_tuple(alloc, tuple.as_slice(), fault(FaultKind::Bounds))),
    }
}

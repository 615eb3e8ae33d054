//! The tests of a FORALL (Fortran 95, 7.5.4).

ghost use Rattle.std.specs.Prelude.{◌≡◌, ◌<◌, ◌≤◌, ◌^◌, ◌==◌, ◌||◌, map, IfOk, OnOk, OnErr};
ghost use Rattle.array_meaning.specs.declared.limits.TheConstants.{MAX_TUPLES};
ghost use Rattle.hpf_base.specs.ElementOrder.{product};
ghost use Rattle.array_meaning.specs.Forall.{is_forall_in_limits, is_one_to_one};
ghost use Rattle.array_meaning.specs.Sections.{extents};
ghost use Rattle.code_meaning.specs.ForallLimits.{forall_limits, one_to_one, sequences_of, slots_state, term_of};
ghost use Rattle.code_meaning.specs.Forms.{selections_in};
ghost use Rattle.code_meaning.specs.Instructions.{go_on_if};
ghost use Rattle.code_meaning.specs.Parallel.{at_line};
ghost use Rattle.node_code.specs.Texts.{flat, subs};
ghost use Rattle.slot_values.specs.Controls.{control_of};
ghost use Rattle.slot_values.specs.Tested.{IsTest, passing};

use crate::control::{Control, go_on_if};
use crate::sections::selections_at;
use crate::slot_terms::{sequences_of, slots_state, terms};
use array_meaning::{FaultKind, Selection};
use forall_conditions::{are_subscripts_in_limits, is_one_to_one};
use hpf_base::OutOfMemory;
use node_code::{Flat, Sub};
use std::alloc::{AllocError, Global};
use term_values::{Stop, extents, fault, size};

/// The run ends with a fault where the space of these indices isn't empty and it or a subscript is beyond the limits, and else goes on.
/// After want of memory nothing has changed.
#[tactic(auto, using(crate::proofs::Tested::tested_as))]
pub(crate) fn forall_limits(
    alloc: Global,
    line: u32,
    over: &[Sub],
    subscripts: &Vec<Flat>,
    c: &mut Control,
) -> Result<(), OutOfMemory>
    requires in_code { c.old.at < 2 ^ 63 }
    ensures done { OnOk result (control_of c.new ≡ go_on_if (at_line line (forall_limits (subs over.now) (map flat subscripts.now.items) c.old.slots.items)) (control_of c.old)) }
    ensures unchanged { OnErr result (c.new ≡ c.old) }
{
    let passes = is_in_limits(alloc, over, subscripts, &c.slots)?;
    let test = passed(passes, FaultKind::SpaceLimit);
    go_on_if(line, test, c)
}

/// A test with this answer, or a fault of this kind.
fn passed(passes: bool, kind: FaultKind) -> Result<(), Stop>
    ensures { IsTest (passing passes kind) result }
{
    if passes { Ok(()) } else { Err(fault(kind)) }
}

/// Whether the space of these indices is empty, or it and all subscripts are in the limits.
fn is_in_limits(
    alloc: Global,
    over: &[Sub],
    subscripts: &Vec<Flat>,
    slots: &[i64],
) -> Result<bool, AllocError>
    ensures { IfOk result (λ b. b ≡ (product (extents (selections_in slots.now (subs over.now))) == 0
        || is_forall_in_limits (slots_state slots.now) (sequences_of (selections_in slots.now (subs over.now))) (map term_of (map flat subscripts.now.items)))) }
{
    let ds = selections_at(alloc, slots, &[], over)?;
    let ns = extents(alloc, &ds)?;
    match size(&ns) {
        Some(0) => Ok(true),
        None => Ok(false),
        Some(_) => is_full_space_in_limits(alloc, &ds, subscripts, slots),
    }
}

/// Whether the space of these indices and all subscripts are in the limits, where the space isn't empty and has few tuples.
fn is_full_space_in_limits(
    alloc: Global,
    ds: &[Selection],
    subscripts: &Vec<Flat>,
    slots: &[i64],
) -> Result<bool, AllocError>
    requires some { 0 < product (extents ds.now) }
    requires few { product (extents ds.now) ≤ MAX_TUPLES }
    ensures { IfOk result (λ b. b ≡ is_forall_in_limits (slots_state slots.now) (sequences_of ds.now) (map term_of (map flat subscripts.now.items))) }
{
    let s = slots_state(alloc, slots)?;
    let axes = sequences_of(alloc, ds)?;
    let subscripts = terms(alloc, subscripts)?;
    are_subscripts_in_limits(&s, &axes, &subscripts)
}

/// The run ends with a fault where an assignment with these subscripts on the left assigns an element at two tuples, and else goes on.
/// After want of memory nothing has changed.
#[tactic(auto, using(crate::proofs::Tested::tested_as))]
pub(crate) fn one_to_one(
    alloc: Global,
    line: u32,
    over: &[Sub],
    left: &Vec<Flat>,
    c: &mut Control,
) -> Result<(), OutOfMemory>
    requires in_code { c.old.at < 2 ^ 63 }
    ensures done { OnOk result (control_of c.new ≡ go_on_if (at_line line (one_to_one (subs over.now) (map flat left.now.items) c.old.slots.items)) (control_of c.old)) }
    ensures unchanged { OnErr result (c.new ≡ c.old) }
{
    let passes = is_left_one_to_one(alloc, over, left, &c.slots)?;
    let test = passed(passes, FaultKind::NotOneToOne);
    go_on_if(line, test, c)
}

/// Whether the space of these indices is empty, or no element is assigned at two of its tuples.
fn is_left_one_to_one(
    alloc: Global,
    over: &[Sub],
    left: &Vec<Flat>,
    slots: &[i64],
) -> Result<bool, AllocError>
    ensures { IfOk result (λ b. b ≡ (product (extents (selections_in slots.now (subs over.now))) == 0
        || is_one_to_one (slots_state slots.now) (map term_of (map flat left.now.items)) 0 (extents (selections_in slots.now (subs over.now))))) }
{
    let ds = selections_at(alloc, slots, &[], over)?;
    let ns = extents(alloc, &ds)?;
    match size(&ns) {
        Some(0) => Ok(true),
        _ => is_one_to_one_over(alloc, &ns, left, slots),
    }
}

/// Whether some subscript depends on each index that has two values at least.
fn is_one_to_one_over(
    alloc: Global,
    ns: &[u128],
    left: &Vec<Flat>,
    slots: &[i64],
) -> Result<bool, AllocError>
    ensures { IfOk result (λ b. b ≡ is_one_to_one (slots_state slots.now) (map term_of (map flat left.now.items)) 0 ns.now) }
{
    let s = slots_state(alloc, slots)?;
    let left = terms(alloc, left)?;
    is_one_to_one(&s, &left, ns)
}

//! What assignments to sections store (Fortran 95, 7.5.1.5 and 7.5.3). All of it is evaluated before anything is stored.

ghost use Rattle.std.specs.Prelude.{◌≡◌, ◌≤◌, IfErr, IfOk, Ok, OnOk, Some};
ghost use Rattle.array_meaning.specs.declared.limits.TheConstants.{MAX_TUPLES};
ghost use Rattle.array_meaning.specs.Elementals.{each};
ghost use Rattle.array_meaning.specs.ArrayAssignments.{if_true, mask_of};
ghost use Rattle.array_meaning.specs.Sections.{positions, subscripts_at};
ghost use Rattle.array_meaning.specs.State.{place_in};
ghost use Rattle.array_meaning.specs.Faults.{at_tuple};
ghost use Rattle.resolved_program.specs.Resolved.{section_assignment, subscripts_of, term};
ghost use Rattle.term_values.specs.States.{state_of};
ghost use Rattle.term_values.specs.Stops.{IsStop};
ghost use Rattle.term_values.specs.Views.{elemental};
ghost use Rattle.serial_run.specs.RowStores.{stores_of};
ghost use Rattle.serial_run.specs.SectionStores.{Keeps, branch_mask, kept_of, masked_store, right_stores, section_stores, space_stores, tuple_store, where_stores};

use crate::position_tuples::{advance, tuple_at};
use crate::row_stores::{Stores, row_stores};
use array_meaning::{Selection, Store};
use resolved_program::{SectionAssignment, SectionSubscript, Term};
use term_values::{
    Elemental, State, Stop, at_tuple, element_place, elemental_of, extents, selections, space_size,
    subscripts_at, value_at,
};

/// Where an assignment stands: not in a WHERE, or before or after its ELSEWHERE.
#[derive(Clone, Copy)]
pub(crate) enum Branch {
    Unmasked,
    Where,
    Elsewhere,
}

/// A space, by its extents, and the values of the mask over it, of which there are none where an assignment is unmasked.
#[derive(Clone, Copy)]
pub(crate) struct Space<'a> {
    pub extents: &'a [u128],
    pub branch: Branch,
    pub mask: &'a [i64],
}

/// Both sides of an assignment to a section, once they are evaluated.
#[derive(Clone, Copy)]
pub(crate) struct Sides<'a> {
    pub array: usize,
    pub left: &'a [Selection],
    pub right: &'a Elemental,
}

/// What an array assignment stores.
pub(crate) fn section_stores(
    s: &State,
    array: usize,
    subscripts: &Vec<SectionSubscript>,
    right: &Term,
) -> Result<Stores, Stop>
    ensures value { IfOk result (λ v. section_stores array (subscripts_of subscripts.now.items) (term right.now) (state_of s.now) ≡ Ok (stores_of v)) }
    ensures stopped { IfErr result (IsStop (section_stores array (subscripts_of subscripts.now.items) (term right.now) (state_of s.now))) }
{
    let ds = selections(s, &[], subscripts)?;
    let extents = extents(*s.scalars.allocator(), &ds)?;
    let space = Space {
        extents: &extents,
        branch: Branch::Unmasked,
        mask: &[],
    };
    let stores = right_stores(s, space, array, &ds, right)?;
    Ok(stores)
}

/// What an assignment of a WHERE stores.
pub(crate) fn where_stores(
    s: &State,
    space: Space<'_>,
    b: &SectionAssignment,
) -> Result<Stores, Stop>
    ensures value { IfOk result (λ v. where_stores space.entry.extents.now (branch_mask space.entry.branch space.entry.mask.now) (section_assignment b.now) (state_of s.now) ≡ Ok (stores_of v)) }
    ensures stopped { IfErr result (IsStop (where_stores space.entry.extents.now (branch_mask space.entry.branch space.entry.mask.now) (section_assignment b.now) (state_of s.now))) }
{
    let ds = selections(s, &[], &b.subscripts)?;
    let stores = right_stores(s, space, b.array, &ds, &b.right)?;
    Ok(stores)
}

/// What is stored, once the left side is evaluated.
fn right_stores(
    s: &State,
    space: Space<'_>,
    array: usize,
    left: &[Selection],
    right: &Term,
) -> Result<Stores, Stop>
    ensures value { IfOk result (λ v. right_stores space.entry.extents.now (branch_mask space.entry.branch space.entry.mask.now) array left.now (term right.now) (state_of s.now) ≡ Ok (stores_of v)) }
    ensures stopped { IfErr result (IsStop (right_stores space.entry.extents.now (branch_mask space.entry.branch space.entry.mask.now) array left.now (term right.now) (state_of s.now))) }
{
    let x = elemental_of(s, &[], right)?;
    let sides = Sides {
        array,
        left,
        right: &x,
    };
    let stores = space_stores(s, space, sides)?;
    Ok(stores)
}

/// What is stored, once both sides are evaluated.
fn space_stores(s: &State, space: Space<'_>, sides: Sides<'_>) -> Result<Stores, Stop>
    ensures value { IfOk result (λ v. space_stores space.entry.extents.now (branch_mask space.entry.branch space.entry.mask.now) sides.entry.array sides.entry.left.now (elemental sides.entry.right.now) (state_of s.now) ≡ Ok (stores_of v)) }
    ensures stopped { IfErr result (IsStop (space_stores space.entry.extents.now (branch_mask space.entry.branch space.entry.mask.now) sides.entry.array sides.entry.left.now (elemental sides.entry.right.now) (state_of s.now))) }
{
    let n = space_size(
        *s.scalars.allocator(),
        space.extents,
        sides.left,
        sides.right,
    )?;
    if let Some(rows) = row_stores(s, space, sides, n)? {
        return Ok(Stores::ByRows(rows));
    }
    let stores = all_stores(s, space, sides, n)?;
    Ok(Stores::Listed(stores))
}

/// What is stored at all tuples, in order.
fn all_stores(s: &State, space: Space<'_>, sides: Sides<'_>, n: usize) -> Result<Vec<Store>, Stop>
    requires { n ≤ MAX_TUPLES }
    ensures value { IfOk result (λ v. kept_of (each (positions space.entry.extents.now) (masked_store (state_of s.now) space.entry.extents.now (branch_mask space.entry.branch space.entry.mask.now) sides.entry.array sides.entry.left.now (elemental sides.entry.right.now)) n) ≡ Ok v.items) }
    ensures stopped { IfErr result (IsStop (each (positions space.entry.extents.now) (masked_store (state_of s.now) space.entry.extents.now (branch_mask space.entry.branch space.entry.mask.now) sides.entry.array sides.entry.left.now (elemental sides.entry.right.now)) n)) }
{
    let alloc = *s.scalars.allocator();
    let mut stores = Vec::new(alloc);
    let mut x = tuple_at(alloc, space.extents, 0)?;
    for t in 0..n {
        keep_store(s, space, sides, t, &x.values, &mut stores)?;
        advance(alloc, space.extents, t, &mut x)?;
    }
    Ok(stores)
}

/// Puts what is stored at a tuple after others, if the mask is true at its number.
fn keep_store(
    s: &State,
    space: Space<'_>,
    sides: Sides<'_>,
    t: usize,
    tuple: &[i64],
    stores: &mut Vec<Store>,
) -> Result<(), Stop>
    ensures value { OnOk result (Keeps (if_true (branch_mask space.entry.branch space.entry.mask.now t) (tuple_store (state_of s.now) sides.entry.array sides.entry.left.now (elemental sides.entry.right.now) tuple.now)) stores.old.items stores.new.items) }
    ensures stopped { IfErr result (IsStop (at_tuple tuple.now (if_true (branch_mask space.entry.branch space.entry.mask.now t) (tuple_store (state_of s.now) sides.entry.array sides.entry.left.now (elemental sides.entry.right.now) tuple.now)))) }
{
    if !is_chosen(space, t) {
        return Ok(());
    }
    let st = located_store(s, sides, tuple)?;
    stores.push(st)?;
    Ok(())
}

/// Whether the mask of a space is true at the tuple with a number.
pub(crate) fn is_chosen(space: Space<'_>, t: usize) -> bool
    ensures { result ≡ branch_mask space.entry.branch space.entry.mask.now t }
{
    match space.branch {
        Branch::Unmasked => true,
        Branch::Where => is_true_at(space.mask, t),
        Branch::Elsewhere => !is_true_at(space.mask, t),
    }
}

/// Whether the mask of these values is true at a tuple.
fn is_true_at(mask: &[i64], t: usize) -> bool
    ensures { result ≡ mask_of mask.now t }
{
    t < mask.len() && mask[t] != 0
}

/// What is stored at a tuple; a fault has the tuple.
fn located_store(s: &State, sides: Sides<'_>, tuple: &[i64]) -> Result<Store, Stop>
    ensures value { IfOk result (λ st. tuple_store (state_of s.now) sides.entry.array sides.entry.left.now (elemental sides.entry.right.now) tuple.now ≡ Ok (Some st)) }
    ensures stopped { IfErr result (IsStop (at_tuple tuple.now (tuple_store (state_of s.now) sides.entry.array sides.entry.left.now (elemental sides.entry.right.now) tuple.now))) }
{
    match store_at(s, sides, tuple) {
        Ok(st) => Ok(st),
        Err(stop) => Err(at_tuple(*s.scalars.allocator(), tuple, stop)),
    }
}

/// What is stored at a tuple: the left side's bounds come before the right side.
fn store_at(s: &State, sides: Sides<'_>, tuple: &[i64]) -> Result<Store, Stop>
    ensures value { IfOk result (λ st. tuple_store (state_of s.now) sides.entry.array sides.entry.left.now (elemental sides.entry.right.now) tuple.now ≡ Ok (Some st)) }
    ensures stopped { IfErr result (IsStop (tuple_store (state_of s.now) sides.entry.array sides.entry.left.now (elemental sides.entry.right.now) tuple.now)) }
{
    let place = place_at(s, sides.array, sides.left, tuple)?;
    let value = value_at(s, tuple, sides.right)?;
    Ok(Store { place, value })
}

/// The place of the left side at a tuple.
fn place_at(s: &State, array: usize, left: &[Selection], tuple: &[i64]) -> Result<usize, Stop>
    ensures value { IfOk result (λ k. place_in (state_of s.now) array (subscripts_at left.now tuple.now) ≡ Ok k) }
    ensures stopped { IfErr result (IsStop (place_in (state_of s.now) array (subscripts_at left.now tuple.now))) }
{
    let subscripts = subscripts_at(*s.scalars.allocator(), left, tuple)?;
    element_place(s, array, subscripts.as_slice())
}

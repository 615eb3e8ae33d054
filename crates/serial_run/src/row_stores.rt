//! What assignments to sections store, by rows of their space where the places in each row follow one another.

ghost use Rattle.std.specs.Prelude.{◌≡◌, ◌≤◌, suc, length, min, slice_index_or, true, IfOk, IfSome, Ok};
ghost use Rattle.array_meaning.specs.declared.limits.TheConstants.{MAX_TUPLES};
ghost use Rattle.array_meaning.specs.Elementals.{each};
ghost use Rattle.array_meaning.specs.Sections.{positions};
ghost use Rattle.strips.specs.Places.{row_length};
ghost use Rattle.term_values.specs.States.{state_of};
ghost use Rattle.term_values.specs.Views.{elemental};
ghost use Rattle.serial_run.specs.RowStores.{rows_of, stores_below, stores_of};
ghost use Rattle.serial_run.specs.SectionStores.{branch_mask, kept_of, masked_store, stored_each};

use crate::section_assignments::store_each;
use crate::section_stores::{Branch, Sides, Space};
use array_meaning::{MAX_TUPLES, Store};
use std::alloc::AllocError;
use strips::{strip_places, strip_values};
use term_values::State;

/// Stores by rows: the place of the first tuple of each row, the place in a row of its last tuple, and the values of all tuples in order.
#[derive(Drop)]
pub(crate) struct RowStores {
    pub firsts: Vec<u32>,
    pub last: usize,
    pub values: Vec<i64>,
}

/// What is stored, in order.
#[derive(Drop)]
pub(crate) enum Stores {
    Listed(Vec<Store>),
    ByRows(RowStores),
}

/// What is stored at all tuples of a space, in order. None where a mask chooses among them, where the places of a row don't follow one
/// another, and where there is a fault.
pub(crate) fn row_stores(
    s: &State,
    space: Space<'_>,
    sides: Sides<'_>,
    n: usize,
) -> Result<Option<RowStores>, AllocError>
    requires { n ≤ MAX_TUPLES }
    ensures { IfOk result (λ p. IfSome p (λ r. kept_of (each (positions space.entry.extents.now) (masked_store (state_of s.now) space.entry.extents.now (branch_mask space.entry.branch space.entry.mask.now) sides.entry.array sides.entry.left.now (elemental sides.entry.right.now)) n) ≡ Ok (rows_of r))) }
{
    match space.branch {
        Branch::Unmasked => unmasked_rows(s, space.extents, sides, n),
        _ => Ok(None),
    }
}

/// The same of a space without a mask.
#[tactic(auto, using(crate::proofs::StoredRows::rows_kept))]
fn unmasked_rows(
    s: &State,
    ns: &[u128],
    sides: Sides<'_>,
    n: usize,
) -> Result<Option<RowStores>, AllocError>
    requires { n ≤ MAX_TUPLES }
    ensures { IfOk result (λ p. IfSome p (λ r. kept_of (each (positions ns.now) (masked_store (state_of s.now) ns.now (λ t. true) sides.entry.array sides.entry.left.now (elemental sides.entry.right.now)) n) ≡ Ok (rows_of r))) }
{
    let Some(last) = last_of_row(ns) else {
        return Ok(None);
    };
    let Some(firsts) = strip_places(s, ns, sides.array, sides.left, n)? else {
        return Ok(None);
    };
    let Some(values) = strip_values(s, ns, sides.right, n)? else {
        return Ok(None);
    };
    Ok(Some(RowStores {
        firsts,
        last,
        values,
    }))
}

/// The place of the last tuple of a row.
fn last_of_row(ns: &[u128]) -> Option<usize>
    ensures { IfSome result (λ last. suc last ≡ row_length ns.now) }
{
    if let [first, ..] = ns {
        if *first >= 1 && *first <= MAX_TUPLES as u128 {
            return Some((*first - 1) as usize);
        }
    }
    None
}

/// Stores, in order.
pub(crate) fn store_kept(s: &mut State, array: usize, stores: &Stores)
    ensures { state_of s.new ≡ stored_each (state_of s.old) array (stores_of stores.now) }
{
    match stores {
        Stores::Listed(v) => store_each(s, array, v),
        Stores::ByRows(rows) => { store_rows(s, array, &rows.firsts, rows.last, &rows.values) }
    }
}

/// Stores by rows, in order, each row at once.
fn store_rows(s: &mut State, array: usize, firsts: &[u32], last: usize, values: &[i64])
    ensures { state_of s.new ≡ stored_each (state_of s.old) array (stores_below firsts.now (suc last) values.now (length values.now)) }
{
    let mut row = 0;
    let mut start = 0;
    while start < values.len() {
        let end = start + in_row(last, values.len() - start);
        s.store_run(array, first_at(firsts, row) as usize, &values[start..end]);
        start = end;
        row += 1;
    }
}

/// How many tuples stand in the next row, by how many are left.
fn in_row(last: usize, left: usize) -> usize
    ensures { result ≡ min (suc last) left }
{
    if last < left { last + 1 } else { left }
}

/// The first place of a row; 0 where there is none.
fn first_at(firsts: &[u32], row: usize) -> u32
    ensures { result ≡ slice_index_or firsts.now row 0 }
{
    if row < firsts.len() { firsts[row] } else { 0 }
}

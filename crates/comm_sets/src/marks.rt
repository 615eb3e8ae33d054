//! Which nodes have a message for which at a redistribution.

ghost use Rattle.std.specs.Prelude.{◌≡◌, ◌<◌, ◌≤◌, ◌*◌, ◌+◌, ◌&&◌, All, IfOk, IsTrue, OnOk, Some, false, length, map, nat_eq, not, replicate, slice_index_or, slice_set, true};
ghost use Rattle.std.specs.List.{list_any, range_with_len, slice_get};
ghost use Rattle.storage.specs.Storage.{Spot};
ghost use Rattle.machine_steps.specs.Layout.{Layout, owned_in, owns_spot, sizes};
ghost use Rattle.machine_steps.specs.Message.{all_spots};
ghost use Rattle.storage.specs.Spots.{spot_of};
ghost use Rattle.comm_sets.specs.Marks.{Marked, any_moved};
ghost use Rattle.covering_rounds.specs.Moved.{is_moved};

use hpf_base::OutOfMemory;
use owner_tables::{Owners, Spot};
use std::alloc::Global;

/// The marks of no pair of so many nodes.
pub(crate) fn unmarked(alloc: Global, nodes: u32) -> Result<Vec<bool>, OutOfMemory>
    requires { nodes ≤ 64 }
    ensures { IfOk result (λ marks. marks.items ≡ replicate (nodes * 64) false) }
{
    Ok(vec![in alloc; false; nodes as usize * 64]?)
}

/// Marks the pairs of the least owner of an element before and a node that owns it after and not before.
pub(crate) fn mark_rows(
    marks: &mut Vec<bool>,
    before: &Owners,
    after: &Owners,
) -> Result<(), OutOfMemory>
    requires nodes { before.now.nodes ≡ after.now.nodes }
    requires sizes { sizes before.now.layouts ≡ sizes after.now.layouts }
    requires few { before.now.nodes ≤ 64 }
    requires long { length marks.old.items ≡ before.now.nodes * 64 }
    ensures { OnOk result (Marked before.now.nodes marks.old.items marks.new.items
        (any_moved before.now.nodes before.now.layouts after.now.layouts (all_spots before.now.layouts))) }
{
    for row in 0..before.rows() {
        mark_row(marks, before, after, row)?;
    }
    Ok(())
}

/// Marks those of the elements of a row.
fn mark_row(
    marks: &mut Vec<bool>,
    before: &Owners,
    after: &Owners,
    row: usize,
) -> Result<(), OutOfMemory>
    requires nodes { before.now.nodes ≡ after.now.nodes }
    requires sizes { sizes before.now.layouts ≡ sizes after.now.layouts }
    requires few { before.now.nodes ≤ 64 }
    requires long { length marks.old.items ≡ before.now.nodes * 64 }
    ensures { OnOk result (Marked before.now.nodes marks.old.items marks.new.items (any_moved before.now.nodes before.now.layouts after.now.layouts
        (map (λ at. record { row = row; at = at }) (range_with_len 0 (slice_index_or (sizes before.now.layouts) row 0))))) }
{
    if is_unchanged(before, after, row) {
        return Ok(());
    }
    mark_elements(marks, before, after, row)
}

/// Whether there is a row that lies as before, by its shape and its mapping: then each node owns the same of its elements. It takes no memory.
pub fn is_unchanged(before: &Owners, after: &Owners, row: usize) -> bool
    ensures same { IsTrue result → owned_in before.now.layouts row ≡ owned_in after.now.layouts row }
    ensures all { (layout : Layout) → slice_get before.now.layouts row ≡ Some layout → slice_get after.now.layouts row ≡ Some layout → IsTrue result }
{
    if let Some(one) = before.table(row)
        && let Some(other) = after.table(row)
    {
        one.lies_as(other)
    } else {
        false
    }
}

/// Marks those of the elements of a row, by some of the elements: each has the same owners as one of them, before and after.
fn mark_elements(
    marks: &mut Vec<bool>,
    before: &Owners,
    after: &Owners,
    row: usize,
) -> Result<(), OutOfMemory>
    requires nodes { before.now.nodes ≡ after.now.nodes }
    requires sizes { sizes before.now.layouts ≡ sizes after.now.layouts }
    requires few { before.now.nodes ≤ 64 }
    requires long { length marks.old.items ≡ before.now.nodes * 64 }
    ensures { OnOk result (Marked before.now.nodes marks.old.items marks.new.items (any_moved before.now.nodes before.now.layouts after.now.layouts
        (map (λ at. record { row = row; at = at }) (range_with_len 0 (slice_index_or (sizes before.now.layouts) row 0))))) }
{
    let positions = before.samples(after, row)?;
    for at in &positions {
        let at = *at as usize;
        mark_element(marks, before, after, Spot { row, at });
    }
    Ok(())
}

/// Marks those of one element.
fn mark_element(marks: &mut Vec<bool>, before: &Owners, after: &Owners, spot: Spot)
    requires nodes { before.now.nodes ≡ after.now.nodes }
    requires sizes { sizes before.now.layouts ≡ sizes after.now.layouts }
    requires few { before.now.nodes ≤ 64 }
    requires long { length marks.old.items ≡ before.now.nodes * 64 }
    requires spot { spot.at < slice_index_or (sizes before.now.layouts) spot.row 0 }
    ensures { Marked before.now.nodes marks.old.items marks.new.items
        (λ from to. is_moved before.now.nodes before.now.layouts after.now.layouts from to (spot_of spot)) }
{
    let from = before.least_owner(spot);
    mark_targets(marks, before, from, after.owners(spot), spot);
}

/// Marks the pairs of a source and each target that doesn't own the element.
fn mark_targets(marks: &mut Vec<bool>, before: &Owners, from: u32, targets: &[u32], spot: Spot)
    requires few { before.now.nodes ≤ 64 }
    requires long { length marks.old.items ≡ before.now.nodes * 64 }
    requires from { from < before.now.nodes }
    requires targets { All (λ target. target < before.now.nodes) targets.now }
    requires spot { spot.at < slice_index_or (sizes before.now.layouts) spot.row 0 }
    ensures { Marked before.now.nodes marks.old.items marks.new.items (λ p q. nat_eq from p
        && (list_any (λ target. nat_eq target q) targets.now && not (owns_spot before.now.layouts q (spot_of spot)))) }
{
    for target in targets {
        mark_target(marks, before, from, *target, spot);
    }
}

/// Marks the pair of a source and a target, unless the target owns the element.
fn mark_target(marks: &mut Vec<bool>, before: &Owners, from: u32, to: u32, spot: Spot)
    requires few { before.now.nodes ≤ 64 }
    requires long { length marks.old.items ≡ before.now.nodes * 64 }
    requires from { from < before.now.nodes }
    requires to { to < before.now.nodes }
    requires spot { spot.at < slice_index_or (sizes before.now.layouts) spot.row 0 }
    ensures { Marked before.now.nodes marks.old.items marks.new.items (λ p q. nat_eq from p
        && (nat_eq to q && not (owns_spot before.now.layouts q (spot_of spot)))) }
{
    if !before.owns(to, spot) {
        mark(marks, from, to);
    }
}

/// Marks a pair.
fn mark(marks: &mut Vec<bool>, from: u32, to: u32)
    requires { from * 64 + to < length marks.old.items }
    ensures { marks.new.items ≡ slice_set marks.old.items (from * 64 + to) true }
{
    marks[from as usize * 64 + to as usize] = true;
}

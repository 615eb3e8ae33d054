//! The messages of a redistribution (HPF 2.0, 8.3).

ghost use Rattle.std.specs.Prelude.{◌≡◌, ◌<◌, ◌&&◌, IfOk, OnOk, filter, length, map, nat_eq, nat_lt, slice_index_or};
ghost use Rattle.std.specs.List.{range_with_len};
ghost use Rattle.storage.specs.Storage.{is_same_spot};
ghost use Rattle.machine_steps.specs.Layout.{AreOwned, sizes};
ghost use Rattle.machine_steps.specs.Message.{all_spots, remap_message};
ghost use Rattle.storage.specs.Spots.{spot_of};
ghost use Rattle.comm_sets.specs.Moves.{has_at, moves, node_of};
ghost use Rattle.covering_rounds.specs.Moved.{is_moved};
ghost use Rattle.comm_sets.specs.Noted.{Noted};

use crate::marks::is_unchanged;
use crate::messages::Messages;
use crate::sending::send;
use hpf_base::OutOfMemory;
use owner_tables::{Owners, Spot};
use std::alloc::Global;

/// One end of the messages, a node.
#[derive(Clone, Copy, PartialEq, Eq)]
pub(crate) enum End {
    Source(u32),
    Target(u32),
}

/// The messages from a node to each node, node 0 first, at a redistribution: of each the elements that the target owns after it
/// and not before, and whose least owner before is the source, row by row, each in array-element order. The rows are of the same
/// sizes before and after.
pub fn remap_outgoing(
    alloc: Global,
    before: &Owners,
    after: &Owners,
    from: u32,
) -> Result<Messages, OutOfMemory>
    requires nodes { before.now.nodes ≡ after.now.nodes }
    requires sizes { sizes before.now.layouts ≡ sizes after.now.layouts }
    requires from { from < before.now.nodes }
    ensures { IfOk result (λ messages. messages
        ≡ map (λ to. remap_message before.now.nodes before.now.layouts after.now.layouts from to) (range_with_len 0 before.now.nodes)) }
{
    moved(alloc, before, after, End::Source(from))
}

/// The messages to a node from each node, node 0 first, at a redistribution: as those of `remap_outgoing`.
pub fn remap_incoming(
    alloc: Global,
    before: &Owners,
    after: &Owners,
    to: u32,
) -> Result<Messages, OutOfMemory>
    requires nodes { before.now.nodes ≡ after.now.nodes }
    requires sizes { sizes before.now.layouts ≡ sizes after.now.layouts }
    requires to { to < before.now.nodes }
    ensures { IfOk result (λ messages. messages
        ≡ map (λ from. remap_message before.now.nodes before.now.layouts after.now.layouts from to) (range_with_len 0 before.now.nodes)) }
{
    moved(alloc, before, after, End::Target(to))
}

/// The messages between the end and each node, node 0 first.
fn moved(alloc: Global, before: &Owners, after: &Owners, end: End) -> Result<Messages, OutOfMemory>
    requires nodes { before.now.nodes ≡ after.now.nodes }
    requires sizes { sizes before.now.layouts ≡ sizes after.now.layouts }
    requires end { node_of end < before.now.nodes }
    ensures { IfOk result (λ messages. messages ≡ map (λ other. filter (moves before.now.nodes before.now.layouts after.now.layouts end other) (all_spots before.now.layouts)) (range_with_len 0 before.now.nodes)) }
{
    let mut messages = Messages::none(alloc, before.nodes())?;
    before.are_dealt();
    for row in 0..before.rows() {
        move_row(&mut messages, before, after, end, row)?;
    }
    messages.arrange();
    Ok(messages)
}

/// Notes the elements of a row that are sent from the end or to it.
fn move_row(
    messages: &mut Messages,
    before: &Owners,
    after: &Owners,
    end: End,
    row: usize,
) -> Result<(), OutOfMemory>
    requires owned { AreOwned before.now.nodes before.now.layouts }
    requires nodes { before.now.nodes ≡ after.now.nodes }
    requires lists { length messages.old ≡ before.now.nodes }
    requires sizes { sizes before.now.layouts ≡ sizes after.now.layouts }
    requires end { node_of end < before.now.nodes }
    ensures { OnOk result (Noted messages.old messages.new (λ other s. (nat_eq row s.row && nat_lt s.at (slice_index_or (sizes before.now.layouts) row 0))
        && moves before.now.nodes before.now.layouts after.now.layouts end other s)) }
{
    if is_unchanged(before, after, row) {
        return Ok(());
    }
    move_elements(messages, before, after, end, row)
}

/// Notes them, by going over the elements that the end has.
fn move_elements(
    messages: &mut Messages,
    before: &Owners,
    after: &Owners,
    end: End,
    row: usize,
) -> Result<(), OutOfMemory>
    requires owned { AreOwned before.now.nodes before.now.layouts }
    requires nodes { before.now.nodes ≡ after.now.nodes }
    requires lists { length messages.old ≡ before.now.nodes }
    requires sizes { sizes before.now.layouts ≡ sizes after.now.layouts }
    requires end { node_of end < before.now.nodes }
    ensures { OnOk result (Noted messages.old messages.new (λ other s. (nat_eq row s.row && nat_lt s.at (slice_index_or (sizes before.now.layouts) row 0))
        && moves before.now.nodes before.now.layouts after.now.layouts end other s)) }
{
    let positions = end_positions(before, after, end, row)?;
    for at in &positions {
        let at = *at as usize;
        move_spot(messages, before, after, end, Spot { row, at })?;
    }
    Ok(())
}

/// The positions of the elements of a row that a source owns before, or a target after.
fn end_positions(
    before: &Owners,
    after: &Owners,
    end: End,
    row: usize,
) -> Result<Vec<u32>, OutOfMemory>
    requires nodes { before.now.nodes ≡ after.now.nodes }
    requires sizes { sizes before.now.layouts ≡ sizes after.now.layouts }
    requires end { node_of end < before.now.nodes }
    ensures { IfOk result (λ ps. ps.items ≡ filter (has_at before.now.layouts after.now.layouts end row) (range_with_len 0 (slice_index_or (sizes before.now.layouts) row 0))) }
{
    match end {
        End::Source(from) => before.positions(from, row),
        End::Target(to) => after.positions(to, row),
    }
}

/// Notes the element, if it is sent from the end or to it.
fn move_spot(
    messages: &mut Messages,
    before: &Owners,
    after: &Owners,
    end: End,
    spot: Spot,
) -> Result<(), OutOfMemory>
    requires nodes { before.now.nodes ≡ after.now.nodes }
    requires lists { length messages.old ≡ before.now.nodes }
    requires sizes { sizes before.now.layouts ≡ sizes after.now.layouts }
    requires end { node_of end < before.now.nodes }
    requires spot { spot.at < slice_index_or (sizes before.now.layouts) spot.row 0 }
    ensures { OnOk result (Noted messages.old messages.new (λ other s. is_same_spot (spot_of spot) s
        && moves before.now.nodes before.now.layouts after.now.layouts end other s)) }
{
    match end {
        End::Source(from) => move_from(messages, before, after, from, spot),
        End::Target(to) => move_to(messages, before, after, to, spot),
    }
}

/// Notes the element for the nodes that own it after and not before, if its least owner before is the source.
fn move_from(
    messages: &mut Messages,
    before: &Owners,
    after: &Owners,
    from: u32,
    spot: Spot,
) -> Result<(), OutOfMemory>
    requires nodes { before.now.nodes ≡ after.now.nodes }
    requires lists { length messages.old ≡ before.now.nodes }
    requires sizes { sizes before.now.layouts ≡ sizes after.now.layouts }
    requires spot { spot.at < slice_index_or (sizes before.now.layouts) spot.row 0 }
    ensures { OnOk result (Noted messages.old messages.new (λ to s. is_same_spot (spot_of spot) s
        && is_moved before.now.nodes before.now.layouts after.now.layouts from to s)) }
{
    if before.least_owner(spot) == from {
        send(messages, before, after.owners(spot), spot)?;
    }
    Ok(())
}

/// Notes the element at its least owner before, if the target owns it after and not before.
fn move_to(
    messages: &mut Messages,
    before: &Owners,
    after: &Owners,
    to: u32,
    spot: Spot,
) -> Result<(), OutOfMemory>
    requires nodes { before.now.nodes ≡ after.now.nodes }
    requires lists { length messages.old ≡ before.now.nodes }
    requires sizes { sizes before.now.layouts ≡ sizes after.now.layouts }
    requires to { to < before.now.nodes }
    requires spot { spot.at < slice_index_or (sizes before.now.layouts) spot.row 0 }
    ensures { OnOk result (Noted messages.old messages.new (λ from s. is_same_spot (spot_of spot) s
        && is_moved before.now.nodes before.now.layouts after.now.layouts from to s)) }
{
    if after.owns(to, spot) && !before.owns(to, spot) {
        messages.add(before.least_owner(spot), spot)?;
    }
    Ok(())
}

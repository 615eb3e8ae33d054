//! The letters of a node in the phase of a part.

ghost use Rattle.std.specs.Prelude.{◌≡◌, ◌<◌, ◌++◌, ◌∷◌, [], All, IfOk, OnOk, if◌then◌else◌, map, true};
ghost use Rattle.machine_steps.specs.Layout.{owns_spot};
ghost use Rattle.machine_steps.specs.Message.{has_any, message};
ghost use Rattle.machine_steps.specs.Node.{local_read, parcel, part_sends};
ghost use Rattle.storage.specs.Spots.{spot_of};
ghost use Rattle.part_steps.specs.Exchanged.{IsExchange};
ghost use Rattle.part_steps.specs.Openings.{inbox_on, outbox_on};
ghost use Rattle.part_steps.specs.Parts.{part_of};
ghost use Rattle.part_steps.specs.Views.{part_view};

use crate::part::Part;
use comm_sets::{Exchange, Spot, exchange};
use hpf_base::OutOfMemory;
use letters::Parcel;
use owner_tables::{Row, local_values};
use std::alloc::Global;
use std::collections::VecDeque;

/// What a node exchanges in the phase of a part, and which tuples it computes.
pub fn exchange_of(alloc: Global, part: &Part<'_>, id: u32) -> Result<Exchange, OutOfMemory>
    requires { id < part.now.owners.now.nodes }
    ensures { IfOk result (IsExchange (part_view part.now) id) }
{
    exchange(alloc, part.owners, part, id)
}

/// What a node sends: to each node for which it has a message, ascending, the values of the message's elements, row by row, each in
/// array-element order.
pub fn outbox(
    alloc: Global,
    part: &Part<'_>,
    id: u32,
    pieces: &[Row],
    exchange: &Exchange,
) -> Result<VecDeque<Parcel>, OutOfMemory>
    requires id { id < part.now.owners.now.nodes }
    requires exchange { IsExchange (part_view part.now) id exchange.now }
    ensures parcels { IfOk result (λ o. o.items ≡ outbox_on part.now.owners.now.nodes part.now.owners.now.layouts (part_of (part_view part.now)) id pieces.now) }
    ensures targets { IfOk result (λ o. All (λ parcel. parcel.to < part.now.owners.now.nodes) o.items) }
{
    part.owners.are_dealt();
    let mut outbox = VecDeque::new(alloc);
    for target in 0..part.owners.nodes() {
        let spots = exchange.outgoing.with(target);
        push_parcel(alloc, part, id, pieces, target, spots, &mut outbox)?;
    }
    Ok(outbox)
}

/// The nodes that have a message for the node, ascending.
pub fn inbox(
    alloc: Global,
    part: &Part<'_>,
    id: u32,
    exchange: &Exchange,
) -> Result<VecDeque<u32>, OutOfMemory>
    requires id { id < part.now.owners.now.nodes }
    requires exchange { IsExchange (part_view part.now) id exchange.now }
    ensures sources { IfOk result (λ i. i.items ≡ inbox_on part.now.owners.now.nodes part.now.owners.now.layouts (part_of (part_view part.now)) id) }
    ensures below { IfOk result (λ i. All (λ source. source < part.now.owners.now.nodes) i.items) }
{
    let _ = id;
    let mut inbox = VecDeque::new(alloc);
    for source in 0..part.owners.nodes() {
        push_source(source, exchange.incoming.with(source), &mut inbox)?;
    }
    Ok(inbox)
}

/// Puts the values of a message, whose elements the node owns, after the others, if there are any.
fn push_parcel(
    alloc: Global,
    part: &Part<'_>,
    id: u32,
    pieces: &[Row],
    target: u32,
    spots: &[Spot],
    outbox: &mut VecDeque<Parcel>,
) -> Result<(), OutOfMemory>
    requires id { id < part.now.owners.now.nodes }
    requires owner { All (λ spot. owns_spot part.now.owners.now.layouts id (spot_of spot) ≡ true) spots.now }
    ensures { OnOk result (outbox.new.items ≡ outbox.old.items
        ++ (if has_any (map spot_of spots.now)
        then record { to = target; body = map (local_read part.now.owners.now.layouts id pieces.now) (map spot_of spots.now) } ∷ []
        else [])) }
{
    if !spots.is_empty() {
        let body = local_values(alloc, part.owners, id, pieces, spots)?;
        outbox.push_back(Parcel { to: target, body })?;
    }
    Ok(())
}

/// Puts a node after the others, if it has a message.
fn push_source(source: u32, spots: &[Spot], inbox: &mut VecDeque<u32>) -> Result<(), OutOfMemory>
    ensures { OnOk result (inbox.new.items ≡ inbox.old.items ++ (if has_any (map spot_of spots.now) then source ∷ [] else [])) }
{
    if !spots.is_empty() {
        inbox.push_back(source)?;
    }
    Ok(())
}

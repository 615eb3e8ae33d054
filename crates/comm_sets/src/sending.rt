//! What is sent by a node at a tuple, noted.

ghost use Rattle.std.specs.Prelude.{◌≡◌, ◌<◌, ◌&&◌, not, nat_eq, All, OnOk, length, map, option_map, slice_index_or};
ghost use Rattle.std.specs.List.{list_any};
ghost use Rattle.machine_steps.specs.Layout.{sizes, owns_spot};
ghost use Rattle.machine_steps.specs.Message.{names_spot};
ghost use Rattle.storage.specs.Storage.{is_same_spot};
ghost use Rattle.storage.specs.Spots.{spot_of};
ghost use Rattle.message_elements.specs.Elements.{is_named, is_sent};
ghost use Rattle.comm_sets.specs.Noted.{Noted};

use crate::messages::Messages;
use hpf_base::OutOfMemory;
use owner_tables::{Owners, Spot};

/// Notes what the source sends of the elements that are read at a tuple, by the nodes that compute it.
pub(crate) fn send_reads(
    messages: &mut Messages,
    owners: &Owners,
    from: u32,
    computing: &[u32],
    reads: &[Option<Spot>],
) -> Result<(), OutOfMemory>
    requires nodes { length messages.old ≡ owners.now.nodes }
    requires computing { All (λ node. node < owners.now.nodes) computing.now }
    ensures { OnOk result (Noted messages.old messages.new (λ to s. (list_any (λ node. nat_eq node to) computing.now && names_spot (map (option_map spot_of) reads.now) s)
        && is_sent owners.now.nodes owners.now.layouts from to s)) }
{
    for read in reads {
        send_read(messages, owners, from, computing, *read)?;
    }
    Ok(())
}

/// Notes one read, if its least owner is the source.
fn send_read(
    messages: &mut Messages,
    owners: &Owners,
    from: u32,
    computing: &[u32],
    read: Option<Spot>,
) -> Result<(), OutOfMemory>
    requires nodes { length messages.old ≡ owners.now.nodes }
    requires computing { All (λ node. node < owners.now.nodes) computing.now }
    ensures { OnOk result (Noted messages.old messages.new (λ to s. (list_any (λ node. nat_eq node to) computing.now && is_named (option_map spot_of read) s)
        && is_sent owners.now.nodes owners.now.layouts from to s)) }
{
    if let Some(spot) = read
        && owners.is_in_bounds(spot)
        && owners.least_owner(spot) == from
    {
        send(messages, owners, computing, spot)?;
    }
    Ok(())
}

/// Notes the element for the nodes that compute the tuple and don't own it.
pub(crate) fn send(
    messages: &mut Messages,
    owners: &Owners,
    computing: &[u32],
    spot: Spot,
) -> Result<(), OutOfMemory>
    requires nodes { length messages.old ≡ owners.now.nodes }
    requires computing { All (λ node. node < owners.now.nodes) computing.now }
    requires spot { spot.at < slice_index_or (sizes owners.now.layouts) spot.row 0 }
    ensures { OnOk result (Noted messages.old messages.new (λ to s. list_any (λ node. nat_eq node to) computing.now
        && (is_same_spot (spot_of spot) s && not (owns_spot owners.now.layouts to s)))) }
{
    for node in computing {
        send_to(messages, owners, *node, spot)?;
    }
    Ok(())
}

/// Notes the element for the node, unless it owns it.
fn send_to(
    messages: &mut Messages,
    owners: &Owners,
    node: u32,
    spot: Spot,
) -> Result<(), OutOfMemory>
    requires nodes { length messages.old ≡ owners.now.nodes }
    requires node { node < owners.now.nodes }
    requires spot { spot.at < slice_index_or (sizes owners.now.layouts) spot.row 0 }
    ensures { OnOk result (Noted messages.old messages.new (λ to s. nat_eq node to && (is_same_spot (spot_of spot) s && not (owns_spot owners.now.layouts to s)))) }
{
    if !owners.owns(node, spot) {
        messages.add(node, spot)?;
    }
    Ok(())
}

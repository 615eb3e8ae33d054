//! What a node takes at a tuple, noted.

ghost use Rattle.std.specs.Prelude.{◌≡◌, ◌<◌, ◌++◌, ◌&&◌, ◌∷◌, [], if◌then◌else◌, nat_eq, IfOk, OnOk, length, map, option_map};
ghost use Rattle.std.specs.List.{list_any};
ghost use Rattle.machine_steps.specs.Message.{names_spot};
ghost use Rattle.storage.specs.Spots.{spot_of};
ghost use Rattle.message_elements.specs.Elements.{is_named, is_sent};
ghost use Rattle.comm_sets.specs.Noted.{Noted};

use crate::messages::Messages;
use hpf_base::OutOfMemory;
use owner_tables::{Owners, Spot};

/// Notes what is read at the tuple, and the tuple's number, if the node computes it. A number past 2^32 - 1 is answered as want of memory.
pub(crate) fn receive_tuple(
    messages: &mut Messages,
    computed: &mut Vec<u32>,
    owners: &Owners,
    to: u32,
    computing: &[u32],
    tuple: usize,
    reads: &[Option<Spot>],
) -> Result<(), OutOfMemory>
    requires nodes { length messages.old ≡ owners.now.nodes }
    requires to { to < owners.now.nodes }
    ensures messages { OnOk result (Noted messages.old messages.new (λ from s. (list_any (λ node. nat_eq node to) computing.now && names_spot (map (option_map spot_of) reads.now) s)
        && is_sent owners.now.nodes owners.now.layouts from to s)) }
    ensures computed { OnOk result (computed.new.items ≡ computed.old.items ++ (if list_any (λ node. nat_eq node to) computing.now then tuple ∷ [] else [])) }
{
    if computing.contains(&to) {
        receive_reads(messages, owners, to, reads)?;
        computed.push(number_of(tuple)?)?;
    }
    Ok(())
}

/// The number of a tuple, if it is at most 2^32 - 1.
pub(crate) fn number_of(tuple: usize) -> Result<u32, OutOfMemory>
    ensures { IfOk result (λ number. number ≡ tuple) }
{
    if tuple <= u32::MAX as usize {
        Ok(tuple as u32)
    } else {
        Err(OutOfMemory)
    }
}

/// Notes what is read.
pub(crate) fn receive_reads(
    messages: &mut Messages,
    owners: &Owners,
    to: u32,
    reads: &[Option<Spot>],
) -> Result<(), OutOfMemory>
    requires nodes { length messages.old ≡ owners.now.nodes }
    requires to { to < owners.now.nodes }
    ensures { OnOk result (Noted messages.old messages.new (λ from s. names_spot (map (option_map spot_of) reads.now) s && is_sent owners.now.nodes owners.now.layouts from to s)) }
{
    for read in reads {
        receive_read(messages, owners, to, *read)?;
    }
    Ok(())
}

/// Notes one read at its least owner, unless the target owns it.
fn receive_read(
    messages: &mut Messages,
    owners: &Owners,
    to: u32,
    read: Option<Spot>,
) -> Result<(), OutOfMemory>
    requires nodes { length messages.old ≡ owners.now.nodes }
    requires to { to < owners.now.nodes }
    ensures { OnOk result (Noted messages.old messages.new (λ from s. is_named (option_map spot_of read) s && is_sent owners.now.nodes owners.now.layouts from to s)) }
{
    if let Some(spot) = read
        && owners.is_in_bounds(spot)
        && !owners.owns(to, spot)
    {
        messages.add(owners.least_owner(spot), spot)?;
    }
    Ok(())
}

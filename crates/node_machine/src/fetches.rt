//! Instructions that fetch an element.

ghost use Rattle.std.specs.Prelude.{◌≡◌, ◌<◌, ◌^◌, ◌==◌, ◌&&◌, ◌∷◌, ◌++◌, [], All, IfOk, OnOk, OnErr, filter, length, map, not, pos, slice_index_or, if◌then◌else◌};
ghost use Rattle.std.specs.List.{range_with_len};
ghost use Rattle.machine_steps.specs.Layout.{least_owner_of, owns_spot, sizes};
ghost use Rattle.machine_steps.specs.Machine.{set_slot};
ghost use Rattle.machine_steps.specs.Message.{fetch_part, message};
ghost use Rattle.machine_steps.specs.Node.{fetch_begun, fetch_done, gathered, held_or_received, local_read, no_values, parcel, part_opened, part_sends};
ghost use Rattle.storage.specs.Spots.{spot_of};
ghost use Rattle.node_machine.specs.Fetches.{fetch_sends};
ghost use Rattle.node_program.specs.Results.{spot_result};

use crate::node::Node;
use crate::post::Post;
use hpf_base::OutOfMemory;
use letters::{Body, Parcel};
use owner_tables::{Owners, Row, local_value};
use slot_values::{Fault, Spot};
use std::alloc::Global;
use std::collections::VecDeque;

impl Node {
    /// Opens the phase of a fetch of an element, or ends the run with the fault of its subscripts. For want of memory nothing changes.
    pub(crate) fn begin_fetch(&mut self, element: Result<Spot, Fault>) -> Result<(), OutOfMemory>
        ensures ok { OnOk result (self.new ≡ fetch_begun self.old.nodes (spot_result element) self.old) }
        ensures err { OnErr result (self.new ≡ self.old) }
    {
        match element {
            Ok(spot) => self.open_fetch(spot),
            Err(last) => {
                self.fail(last);
                Ok(())
            }
        }
    }

    /// Opens the phase in which the least owner of the element sends its value to all that don't own it.
    fn open_fetch(&mut self, spot: Spot) -> Result<(), OutOfMemory>
        ensures ok { OnOk result (self.new ≡ part_opened self.old.nodes (fetch_part (spot_of spot)) self.old) }
        ensures err { OnErr result (self.new ≡ self.old) }
    {
        let outbox = self.fetch_outbox(spot)?;
        let inbox = self.fetch_inbox(spot)?;
        let received = self.room()?;
        self.open(outbox, inbox, received);
        Ok(())
    }

    /// What the node sends: nothing of an element that isn't there.
    fn fetch_outbox(&self, spot: Spot) -> Result<VecDeque<Parcel>, OutOfMemory>
        ensures items { IfOk result (λ outbox. outbox.items ≡ map (parcel (λ q. map (local_read self.now.layouts self.now.id self.now.pieces)
            (message self.now.nodes self.now.layouts (fetch_part (spot_of spot)) self.now.id q)))
            (filter (part_sends self.now.nodes self.now.layouts (fetch_part (spot_of spot)) self.now.id) (range_with_len 0 self.now.nodes))) }
        ensures below { IfOk result (λ outbox. All (λ parcel. parcel.to < self.now.nodes) outbox.items) }
    {
        if !self.owners.is_in_bounds(spot) {
            return Ok(VecDeque::new(self.alloc));
        }
        let outbox = self.outbox_inside(spot)?;
        Ok(outbox)
    }

    /// What it sends of an element that is there.
    fn outbox_inside(&self, spot: Spot) -> Result<VecDeque<Parcel>, OutOfMemory>
        requires at { spot.at < slice_index_or (sizes self.now.layouts) spot.row 0 }
        ensures items { IfOk result (λ outbox. outbox.items ≡ map (parcel (λ q. local_read self.now.layouts self.now.id self.now.pieces (spot_of spot) ∷ []))
            (filter (fetch_sends self.now.nodes self.now.layouts (spot_of spot) self.now.id) (range_with_len 0 self.now.nodes))) }
        ensures below { IfOk result (λ outbox. All (λ parcel. parcel.to < self.now.nodes) outbox.items) }
    {
        fetch_outbox(self.alloc, &self.owners, self.id, &self.pieces, spot)
    }

    /// From whom the node takes.
    fn fetch_inbox(&self, spot: Spot) -> Result<VecDeque<u32>, OutOfMemory>
        ensures items { IfOk result (λ inbox. inbox.items ≡ filter (λ p. part_sends self.now.nodes self.now.layouts (fetch_part (spot_of spot)) p self.now.id) (range_with_len 0 self.now.nodes)) }
        ensures below { IfOk result (λ inbox. All (λ source. source < self.now.nodes) inbox.items) }
    {
        if !self.owners.is_in_bounds(spot) {
            return Ok(VecDeque::new(self.alloc));
        }
        let inbox = self.inbox_inside(spot)?;
        Ok(inbox)
    }

    /// From whom it takes an element that is there.
    fn inbox_inside(&self, spot: Spot) -> Result<VecDeque<u32>, OutOfMemory>
        requires at { spot.at < slice_index_or (sizes self.now.layouts) spot.row 0 }
        ensures items { IfOk result (λ inbox. inbox.items ≡ filter (λ p. fetch_sends self.now.nodes self.now.layouts (spot_of spot) p self.now.id) (range_with_len 0 self.now.nodes)) }
        ensures below { IfOk result (λ inbox. All (λ source. source < self.now.nodes) inbox.items) }
    {
        fetch_inbox(self.alloc, &self.owners, self.id, spot)
    }

    /// Room for a letter from each node.
    pub(crate) fn room(&self) -> Result<Vec<Body>, OutOfMemory>
        ensures items { IfOk result (λ bodies. bodies.items ≡ no_values self.now.nodes) }
        ensures len { IfOk result (λ bodies. length bodies.items ≡ self.now.nodes) }
    {
        no_values(self.alloc, self.owners.nodes())
    }

    /// After the phase of a fetch the slot gets the value of the element; with a fault the node is never there. It takes no memory.
    pub(crate) fn end_fetch(&mut self, element: Result<Spot, Fault>, slot: usize)
        requires in_code { self.old.control.at < 2 ^ 63 }
        ensures { self.new ≡ fetch_done self.old.nodes (spot_result element) slot self.old }
    {
        if let Ok(spot) = element {
            let value = self.fetched_value(spot);
            self.set_slot(slot, &value[0]);
            self.reset();
        }
    }

    /// The value of a fetched element: 0 of one that isn't there.
    fn fetched_value(&self, spot: Spot) -> [i64; 1]
        ensures { result ≡ gathered self.now.nodes (fetch_part (spot_of spot)) self.now (spot_of spot) ∷ [] }
    {
        if self.owners.is_in_bounds(spot) {
            fetched_value(&self.owners, self.id, &self.pieces, &self.post, spot)
        } else {
            [0]
        }
    }

    /// A slot gets a value, and the run goes on with the next instruction. It takes no memory.
    pub(crate) fn set_slot(&mut self, slot: usize, value: &i64)
        requires in_code { self.old.control.at < 2 ^ 63 }
        ensures { self.new ≡ record self.old { control = set_slot self.old.control slot value.now; substep = 0 } }
    {
        if slot < self.control.slots.len() {
            self.control.slots[slot] = *value;
        }
        self.control.at += 1;
        self.substep = 0;
    }
}

/// What a node sends: the value, if it is the least owner.
fn fetch_outbox(
    alloc: Global,
    owners: &Owners,
    id: u32,
    pieces: &[Row],
    spot: Spot,
) -> Result<VecDeque<Parcel>, OutOfMemory>
    requires one { id < owners.now.nodes }
    requires at { spot.at < slice_index_or (sizes owners.now.layouts) spot.row 0 }
    ensures items { IfOk result (λ outbox. outbox.items ≡ map (parcel (λ q. local_read owners.now.layouts id pieces.now (spot_of spot) ∷ []))
        (filter (fetch_sends owners.now.nodes owners.now.layouts (spot_of spot) id) (range_with_len 0 owners.now.nodes))) }
    ensures below { IfOk result (λ outbox. All (λ parcel. parcel.to < owners.now.nodes) outbox.items) }
{
    if owners.least_owner(spot) != id {
        return Ok(VecDeque::new(alloc));
    }
    let values = one_value(alloc, local_value(owners, id, pieces, spot))?;
    fetched_parcels(alloc, owners, spot, id, &values)
}

/// A list of one value.
fn one_value(alloc: Global, value: i64) -> Result<Vec<i64>, OutOfMemory>
    ensures { IfOk result (λ values. values.items ≡ value ∷ []) }
{
    Ok(vec![in alloc; value]?)
}

/// From whom a node takes: from the least owner, if it doesn't own the element.
fn fetch_inbox(
    alloc: Global,
    owners: &Owners,
    id: u32,
    spot: Spot,
) -> Result<VecDeque<u32>, OutOfMemory>
    requires one { id < owners.now.nodes }
    requires at { spot.at < slice_index_or (sizes owners.now.layouts) spot.row 0 }
    ensures items { IfOk result (λ inbox. inbox.items ≡ filter (λ p. fetch_sends owners.now.nodes owners.now.layouts (spot_of spot) p id) (range_with_len 0 owners.now.nodes)) }
    ensures below { IfOk result (λ inbox. All (λ source. source < owners.now.nodes) inbox.items) }
{
    let mut inbox = VecDeque::new(alloc);
    if owners.owns(id, spot) {
        return Ok(inbox);
    }
    inbox.push_back(owners.least_owner(spot))?;
    Ok(inbox)
}

/// The value of a fetched element: a node's own, or what it took.
fn fetched_value(owners: &Owners, id: u32, pieces: &[Row], post: &Post, spot: Spot) -> [i64; 1]
    requires one { id < owners.now.nodes }
    requires at { spot.at < slice_index_or (sizes owners.now.layouts) spot.row 0 }
    ensures { result ≡ held_or_received owners.now.nodes owners.now.layouts
        (λ p. message owners.now.nodes owners.now.layouts (fetch_part (spot_of spot)) p id) id pieces.now post.now.received (spot_of spot) ∷ [] }
{
    if owners.owns(id, spot) {
        return [local_value(owners, id, pieces, spot)];
    }
    first_of(post.received(owners.least_owner(spot)))
}

/// The first number; 0 where there is none.
fn first_of(numbers: &[i64]) -> [i64; 1]
    ensures { result ≡ slice_index_or numbers.now 0 (pos 0) ∷ [] }
{
    if numbers.is_empty() {
        [0]
    } else {
        [numbers[0]]
    }
}

/// Parcels with these values for the nodes that don't own the element, ascending.
fn fetched_parcels(
    alloc: Global,
    owners: &Owners,
    spot: Spot,
    id: u32,
    values: &[i64],
) -> Result<VecDeque<Parcel>, OutOfMemory>
    requires at { spot.at < slice_index_or (sizes owners.now.layouts) spot.row 0 }
    requires least { least_owner_of owners.now.nodes owners.now.layouts (spot_of spot) ≡ id }
    ensures items { IfOk result (λ outbox. outbox.items ≡ map (parcel (λ q. values.now)) (filter (fetch_sends owners.now.nodes owners.now.layouts (spot_of spot) id) (range_with_len 0 owners.now.nodes))) }
    ensures below { IfOk result (λ outbox. All (λ parcel. parcel.to < owners.now.nodes) outbox.items) }
{
    let mut outbox = VecDeque::new(alloc);
    for node in 0..owners.nodes() {
        add_parcel(alloc, &mut outbox, node, values, !owners.owns(node, spot))?;
    }
    Ok(outbox)
}

/// Puts a parcel with these values after the others, where it is to be sent.
fn add_parcel(
    alloc: Global,
    outbox: &mut VecDeque<Parcel>,
    to: u32,
    values: &[i64],
    sends: bool,
) -> Result<(), OutOfMemory>
    ensures { IfOk result (λ _. outbox.new.items ≡ outbox.old.items ++ (if sends then parcel (λ q. values.now) to ∷ [] else [])) }
{
    if sends {
        let body = Body::from(Vec::from_slice(alloc, values)?);
        outbox.push_back(Parcel { to, body })?;
    }
    Ok(())
}

/// No values from any of so many nodes.
pub(crate) fn no_values(alloc: Global, nodes: u32) -> Result<Vec<Body>, OutOfMemory>
    ensures items { IfOk result (λ bodies. bodies.items ≡ no_values nodes) }
    ensures len { IfOk result (λ bodies. length bodies.items ≡ nodes) }
{
    let mut bodies = Vec::new(alloc);
    for _ in 0..nodes {
        bodies.push(Body::new(alloc))?;
    }
    Ok(bodies)
}

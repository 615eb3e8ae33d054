//! The letters of a node in a round of a tree.

ghost use Rattle.std.specs.Prelude.{◌≡◌, ◌<◌, ◌*◌, All, filter, map, IfOk};
ghost use Rattle.std.specs.List.{range_with_len};
ghost use Rattle.machine_steps.specs.Node.{parcel};
ghost use Rattle.machine_steps.specs.Tree.{levels_of, tree_sends};

use crate::rounds::{source_of, target_of};
use crate::tree_values::copied;
use hpf_base::OutOfMemory;
use letters::{Body, Parcel};
use std::alloc::Global;
use std::collections::VecDeque;

/// What a node sends in a round: what it has, to one node at most.
pub fn outbox(
    alloc: Global,
    nodes: u32,
    round: u32,
    id: u32,
    own: &[i64],
) -> Result<VecDeque<Parcel>, OutOfMemory>
    requires going { round < 2 * levels_of nodes }
    requires inside { id < nodes }
    ensures parcels { IfOk result (λ o. o.items ≡ map (parcel (λ q. own.now)) (filter (tree_sends (levels_of nodes) round id) (range_with_len 0 nodes))) }
    ensures targets { IfOk result (λ o. All (λ parcel. parcel.to < nodes) o.items) }
{
    let mut outbox = VecDeque::new(alloc);
    if let Some(to) = target_of(nodes, round, id) {
        let body = Body::from(copied(alloc, own)?);
        outbox.push_back(Parcel { to, body })?;
    }
    Ok(outbox)
}

/// The nodes from which a node takes in a round, at most one.
pub fn inbox(alloc: Global, nodes: u32, round: u32, id: u32) -> Result<VecDeque<u32>, OutOfMemory>
    requires going { round < 2 * levels_of nodes }
    requires inside { id < nodes }
    ensures sources { IfOk result (λ i. i.items ≡ filter (λ p. tree_sends (levels_of nodes) round p id) (range_with_len 0 nodes)) }
    ensures below { IfOk result (λ i. All (λ source. source < nodes) i.items) }
{
    let mut inbox = VecDeque::new(alloc);
    if let Some(source) = source_of(nodes, round, id) {
        inbox.push_back(source)?;
    }
    Ok(inbox)
}

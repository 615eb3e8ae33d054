//! The letters of a node in a round of a scan.

ghost use Rattle.std.specs.Prelude.{◌≡◌, ◌<◌, [], All, filter, map, option_to_list, slice_index_or, IfOk, IfSome};
ghost use Rattle.std.specs.List.{range_with_len};
ghost use Rattle.machine_steps.specs.Node.{parcel, values_option};
ghost use Rattle.machine_steps.specs.Tree.{scan_sends};
ghost use Rattle.scan_steps.specs.Rounds.{came_in};

use hpf_base::{NodeId, OutOfMemory};
use letters::{Body, Parcel};
use prefix_scan::{ScanAct, scan_act};
use std::alloc::Global;
use std::collections::VecDeque;

/// What a node sends in a round, counted from 0: what it has, to one node at most.
pub fn outbox(
    alloc: Global,
    nodes: u32,
    round: u32,
    id: u32,
    own: &[i64],
) -> Result<VecDeque<Parcel>, OutOfMemory>
    ensures parcels { IfOk result (λ o. o.items ≡ map (parcel (λ q. own.now)) (filter (scan_sends round id) (range_with_len 0 nodes))) }
    ensures targets { IfOk result (λ o. All (λ parcel. parcel.to < nodes) o.items) }
{
    let mut outbox = VecDeque::new(alloc);
    if let Some(to) = target_of(nodes, round, id) {
        let body = Body::from(copied(alloc, own)?);
        outbox.push_back(Parcel { to, body })?;
    }
    Ok(outbox)
}

/// The nodes from which a node takes in a round, at most one.
pub fn inbox(alloc: Global, nodes: u32, round: u32, id: u32) -> Result<VecDeque<u32>, OutOfMemory>
    requires inside { id < nodes }
    ensures sources { IfOk result (λ i. i.items ≡ filter (λ p. scan_sends round p id) (range_with_len 0 nodes)) }
    ensures below { IfOk result (λ i. All (λ source. source < nodes) i.items) }
{
    let mut inbox = VecDeque::new(alloc);
    if let Some(source) = source_of(nodes, round, id) {
        inbox.push_back(source)?;
    }
    Ok(inbox)
}

/// What came to a node in a round, where something did; `received` is what it received from each node, by number.
pub fn came(nodes: u32, round: u32, id: u32, received: &[Body]) -> Option<i64>
    ensures { result ≡ came_in round id received.now }
{
    let ScanAct { send: _, take } = scan_act(nodes, round, NodeId(id));
    match take {
        Some(source) => first_from(received, source.0 as usize),
        None => None,
    }
}

/// The node to which a node sends in a round, if it sends.
fn target_of(nodes: u32, round: u32, id: u32) -> Option<u32>
    ensures value { option_to_list result ≡ filter (scan_sends round id) (range_with_len 0 nodes) }
    ensures below { IfSome result (λ target. target < nodes) }
{
    let ScanAct { send, take: _ } = scan_act(nodes, round, NodeId(id));
    match send {
        Some(target) => Some(target.0),
        None => None,
    }
}

/// The node from which it takes, if it takes.
fn source_of(nodes: u32, round: u32, id: u32) -> Option<u32>
    requires inside { id < nodes }
    ensures value { option_to_list result ≡ filter (λ p. scan_sends round p id) (range_with_len 0 nodes) }
    ensures below { IfSome result (λ source. source < nodes) }
{
    let ScanAct { send: _, take } = scan_act(nodes, round, NodeId(id));
    match take {
        Some(source) => Some(source.0),
        None => None,
    }
}

/// The first number that was received from a node, where there is one.
fn first_from(received: &[Body], node: usize) -> Option<i64>
    ensures { result ≡ values_option (slice_index_or received.now node []) }
{
    match received.get(node) {
        Some(body) => body.as_slice().first().copied(),
        None => None,
    }
}

/// A copy of the numbers.
fn copied(alloc: Global, numbers: &[i64]) -> Result<Vec<i64>, OutOfMemory>
    ensures { IfOk result (λ v. v.items ≡ numbers.now) }
{
    let mut v = Vec::new(alloc);
    v.extend_from_slice(numbers)?;
    Ok(v)
}

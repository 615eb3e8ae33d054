//! The run of nodes on threads.

ghost use Rattle.std.specs.Prelude.{◌≡◌, ◌*◌, ◌<◌, ◌^◌, ℕ, All, Some, length, map, slice_get, IfOk};
ghost use Rattle.machine_steps.specs.Node.{node_steps};
ghost use Rattle.code_meaning.specs.FaultValues.{fault_values};
ghost use Rattle.code_meaning.specs.ProgramText.{text_meaning};
ghost use Rattle.node_law.specs.Cores.{start};
ghost use Rattle.node_law.specs.Phases.{Lockstep};
ghost use Rattle.node_law.specs.Reached.{EndsInLockstep};
ghost use Rattle.stations.specs.Ended.{AreClosed};
ghost use Rattle.stations.specs.Lettered.{IsLettered};
ghost use Rattle.stations.specs.Stations.{HasEnded, fixed};

use crate::crews::step_each;
use crate::dealing::{crews_of, stations_of};
use crate::threads::run_crews;
use hpf_base::OutOfMemory;
use hpf_ports::Gate;
use pair_mailbox::Closed;
use sendable_nodes::Node;
use stations::{Station, all_ended, close_stations, open_stations};
use std::alloc::Global;
use std::sync::Wait;
use std::thread::Threads;

/// What is left of a run of nodes.
#[derive(Drop)]
pub struct Crewed {
    /// The nodes at their ends, by their numbers.
    pub nodes: Vec<Node>,
    /// The closed queues of all pairs: that from node p to node q is entry p * n + q of n nodes.
    pub closed: Vec<Closed>,
}

// The number of crews: as many as threads, where there are as many stations, and at least one.
fn crew_count(threads: u32, stations: usize) -> usize
    ensures { (0 < result) × (result < 2 ^ 32) }
{
    (threads as usize).min(stations).max(1)
}

// The stations once all have ended. Those of crews that came back before, which they do where a node was refused memory, the calling thread steps on alone. It
// fails where a node is refused memory here.
fn end_all<R: Wait, G: Gate>(
    rt: &R,
    gate: &G,
    mut stations: Vec<Station<Node>>,
) -> Result<Vec<Station<Node>>, OutOfMemory>
    ensures same { IfOk result (λ ended. map fixed ended.items ≡ map fixed stations.items) }
    ensures ended { IfOk result (λ ended. All (HasEnded (node_steps fault_values text_meaning)) ended.items) }
{
    for _ in rt.forever() {
        if all_ended(stations.as_slice()) {
            return Ok(stations);
        }
        step_each(rt, gate, &mut stations)?;
    }
    unreachable!()
}

/// Runs the nodes to their ends, on at most so many threads, of which the calling one is one. Each node passes the gate with each phase that it comes to,
/// before its first step in it. The nodes end as in their lockstep run, and on each queue exactly the letters of that run were sent, in
/// order, and all of them were taken: neither the threads nor the gate show in what comes out. It fails where memory was refused for the stations, the
/// crews and the queues, or to a node that the calling thread stepped alone, since one was refused memory before.
pub fn run_nodes<R: Threads + Wait + Sync, G: Gate>(
    rt: &R,
    alloc: Global,
    nodes: Vec<Node>,
    threads: u32,
    gate: &G,
) -> Result<Crewed, OutOfMemory>
    requires phased { Lockstep (node_steps fault_values text_meaning) (slice_get nodes.items) }
    requires few { length nodes.items < 2 ^ 32 }
    requires lettered { (p : ℕ) (a : _) → slice_get nodes.items p ≡ Some a → IsLettered (node_steps fault_values text_meaning) (length nodes.items) p a }
    ensures ends { IfOk result (λ c. EndsInLockstep (node_steps fault_values text_meaning) (start nodes.items) c.nodes.items) }
    ensures count { IfOk result (λ c. (length c.nodes.items ≡ length nodes.items) × (length c.closed.items ≡ length nodes.items * length nodes.items)) }
    ensures closed { IfOk result (λ c. AreClosed (node_steps fault_values text_meaning) nodes.items c.closed.items) }
{
    let stations = open_stations(rt, alloc, nodes)?;
    let count = crew_count(threads, stations.len());
    let (crews, last) = crews_of(alloc, stations, count)?;
    let crews = run_crews(rt, alloc, gate, crews, last)?;
    let stations = stations_of(alloc, crews)?;
    let stations = end_all(rt, gate, stations)?;
    let (nodes, closed) = close_stations(rt, alloc, stations)?;
    Ok(Crewed { nodes, closed })
}

//! To close stations that have all ended.

ghost use Rattle.std.specs.Prelude.{◌≡◌, ◌*◌, ◌↔◌, ℕ, List, All, IsTrue, length, map, slice_get, IfOk};
ghost use Rattle.node_law.specs.Cores.{start};
ghost use Rattle.node_law.specs.Phases.{Lockstep};
ghost use Rattle.node_law.specs.Reached.{EndsInLockstep};
ghost use Rattle.stations.specs.Ended.{AreClosed};
ghost use Rattle.stations.specs.Joined.{AreJoined};
ghost use Rattle.stations.specs.Stations.{fixed, HasEnded};

use crate::station::Station;
use all_pairs::{InRow, OutRow, close_pairs};
use hpf_base::OutOfMemory;
use letters::Letter;
use node_law::PhasedNode;
use pair_mailbox::Closed;
use std::alloc::Global;
use std::sync::Wait;

/// True exactly where each of the stations has ended.
pub fn all_ended<N: PhasedNode<Mail = Letter>>(stations: &[Station<N>]) -> bool
    ensures { IsTrue result ↔ All (HasEnded N.steps) stations.now }
{
    for station in stations {
        if !station.ended() {
            return false;
        }
    }
    true
}

/// The last nodes of stations that have all ended, and the closed queues of all pairs: the queue from node p to node q is entry
/// p * count + q, where count is the number of stations. Where they began as phased nodes, these are the last nodes of their lockstep
/// run, and on each queue exactly the letters of that run were sent, in order, and all of them were taken. It fails where a growth was
/// refused.
pub fn close_stations<R: Wait, N: PhasedNode<Mail = Letter>>(
    rt: &R,
    alloc: Global,
    stations: Vec<Station<N>>,
) -> Result<(Vec<N>, Vec<Closed>), OutOfMemory>
    requires ended { All (HasEnded N.steps) stations.items }
    requires joined { (from : List N) × AreJoined from (map fixed stations.items) }
    ensures count { IfOk result (λ r. (length r.0.items ≡ length stations.items) × (length r.1.items ≡ length stations.items * length stations.items)) }
    ensures ends { IfOk result (λ r. (from : List N) → AreJoined from (map fixed stations.items) → Lockstep N.steps (slice_get from)
        → EndsInLockstep N.steps (start from) r.0.items) }
    ensures closed { IfOk result (λ r. (from : List N) → AreJoined from (map fixed stations.items) → AreClosed N.steps from r.1.items) }
{
    let mut nodes = Vec::new(alloc);
    let mut outs = Vec::new(alloc);
    let mut ins = Vec::new(alloc);
    for station in stations {
        let (node, out, inn) = station.into_parts();
        nodes.push(node)?;
        outs.push(OutRow::new(out))?;
        ins.push(InRow::new(inn))?;
    }
    let closed = close_pairs(rt, alloc, outs, ins)?;
    Ok((nodes, closed))
}

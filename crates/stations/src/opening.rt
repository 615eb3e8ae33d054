//! To open the stations of all nodes of a run.

ghost use Rattle.std.specs.Prelude.{◌≡◌, ◌<◌, ◌^◌, ℕ, Some, length, map, slice_get, IfOk};
ghost use Rattle.stations.specs.Joined.{AreJoined};
ghost use Rattle.stations.specs.Lettered.{IsLettered};
ghost use Rattle.stations.specs.Stations.{fixed};

use crate::station::Station;
use all_pairs::open_pairs;
use hpf_base::OutOfMemory;
use letters::Letter;
use node_law::PhasedNode;
use std::alloc::Global;
use std::sync::Wait;

/// The stations of these nodes at their openings, by their numbers, over new queues between all ordered pairs of them. It fails where
/// a growth was refused.
pub fn open_stations<R: Wait, N: PhasedNode<Mail = Letter>>(
    rt: &R,
    alloc: Global,
    nodes: Vec<N>,
) -> Result<Vec<Station<N>>, OutOfMemory>
    requires few { length nodes.items < 2 ^ 32 }
    requires lettered { (p : ℕ) (a : N) → slice_get nodes.items p ≡ Some a → IsLettered N.steps (length nodes.items) p a }
    ensures { IfOk result (λ stations. AreJoined nodes.items (map fixed stations.items)) }
{
    let (outs, ins) = open_pairs(rt, alloc, nodes.len() as u32)?;
    let mut stations = Vec::new(alloc);
    let mut outs = outs.into_iter();
    let mut ins = ins.into_iter();
    let mut id = 0;
    for node in nodes {
        match outs.next() {
            None => unreachable!(),
            Some(out) => match ins.next() {
                None => unreachable!(),
                Some(inn) => stations.push(Station::new(
                    id,
                    node,
                    out.into_ends(),
                    inn.into_ends(),
                ))?,
            },
        }
        id += 1;
    }
    Ok(stations)
}

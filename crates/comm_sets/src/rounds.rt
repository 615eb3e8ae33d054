//! The rounds of a redistribution (HPF 2.0, 8.3).

ghost use Rattle.std.specs.Prelude.{◌≡◌, ◌<◌, ◌≤◌, ◌*◌, ◌++◌, ◌∷◌, [], IfOk, OnOk, filter, length, map};
ghost use Rattle.std.specs.List.{range_with_len};
ghost use Rattle.machine_steps.specs.Layout.{sizes};
ghost use Rattle.comm_sets.specs.Marks.{is_marked_pair};
ghost use Rattle.machine_steps.specs.Rounds.{all_pairs, pair_of, remap_rounds};

use crate::marks::{mark_rows, unmarked};
use hpf_base::{NodeId, OutOfMemory};
use owner_tables::Owners;
use redistribute_rounds::{Pair, Rounds, rounds};
use std::alloc::Global;

/// The rounds in which the messages of a redistribution go, each round the pairs of a source and a target: as few as can be. Who has a
/// message for whom is found by the places of each dimension. The rows are of the same sizes before and after.
pub fn remap_rounds(alloc: Global, before: &Owners, after: &Owners) -> Result<Rounds, OutOfMemory>
    requires nodes { before.now.nodes ≡ after.now.nodes }
    requires sizes { sizes before.now.layouts ≡ sizes after.now.layouts }
    ensures { IfOk result (λ rounds. map (λ v. v.items) rounds.list.items ≡ remap_rounds before.now.nodes before.now.layouts after.now.layouts) }
{
    let nodes = before.nodes();
    let mut marks = unmarked(alloc, nodes)?;
    mark_rows(&mut marks, before, after)?;
    let pairs = marked_pairs(alloc, nodes, &marks)?;
    rounds(alloc, nodes, &pairs)
}

/// The pairs of two nodes that are marked, by the source and then by the target.
fn marked_pairs(alloc: Global, nodes: u32, marks: &[bool]) -> Result<Vec<Pair>, OutOfMemory>
    requires few { nodes ≤ 64 }
    requires long { length marks.now ≡ nodes * 64 }
    ensures { IfOk result (λ pairs. pairs.items ≡ filter (is_marked_pair marks.now) (all_pairs nodes)) }
{
    let mut pairs = Vec::new(alloc);
    for from in 0..nodes {
        push_pairs(&mut pairs, nodes, marks, from)?;
    }
    Ok(pairs)
}

/// Puts those with this source after the others.
fn push_pairs(
    pairs: &mut Vec<Pair>,
    nodes: u32,
    marks: &[bool],
    from: u32,
) -> Result<(), OutOfMemory>
    requires few { nodes ≤ 64 }
    requires long { length marks.now ≡ nodes * 64 }
    requires from { from < nodes }
    ensures { OnOk result (pairs.new.items ≡ pairs.old.items ++ filter (is_marked_pair marks.now) (map (pair_of from) (range_with_len 0 nodes))) }
{
    for to in 0..nodes {
        push_pair(pairs, nodes, marks, from, to)?;
    }
    Ok(())
}

/// Puts the pair after the others, if it is marked.
fn push_pair(
    pairs: &mut Vec<Pair>,
    nodes: u32,
    marks: &[bool],
    from: u32,
    to: u32,
) -> Result<(), OutOfMemory>
    requires few { nodes ≤ 64 }
    requires long { length marks.now ≡ nodes * 64 }
    requires from { from < nodes }
    requires to { to < nodes }
    ensures { OnOk result (pairs.new.items ≡ pairs.old.items ++ filter (is_marked_pair marks.now) (pair_of from to ∷ [])) }
{
    let _nodes = nodes;
    if from != to && marks[from as usize * 64 + to as usize] {
        pairs.push(Pair {
            from: NodeId(from),
            to: NodeId(to),
        })?;
    }
    Ok(())
}

//! The rounds of the colours.

ghost use Rattle.std.specs.Prelude.{◌≡◌, ◌≢◌, ◌≤◌, ◌++◌, ◌∷◌, [], All, IfOk, MatchOption, OnOk, if◌then◌else◌, length, map};
ghost use Rattle.std.specs.List.{AllPairs};
ghost use Rattle.round_color.specs.Coloring.{degree};
ghost use Rattle.round_color.specs.Table.{ends};
ghost use Rattle.machine_steps.specs.Rounds.{color_of, color_round, color_rounds};
ghost use Rattle.redistribute_rounds.specs.Rounds.{AreLegal, IsBetween, IsBusiest};

use crate::round_list::Rounds;
use hpf_base::{NodeId, OutOfMemory};
use letters::Pair;
use round_color::{busiest_node, color, degree};
use std::alloc::Global;

/// The rounds of these pairs (HPF 2.0, REDISTRIBUTE), by the method of D. König (1916): one for each colour, in ascending
/// order of colours, and in it the pairs in the order in which they were given. There are as many as the busiest node
/// sends letters, or takes, and no rounds are fewer. The pairs are distinct, and each goes from a node to another, of 64 at
/// most. It fails only for want of memory.
pub fn rounds(alloc: Global, nodes: u32, pairs: &[Pair]) -> Result<Rounds, OutOfMemory>
    requires few { nodes ≤ 64 }
    requires between { All (IsBetween nodes) pairs.now }
    requires distinct { AllPairs (λ one other. one ≢ other) pairs.now }
    ensures value { IfOk result (λ rounds. map (λ v. v.items) rounds.list.items ≡ color_rounds nodes pairs.now) }
    ensures legal { IfOk result (λ rounds. AreLegal pairs.now (map (λ v. v.items) rounds.list.items)) }
    ensures fewest { IfOk result (λ rounds. length rounds.list.items ≡ degree nodes (map ends pairs.now)) }
    ensures busiest { IfOk result (λ rounds. MatchOption rounds.busiest (pairs.now ≡ []) (λ node. (pairs.now ≢ []) × IsBusiest nodes pairs.now node.0)) }
{
    let list = listed(alloc, nodes, pairs)?;
    let busiest = busiest(nodes, pairs);
    Ok(Rounds { list, busiest })
}

/// The pairs of each colour.
fn listed(alloc: Global, nodes: u32, pairs: &[Pair]) -> Result<Vec<Vec<Pair>>, OutOfMemory>
    requires few { nodes ≤ 64 }
    requires between { All (IsBetween nodes) pairs.now }
    requires distinct { AllPairs (λ one other. one ≢ other) pairs.now }
    ensures { IfOk result (λ list. map (λ v. v.items) list.items ≡ color_rounds nodes pairs.now) }
{
    let colors = color(alloc, nodes, pairs)?;
    by_color(alloc, nodes, pairs, colors.as_slice(), degree(nodes, pairs))
}

/// The pairs of each of so many colours, where these are the colours of the pairs.
fn by_color(
    alloc: Global,
    nodes: u32,
    pairs: &[Pair],
    colors: &[u32],
    count: u32,
) -> Result<Vec<Vec<Pair>>, OutOfMemory>
    requires colors { colors.now ≡ map (color_of nodes pairs.now) pairs.now }
    requires count { count ≡ degree nodes (map ends pairs.now) }
    ensures { IfOk result (λ list. map (λ v. v.items) list.items ≡ color_rounds nodes pairs.now) }
{
    let mut list = Vec::new(alloc);
    for number in 0..count {
        list.push(of_color(alloc, nodes, pairs, colors, number)?)?;
    }
    Ok(list)
}

/// The pairs of one colour.
fn of_color(
    alloc: Global,
    nodes: u32,
    pairs: &[Pair],
    colors: &[u32],
    number: u32,
) -> Result<Vec<Pair>, OutOfMemory>
    requires colors { colors.now ≡ map (color_of nodes pairs.now) pairs.now }
    ensures { IfOk result (λ round. round.items ≡ color_round nodes pairs.now number) }
{
    let mut round = Vec::new(alloc);
    for k in 0..pairs.len() {
        add_pair(&mut round, &pairs[k], colors[k] == number)?;
    }
    Ok(round)
}

/// Adds the pair to the round if it is one of this round.
fn add_pair(round: &mut Vec<Pair>, pair: &Pair, is_in: bool) -> Result<(), OutOfMemory>
    ensures { OnOk result (round.new.items ≡ round.old.items ++ (if is_in then pair.now ∷ [] else [])) }
{
    if is_in {
        round.push(*pair)?;
    }
    Ok(())
}

/// The least of the nodes that send most letters, or take most, whichever is more; none where there is no pair.
fn busiest(nodes: u32, pairs: &[Pair]) -> Option<NodeId>
    requires between { All (IsBetween nodes) pairs.now }
    requires distinct { AllPairs (λ one other. one ≢ other) pairs.now }
    ensures { MatchOption result (pairs.now ≡ []) (λ node. (pairs.now ≢ []) × IsBusiest nodes pairs.now node.0) }
{
    if pairs.len() == 0 {
        return None;
    }
    Some(NodeId(busiest_node(nodes, pairs)))
}

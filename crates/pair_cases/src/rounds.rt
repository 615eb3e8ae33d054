//! The rounds of pairs of nodes.

ghost use Rattle.std.specs.Prelude.{◌≡◌, ◌≢◌, ◌≤◌, All, IsTrue};
ghost use Rattle.std.specs.List.{AllPairs};
ghost use Rattle.hpf_base.specs.declared.limits.TheConstants.{MAX_NODES};
ghost use Rattle.redistribute_rounds.specs.Rounds.{IsBetween};

use crate::arrays::nodes_of;
use redistribute_rounds::{NodeId, Pair, Rounds, rounds};
use std::alloc::{AllocError, Global};
use std::fmt::Write;

/// Writes how many rounds these pairs take and the busiest node, and then each round; of all pairs only the first.
pub fn write_rounds(alloc: Global, out: &mut String, nodes: &str, asked: &str) -> Option<()> {
    let nodes = nodes_of(nodes)?;
    if asked == "all" {
        let found = rounds_of(alloc, nodes, &all_pairs(alloc, nodes)?)?;
        write_number(out, &found).ok()
    } else {
        let found = rounds_of(alloc, nodes, &pairs_of(alloc, asked)?)?;
        write_number(out, &found).ok()?;
        write_pairs(out, &found).ok()
    }
}

/// All pairs of two of so many nodes.
fn all_pairs(alloc: Global, nodes: u32) -> Option<Vec<Pair>> {
    let mut pairs = Vec::new(alloc);
    for from in 0..nodes {
        for to in 0..nodes {
            if from != to {
                pairs.push(pair_of(from, to)).ok()?;
            }
        }
    }
    Some(pairs)
}

/// The pairs that are written so: `0>1 2>0`.
fn pairs_of(alloc: Global, written: &str) -> Option<Vec<Pair>> {
    let mut pairs = Vec::new(alloc);
    if !written.is_empty() {
        for word in written.split(' ') {
            let (from, to) = word.split_once('>')?;
            let pair = pair_of(from.parse::<u32>().ok()?, to.parse::<u32>().ok()?);
            pairs.push(pair).ok()?;
        }
    }
    Some(pairs)
}

fn pair_of(from: u32, to: u32) -> Pair {
    Pair {
        from: NodeId(from),
        to: NodeId(to),
    }
}

/// Their rounds; None where they aren't pairs of two of so many nodes, each once, or for want of memory.
fn rounds_of(alloc: Global, nodes: u32, pairs: &[Pair]) -> Option<Rounds>
    requires { nodes ≤ MAX_NODES }
{
    if are_pairs(nodes, pairs) {
        rounds(alloc, nodes, pairs).ok()
    } else {
        None
    }
}

/// Whether they are pairs of two of so many nodes, each once.
fn are_pairs(nodes: u32, pairs: &[Pair]) -> bool
    ensures between { IsTrue result → All (IsBetween nodes) pairs.now }
    ensures distinct { IsTrue result → AllPairs (λ one other. one ≢ other) pairs.now }
{
    for place in 0..pairs.len() {
        if !is_between(nodes, &pairs[place]) || !is_none_of(&pairs[place], &pairs[..place]) {
            return false;
        }
    }
    true
}

/// Whether it is a pair of two of so many nodes.
fn is_between(nodes: u32, pair: &Pair) -> bool
    ensures { IsTrue result → IsBetween nodes pair.now }
{
    pair.from.0 < nodes && pair.to.0 < nodes && pair.from.0 != pair.to.0
}

/// Whether it is none of these.
fn is_none_of(pair: &Pair, others: &[Pair]) -> bool
    ensures { IsTrue result → All (λ other. other ≢ pair.now) others.now }
{
    for other in others {
        if *other == *pair {
            return false;
        }
    }
    true
}

/// Writes how many rounds there are, and the busiest node.
fn write_number(out: &mut String, found: &Rounds) -> Result<(), AllocError> {
    match found.busiest {
        Some(node) => writeln!(out, "  {} rounds, node {} the busiest", found.len(), node.0),
        None => writeln!(out, "  {} rounds", found.len()),
    }
}

/// Writes the pairs of each round.
fn write_pairs(out: &mut String, found: &Rounds) -> Result<(), AllocError> {
    for round in &found.list {
        out.push_str(" ")?;
        for pair in round {
            write!(out, " {}>{}", pair.from.0, pair.to.0)?;
        }
        out.push_str("\n")?;
    }
    Ok(())
}

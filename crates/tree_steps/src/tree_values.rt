//! What a node has after a round of a tree.

ghost use Rattle.std.specs.Prelude.{◌≡◌, ◌≤◌, [], slice_index_or, IfOk};
ghost use Rattle.hpf_base.specs.declared.limits.TheConstants.{MAX_NODES};
ghost use Rattle.machine_steps.specs.Tree.{levels_of};
ghost use Rattle.tree_steps.specs.Absorbed.{absorbed_values, joined_values, passed_down};

use crate::joining::Joining;
use crate::rounds::{levels_of, up_round};
use hpf_base::OutOfMemory;
use letters::Body;
use std::alloc::Global;

/// What the node with this number has after a round, counted from 0, where it had `own`, and `received` is what it received from each
/// node, by number: going up what it had joined with what came, if something came; going down what came, where it takes, else what it
/// had.
pub fn absorbed(
    alloc: Global,
    joining: Joining,
    nodes: u32,
    round: u32,
    id: u32,
    own: &[i64],
    received: &[Body],
) -> Result<Vec<i64>, OutOfMemory>
    requires few { nodes ≤ MAX_NODES }
    ensures { IfOk result (λ v. v.items ≡ absorbed_values (joined_values joining) (levels_of nodes) round id own.now received.now) }
{
    let levels = levels_of(nodes);
    if round < levels {
        let came = values_from(received, id as usize + 2usize.pow(round));
        joining.joined(alloc, own, came)
    } else {
        copied(alloc, taken(up_round(levels, round), id, own, received))
    }
}

/// What a node has after the round down that undoes a round up.
fn taken<'a>(up: u32, id: u32, own: &'a [i64], received: &'a [Body]) -> &'a [i64]
    requires { up ≤ 5 }
    ensures { result.now ≡ passed_down up id own.now received.now }
{
    let width = 2usize.pow(up);
    let number = id as usize;
    if number % (width * 2) == width {
        values_from(received, number - width)
    } else {
        own
    }
}

/// What was received from a node, or nothing.
fn values_from(received: &[Body], node: usize) -> &[i64]
    ensures { result.now ≡ slice_index_or received.now node [] }
{
    match received.get(node) {
        Some(body) => body.as_slice(),
        None => &[],
    }
}

/// A copy of the numbers.
pub(crate) fn copied(alloc: Global, numbers: &[i64]) -> Result<Vec<i64>, OutOfMemory>
    ensures { IfOk result (λ v. v.items ≡ numbers.now) }
{
    let mut v = Vec::new(alloc);
    v.extend_from_slice(numbers)?;
    Ok(v)
}

//! Who sends to whom in a round of a tree.

ghost use Rattle.std.specs.Prelude.{◌≡◌, ◌≤◌, ◌<◌, ◌*◌, filter, option_to_list, IfSome};
ghost use Rattle.std.specs.List.{range_with_len};
ghost use Rattle.hpf_base.specs.declared.limits.TheConstants.{MAX_NODES};
ghost use Rattle.machine_steps.specs.Tree.{levels_of, tree_sends};
ghost use Rattle.tree_steps.specs.Rounds.{up_round};

use hpf_base::NodeId;
use reduction_tree::{TreeAct, levels, tree_act};

/// The number of rounds up of a tree: the least r for which 2^r is at least the number of nodes. As many rounds go down.
pub fn levels_of(nodes: u32) -> u32
    requires few { nodes ≤ MAX_NODES }
    ensures value { result ≡ levels_of nodes }
    ensures low { result ≤ 6 }
{
    levels(nodes)
}

/// The node to which a node sends in a round, counted from 0, if it sends.
pub fn target_of(nodes: u32, round: u32, id: u32) -> Option<u32>
    requires going { round < 2 * levels_of nodes }
    requires inside { id < nodes }
    ensures value { option_to_list result ≡ filter (tree_sends (levels_of nodes) round id) (range_with_len 0 nodes) }
    ensures below { IfSome result (λ target. target < nodes) }
{
    match tree_act(nodes, round, NodeId(id)) {
        TreeAct::Send(target) => Some(target.0),
        TreeAct::Idle | TreeAct::Take(_) => None,
    }
}

/// The node from which a node takes in a round, counted from 0, if it takes.
pub fn source_of(nodes: u32, round: u32, id: u32) -> Option<u32>
    requires going { round < 2 * levels_of nodes }
    requires inside { id < nodes }
    ensures value { option_to_list result ≡ filter (λ p. tree_sends (levels_of nodes) round p id) (range_with_len 0 nodes) }
    ensures below { IfSome result (λ source. source < nodes) }
{
    match tree_act(nodes, round, NodeId(id)) {
        TreeAct::Take(source) => Some(source.0),
        TreeAct::Idle | TreeAct::Send(_) => None,
    }
}

/// The round up that a round down undoes; the first one, where the tree is over.
pub(crate) fn up_round(levels: u32, round: u32) -> u32
    requires few { levels ≤ 6 }
    requires down { levels ≤ round }
    ensures value { result ≡ up_round levels round }
    ensures low { result ≤ 5 }
{
    (2 * levels).saturating_sub(1).saturating_sub(round)
}

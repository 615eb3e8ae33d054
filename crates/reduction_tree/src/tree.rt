//! What a node does in a round of the tree.

ghost use Rattle.std.specs.Prelude.{◌≡◌, ◌≤◌, ◌<◌};
ghost use Rattle.reduction_tree.specs.Tree.{levels, up_act, exchanged, act_of};

use hpf_base::NodeId;

/// What a node does in a round of the tree.
#[derive(Clone, Copy, PartialEq, Eq)]
pub enum TreeAct {
    /// Nothing.
    Idle,
    /// It sends what it has to this node.
    Send(NodeId),
    /// It takes what this node has.
    Take(NodeId),
}

/// What the node does in the round, counted from 0. For N nodes there are R = ceil(log2 N) rounds up and then R rounds
/// down; in a later round every node is idle. In up round r a node whose number is 2^r more than a multiple of 2^(r+1)
/// sends to its number less 2^r, and a node whose number is such a multiple takes from its number plus 2^r, where that
/// is a node. Down round R+i is up round R-1-i with sends and takes exchanged. It takes no memory.
pub fn tree_act(nodes: u32, round: u32, node: NodeId) -> TreeAct
    ensures { result ≡ act_of nodes round node.0 }
{
    let levels = levels(nodes);
    if round < levels {
        up_act(nodes, round, node)
    } else if round < 2 * levels {
        exchanged(up_act(nodes, 2 * levels - 1 - round, node))
    } else {
        TreeAct::Idle
    }
}

/// The number of rounds up of a tree over so many nodes: the least r for which 2^r is at least that number. As many rounds go down.
pub fn levels(nodes: u32) -> u32
    ensures value { result ≡ levels nodes }
    ensures few { result ≤ 32 }
{
    for level in 0..32u32 {
        if nodes as u64 <= 2u64.pow(level) {
            return level;
        }
    }
    32
}

/// What the node does in this round up.
fn up_act(nodes: u32, round: u32, node: NodeId) -> TreeAct
    requires { round < 32 }
    ensures { result ≡ up_act nodes round node.0 }
{
    let width = 2u64.pow(round);
    let number = node.0 as u64;
    let rest = number % (width * 2);
    if rest == width {
        TreeAct::Send(NodeId((number - width) as u32))
    } else if rest == 0 && number + width < nodes as u64 {
        TreeAct::Take(NodeId((number + width) as u32))
    } else {
        TreeAct::Idle
    }
}

/// The act with send and take exchanged.
fn exchanged(act: TreeAct) -> TreeAct
    ensures { result ≡ exchanged act }
{
    match act {
        TreeAct::Idle => TreeAct::Idle,
        TreeAct::Send(node) => TreeAct::Take(node),
        TreeAct::Take(node) => TreeAct::Send(node),
    }
}

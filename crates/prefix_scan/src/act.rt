//! What a node does in a round of a prefix scan.

ghost use Rattle.std.specs.Prelude.{◌≡◌};
ghost use Rattle.prefix_scan.specs.Scan.{send_of, take_of};

use hpf_base::NodeId;

/// What a node does in a round of a prefix scan. It sends what it has before the round.
pub struct ScanAct {
    /// It sends what it has to this node.
    pub send: Option<NodeId>,
    /// It takes what this node has, and joins it before its own.
    pub take: Option<NodeId>,
}

/// What the node does in the round, counted from 0. In round r node p sends to node p + 2^r where that is a node, and takes from node p - 2^r
/// where p is at least 2^r. It takes no memory.
pub fn scan_act(nodes: u32, round: u32, node: NodeId) -> ScanAct
    ensures send { result.send ≡ send_of nodes round node.0 }
    ensures take { result.take ≡ take_of round node.0 }
{
    if round < 32 {
        let width = 2u64.pow(round);
        let number = node.0 as u64;
        ScanAct {
            send: if number + width < nodes as u64 {
                Some(NodeId((number + width) as u32))
            } else {
                None
            },
            take: if number < width {
                None
            } else {
                Some(NodeId((number - width) as u32))
            },
        }
    } else {
        ScanAct {
            send: None,
            take: None,
        }
    }
}

//! What a node does next.

use hpf_base::NodeId;

/// The next atomic step of a node.
#[derive(Clone, Copy, PartialEq, Eq)]
pub enum Act {
    /// A step within the node. It alone may want memory.
    Local,
    /// A send of a letter to this node.
    Send(NodeId),
    /// A take of the front letter from this node.
    Take(NodeId),
    /// The node has ended.
    Done,
}

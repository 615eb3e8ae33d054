//! Whose letters a queue holds.

use hpf_base::NodeId;

/// A run, and an ordered pair of nodes.
#[derive(Clone, Copy, PartialEq, Eq)]
pub struct Route {
    /// The run.
    pub run: u64,
    /// The source.
    pub from: NodeId,
    /// The target.
    pub to: NodeId,
}

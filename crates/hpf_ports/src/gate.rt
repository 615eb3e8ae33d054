//! Gates: where nodes on threads can be held for a test.

/// Passed by a node before its first step in each phase. No result depends on a gate.
pub trait Gate: Sync {
    /// Returns where the node may go on.
    fn pass(&self, node: u32, phase: u64);
}

/// The gate that lets every node pass at once.
#[derive(Clone, Copy, Debug, PartialEq, Eq)]
pub struct OpenGate;

impl Gate for OpenGate {
    fn pass(&self, _node: u32, _phase: u64) {}
}

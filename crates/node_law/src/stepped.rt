//! What became of a step.

/// The answer of one atomic step of a node.
#[derive(Clone, Copy, Debug, PartialEq, Eq)]
pub enum Stepped {
    /// The node made its move.
    Moved,
    /// The node is to send to a full queue, or to take from an empty one. Nothing changed.
    NotReady,
    /// The node has ended. Nothing changed.
    Ended,
}

//! What a run on nodes leaves.

use node_program::NodeProgram;
use pair_mailbox::Closed;
use std::sync::Arc;

/// The node code that ran, and the closed queue of each ordered pair of nodes, by the number of the source and then of the target: that from p to
/// q stands at the place p * n + q of so many nodes. A node's queue to itself is among them, and no letter was sent on it.
#[derive(Drop)]
pub struct Ran {
    pub code: Arc<NodeProgram>,
    pub closed: Vec<Closed>,
}

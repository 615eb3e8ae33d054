//! What a node exchanges in the phase of a part, as a value.

use crate::messages::Messages;
use tuple_numbers::Tuples;

/// What a node exchanges in the phase of a part, and which tuples it computes. Contracts see it by `AreExchanged`.
#[derive(Drop)]
pub struct Exchange {
    /// The messages from the node to each node, node 0 first.
    pub outgoing: Messages,
    /// The messages to the node from each node, node 0 first.
    pub incoming: Messages,
    /// The numbers of the tuples that the node computes, from 0, ascending.
    pub computed: Tuples,
}

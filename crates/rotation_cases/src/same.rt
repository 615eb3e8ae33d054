//! Whether nodes have come to the same.

use crate::scarce::Scarce;
use hpf_base::MAX_NODES;
use node_machine::Node;
use slot_values::Status;

/// Whether each of these nodes has printed, holds and sent what the other of its number has.
pub fn are_same(nodes: &[Node], others: &[Scarce<Node>]) -> bool {
    if nodes.len() != others.len() {
        return false;
    }
    for (node, other) in nodes.iter().zip(others) {
        if !is_same(node, &other.node) {
            return false;
        }
    }
    true
}

/// Whether a node is finished as the other is, has the same slots, has printed the same bytes, holds the same and sent as many letters to each node.
fn is_same(node: &Node, other: &Node) -> bool {
    matches!(node.status(), Status::Finished) == matches!(other.status(), Status::Finished)
        && node.slots() == other.slots()
        && node.printed() == other.printed()
        && have_same_pieces(node, other)
        && have_sent_as_many(node, other)
}

fn have_same_pieces(node: &Node, other: &Node) -> bool {
    for row in 0..node.owners().rows() {
        if node.piece(row) != other.piece(row) {
            return false;
        }
    }
    true
}

fn have_sent_as_many(node: &Node, other: &Node) -> bool {
    for to in 0..MAX_NODES {
        if node.next_number(to) != other.next_number(to) {
            return false;
        }
    }
    true
}

//! The queues between all ordered pairs of so many nodes.
//!
//! Comes in: a number of nodes. Goes out: their ends, a row for each node, and at the end the closed queues of all pairs.
//! Rows go by the number of a node, and the ends in a row by the number of the other node. A node's queue to itself is
//! among them, so an end's place is that number. What holds in between: the end of the source in row p at q and the end of
//! the target in row q at p are of one queue, and no step of an end changes of which queue it is. That is all that closing
//! asks for. A call fails where memory for a queue, a row or the list of the closed queues was refused, and then all
//! ends that it has are dropped.
//!
//! *Proved:* The queues between all ordered pairs of nodes are opened as rows of ends, one queue a pair, and closed
//! again, each end with its other; what was taken on a queue is a front of what was sent: `open_pairs`, `close_pairs`.
#![tactic(auto)]

mod closing;
mod columns;
mod opening;
mod rows;

pub use closing::close_pairs;
pub use opening::open_pairs;
pub use rows::{InRow, OutRow};

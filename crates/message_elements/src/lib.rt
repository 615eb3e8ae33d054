//! The elements of a message, as they are gathered, and the tuples at which a node exchanges something.
//!
//! Comes in: elements of rows, one after the other. Goes out: the same elements, each once, row by row and each row in array-element order, as a message
//! has them. What holds in between: repetitions are dropped before a list grows, so that its memory goes with its elements, however often they are
//! added. `Candidates` are the tuples of a part that concern one node: those that it computes, and candidates among the iterations, which alone are
//! asked for what it takes and sends.
//!
//! *Proved:* A list of elements that are added one after the other, however often, has just these, each once, row by
//! row, each in array-element order: `note`, `arrange_list`.
#![tactic(auto)]

mod candidates;
mod gathering;

pub use candidates::Candidates;
pub use gathering::{arrange_list, note};
pub use hpf_base::OutOfMemory;
pub use storage::Spot;

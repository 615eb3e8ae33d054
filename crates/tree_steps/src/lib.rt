//! What a node does in the rounds of a tree.
//!
//! Comes in: the number of nodes, a round and a node's number; what the node has, and what it received from each node. Goes out: to whom
//! the node sends in the round and from whom it takes, and what it has after the round; kept faults, values that may be missing, and values
//! with their positions, as the numbers that go round; and at the end the value of a reduction, or the last value.
//!
//! What holds in between: a node sends to one node at most in a round, and takes from one at most; what goes round is a list of numbers,
//! and how two are joined is told by a `Joining` alone; nothing is changed, so want of memory leaves a node as it was.
//!
//! *Proved:* What a node sends, takes and has after each round of the tree of a verdict, of a reduction or a folded
//! copy, or of a last value, and the fault or value that comes of it: `outbox`, `inbox`, `law_of_absorbed`,
//! `kept_numbers`, `kept_of_numbers`, `reduced`, `positioned_numbers`, `last_value`.
#![tactic(auto)]

mod joining;
mod kept_faults;
mod openings;
mod optional_values;
mod positioned_values;
mod promises;
mod rounds;
mod tree_values;

pub use hpf_base::OutOfMemory;
pub use joining::Joining;
pub use kept_faults::{kept_numbers, kept_of_numbers};
pub use letters::Parcel;
pub use openings::{inbox, outbox};
pub use optional_values::{option_numbers, options_joined, reduced};
pub use positioned_values::{Positioned, last_value, positioned_numbers};
pub use promises::law_of_absorbed;
pub use rounds::{levels_of, source_of, target_of};
pub use slot_values::Kept;
pub use tree_values::absorbed;

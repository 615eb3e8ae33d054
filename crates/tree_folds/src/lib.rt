//! What nodes join in the rounds of a tree, as the folds of `reduction_tree`.
//!
//! Comes in: nothing. Goes out: laws, each the contract of a function that does nothing, and folds of items that may be missing and of truths,
//! which only these laws name.
//!
//! What holds in between: the lists of numbers that go round (`tree_steps`) are joined as the items that they stand for are joined by a fold.
//! So what `reduction_tree` says of folds is said of what runs: nodes that join what they receive have in each round what its trees have; after
//! the rounds up node 0 has the plain fold of the items of all nodes, and after the rounds down every node has it.
//!
//! - Numbers: each join of `op_tables` is the fold of that name, over numbers of which some are missing. A node whose elements have no number
//!   changes nothing.
//! - Kept faults: of two the one that is first by tuple and then by part. The faults' own numbers, by which `LeastFault` would go on, are never
//!   asked.
//! - Values with positions: of two the one at the later position. The values, by which `LastValue` would go on, are never asked.
//!
//! *Proved:* By laws alone: what nodes join in the rounds of a tree are the folds of `reduction_tree`. For each join,
//! numbers of which some are missing; kept faults, by tuple and part, where each of these has one fault; values with
//! positions, where each position has one value. So after the rounds up node 0 has the plain fold of the items of all
//! nodes, and after the rounds down every node has it: `law_of_number_trees`, `law_of_fault_trees`,
//! `law_of_position_trees`, `law_of_passing`.
#![tactic(auto)]

mod optional;
mod promises;
mod truths;

pub use optional::Optional;
pub use promises::{
    law_of_fault_trees, law_of_faults, law_of_number_trees, law_of_numbers, law_of_passing,
    law_of_position_trees, law_of_positions, law_of_truths,
};
pub use truths::{AllTruths, AnyTruth};

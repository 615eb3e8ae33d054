//! Trees of rounds that join one item of each node, and the folds whose items they join.
//!
//! Comes in: a number of nodes, a round and a node; or a fold and the items of all nodes. Goes out: what the node does in
//! that round, and the items joined from the left. What holds in between: the nodes pass rounds up to node 0 and down
//! again, and in each round one node sends exactly where another takes from it. Whatever is joined, as long as the
//! join is associative with a unit, node 0 has the items of all nodes in their order after the rounds up, and every node
//! has them after the rounds down.
//!
//! *Proved:* The rounds of a tree send and take in pairs, and leave every node with all items joined in the order of
//! the nodes: `tree_act`, `levels`, `law_of_acts`, `law_of_trees`. The plain fold, and the joins of nine kinds of items
//! with their laws: `fold_tree`, `Fold`.
#![tactic(auto)]

mod fold;
mod kept_fault;
mod numbers;
mod placed;
mod promises;
mod tree;

pub use fold::{Fold, fold_tree};
pub use hpf_base::NodeId;
pub use kept_fault::{KeptFault, LeastFault};
pub use numbers::{BitAnd, BitOr, BitXor, Greatest, Least, Product, Sum};
pub use placed::{LastValue, Placed};
pub use promises::{law_of_acts, law_of_owners, law_of_trees};
pub use tree::{TreeAct, levels, tree_act};

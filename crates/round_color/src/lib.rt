//! Colours of the edges between nodes, as few as any colouring has.
//!
//! Comes in: the number of nodes, and edges, which are ordered pairs of nodes. Goes out: a colour for each edge, a number
//! from 0; how many colours are needed; and the node that needs them. What holds in between: no two edges of one colour
//! share a source or a target, and each colour is below the greatest number of edges from one node or to one node, by the
//! method of D. König (1916).
//!
//! *Proved:* The edges between 64 nodes at most, which are ordered pairs of nodes, get colours: two edges of one colour
//! share neither source nor target, and each colour is below the greatest number of edges from one node or to one node:
//! `color`. That number, and the least node that has it: `degree`, `busiest_node`. No colouring has fewer colours:
//! `law_of_fewest`. Two colours that are exchanged along a path leave no edges of one colour at one end, and free the
//! first of them where the path begins: `law_of_exchange`. Just the given edges have colours: `law_of_coloring`.
#![tactic(auto)]

mod coloring;
mod free_colors;
mod loads;
mod promises;
mod table;

pub use coloring::color;
pub use hpf_base::{NodeId, OutOfMemory};
pub use letters::Pair;
pub use loads::{busiest_node, degree};
pub use promises::{law_of_coloring, law_of_exchange, law_of_fewest, law_of_rows};

//! One node of a distributed run.
//!
//! Comes in: the node code that all nodes run, the tables of who owns what, and the values at the start. Goes out: `Node`, whose steps are
//! those of the definitions: a local step, or a letter that is sent or taken.
//!
//! What holds in between: a step prepares all that may want memory before it changes anything, so that a node that answers want of memory is
//! as before; the letters of a phase stand in `Post`; every array access goes by the tables of owners.
//!
//! *Proved:* A node in code makes the steps of the definitions, with letters, and begins as they say: `Node` as a
//! `PhasedNode`, `Node::opening`. Its program has to fit the rows, as compiled programs do (`FitsRows`): copies have 7
//! dimensions at most and rows after the declared names, and new mappings the shapes of the arrays' rows.
#![tactic(auto)]

mod copies;
mod elements;
mod exchanges;
mod fetches;
mod folds;
mod last_values;
mod local_steps;
mod looks;
mod node;
mod opening;
mod parts;
mod phases;
mod pieces;
mod post;
mod prints;
mod reductions;
mod remaps;
mod scans;
mod sections;
mod stage;
mod step;
mod steps;
mod stores;
mod trees;

pub use node::Node;

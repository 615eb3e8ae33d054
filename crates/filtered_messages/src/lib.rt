//! What one node sends another for a statement and at a redistribution, as a filter of all elements by the definitions: plain, and slow.
//!
//! Comes in: arrays with their mappings, the extents of a space, and what is assigned and read at its tuples, by the courses of its subscripts; or arrays with
//! their mappings before a redistribution and after it. Goes out: of each pair of nodes the elements that the taker doesn't own, and needs or owns after it, and
//! whose least owner is the sender.
//!
//! What holds in between: who owns an element is told from the numbers of a mapping alone (HPF 2.0, DISTRIBUTE and ALIGN), without a table and without a
//! call that tells it for nodes, so that what these find can be compared with it. A node is a bit of a number of 64 bits. No contract says what is found.
#![tactic(auto)]

mod elements;
mod numbering;
mod ownership;
mod statement;

pub use elements::{Element, elements_of, moved_elements, sent};
pub use statement::Named;

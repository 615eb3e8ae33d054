//! What a parallel statement of node code does at each tuple.
//!
//! Comes in: an instruction that works at the tuples of a space, the dimensions of the arrays, and the slots. Goes out: how many tuples
//! there are and, for each tuple, the elements that are read, the element that is assigned, and the value or fault by the values of what
//! is read. Where each subscript goes along one axis of the space, or the first goes round its dimension, what is named comes out once for
//! all tuples too, by courses (`references`).
//!
//! What holds in between: all of it is what node_code's definitions say of the instruction, whatever the elements are: they are asked for
//! one by one (`Elements`), and only where the definitions' evaluation comes to them. A tuple of at most seven entries needs no memory of its
//! own, nor do these and the copies that it reads where they are sixteen at most, and nothing is kept of the tuples.
//!
//! *Proved:* What a parallel statement of node code reads, assigns and comes to at each tuple: `ParallelStatement`.
//! What it names at all tuples at once, by courses, where this is given: `references`. What the tuples of a strip read
//! and assign, where that goes by equal steps, and their values, where each has one: `strip_lines`, `strip_values`;
//! that they are found is never promised.
#![tactic(auto)]

mod asking;
mod assigned;
mod elements;
mod fixed;
mod flat_strips;
mod form_strips;
mod here;
mod making;
mod names;
mod naming;
mod outcome;
mod progressions;
mod reads;
mod references;
mod right;
mod sections;
mod space;
mod statement;
mod strip_lines;
mod strip_values;
mod strips;
mod target;
mod values;

pub use elements::Elements;
pub use outcome::Outcome;
pub use references::References;
pub use statement::ParallelStatement;
pub use strips::{ElementLine, Strip, StripLines};

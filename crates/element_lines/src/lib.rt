//! Elements on a line: where each subscript goes by equal steps, the places of the elements do so too.
//!
//! Comes in: nothing. Goes out: a law, the contract of a function that does nothing, over the definitions of `array_meaning` and
//! those in `specs/`: the places of elements whose subscripts go by equal steps are told by those of the first two, where the first and
//! the last are in bounds.
//!
//! *Proved:* By laws alone: where each subscript goes by equal steps, and the first and the last element are in bounds,
//! the places of the elements are told by those of the first two: `elements_on_a_line`.
#![tactic(auto)]

mod promises;

pub use promises::elements_on_a_line;

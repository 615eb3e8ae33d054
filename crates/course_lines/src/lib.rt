//! Elements that are named along the first axis of a space: where the place of a tuple on it goes by equal steps, the places of the elements
//! do so too.
//!
//! Comes in: nothing. Goes out: a law, the contract of a function that does nothing, over the definitions of `courses`: what a reference by
//! courses names at tuples of one row, with equal steps between them, is told by what it names at the first two, where it names elements at the
//! first and at the last.
//!
//! *Proved:* By laws alone: at tuples of one row, each so many places after the one before it, the elements that a
//! reference by courses names go by equal steps, where it names elements at the first, the second and the last of them,
//! and the second isn't before the first: `named_on_a_line`.
#![tactic(auto)]

mod promises;

pub use promises::named_on_a_line;

//! The values of array expressions by strips: at most 256 tuples of one row at a time, and each operator over all of them before the next one
//! (*strip-mining*).
//!
//! Comes in: a state, an array expression whose parts are evaluated, and the extents of a space. Goes out: its values at all tuples of the
//! space, where each has one, and the places of a section at all tuples, where in each row they follow one another; else None, and then the
//! caller goes tuple by tuple, which finds the first fault.
//! What holds in between: a strip's clause is by index, its k-th value is that of the expression at its k-th tuple (`IsStrip`), and says
//! nothing of the order in which values are taken; that all values so taken are those of the definitions is a law (`law_of_strips`). Nothing is taken
//! from memory for a single tuple.
//!
//! *Proved:* The values of an array expression at all tuples of a space, and the places of a section at them, where
//! they are found by strips of a row's tuples: `strip_values`, `strip_places`. Where values are so found, they are
//! those of the meaning, in order: `law_of_strips`, `law_of_values`. None says nothing: that they are found is never
//! promised.
#![tactic(auto)]

mod elements;
mod expression_strips;
mod promises;
mod row_places;
mod rows;
mod tuples;

pub use promises::{law_of_strips, law_of_values};
pub use row_places::strip_places;
pub use rows::strip_values;

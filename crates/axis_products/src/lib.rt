//! Sets of tuples that are products of sets of places, one an axis.
//!
//! Comes in: nothing. Goes out: laws, each the contract of a function that does nothing, over the definitions in `specs/`: the tuples of a
//! space that pass a test which asks each axis by itself are those that the passing places of the axes make; and how many of them stand before
//! one is the number of its ranks among the counts of the axes, as local addresses are put together from a table a dimension.
//!
//! Words of the field: a tuple is an iteration, and its space an *iteration space*.
//!
//! *Proved:* By laws alone: tuples of a space by their places on its axes. Those that pass a test which asks each axis
//! by itself are, in tuple order, those that the passing places of the axes make: `passing_tuples`, `held_tuples`. How
//! many of them stand before one is the number of its ranks among the counts of the axes: `passing_before`. A tuple's
//! number is that of its places: `numbers_and_places`.
#![tactic(auto)]

mod promises;

pub use promises::{held_tuples, numbers_and_places, passing_before, passing_tuples};

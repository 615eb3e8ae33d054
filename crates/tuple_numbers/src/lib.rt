//! Numbers of tuples in a short form.
//!
//! Comes in: all numbers below a count, a list of numbers, or the extents of a space and a list of places for each of its axes. Goes out: the numbers
//! of the tuples, run by run. What holds in between: the number of a tuple is a sum of one number of each list, so that as many numbers are kept as there
//! are places on the axes together, and not as many as there are tuples; a division is made once a run, and none for a tuple.
//!
//! Words of the field: these are iterations of an *iteration space*, as products of sets, one a dimension.
//!
//! *Proved:* Numbers of tuples in a short form, which contracts see as a list: all below a count (`Tuples::below`),
//! those of a list (`Tuples::listed`), or those of the tuples with a place of each of several lists, one list an axis
//! (`tuples_of_places`). They are read run by run, each run a part of the list (`Tuples::run`, `Run::at`). What isn't
//! proved is how much is kept: the places of the axes together, and of the first axis nothing where they follow one
//! another.
#![tactic(auto)]

mod kept;
mod product;
mod run;
mod sums;

pub use kept::Tuples;
pub use product::tuples_of_places;
pub use run::Run;

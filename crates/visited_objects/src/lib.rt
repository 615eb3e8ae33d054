//! How each object was visited by the iterations of a nest of INDEPENDENT loops (HPF 2.0, 5.1), by name and place.
//!
//! Comes in: touches, those of an iteration after those of the iterations before it. Goes out: for each object that was touched a `Visit`:
//! which iteration alone wrote it or was the first to read it, or the first two that interfere in it. What holds in between: an object
//! without an entry is untouched, so that a row is as long as the last touch of its name asks.
//!
//! *Proved:* After each touch the table has for every object the visit that the definition gives: `Visits::touch`.
#![tactic(auto)]

mod visits;

pub use visits::{Row, Visit, Visits};

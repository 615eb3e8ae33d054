//! Lists of places by the runs of one period: run-length encoding of what repeats.
//!
//! Comes in: the places of a dimension of an array, one after the other, and where they are many the number of places after which they are
//! expected to repeat. Goes out: each place by its number.
//!
//! What holds in between: a short list has an entry a place. Of a long one the places of the first period stand as runs, which are places in a
//! row that add the same and of which each has the next rank; a later place is the one of the first period at which its number lies, with a
//! rank that is greater by as many places as the periods before it have with its part. So memory goes by the runs of one period and the
//! parts, and not by the places. What is expected is compared with what comes: a place that isn't as expected ends the period, and all places
//! stand as runs from then on. So the period is a hint, and whatever it is, the places are those that came.
//!
//! *Proved:* A list of places that keeps what is pushed, whatever its period is: `Places::push`, `at`.
#![tactic(auto)]

mod places;
mod repeated;
mod runs;

pub use places::Places;
pub use runs::Place;

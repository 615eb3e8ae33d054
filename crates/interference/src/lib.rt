//! Whether a nest of INDEPENDENT loops is entered (HPF 2.0, 5.1).
//!
//! Comes in: the state at the entry of a nest, and the nest with its names resolved. Goes out: that it is entered, or its fault: it is
//! beyond the limits, or two of its iterations interfere. What holds in between: each answer is that of the definitions of the meaning;
//! the indices are set in the state itself, iteration by iteration, and set back, so that the state is left as it was.
//!
//! *Proved:* A nest of INDEPENDENT loops is entered exactly where its limits are kept and no two iterations interfere;
//! else the fault is that of the limits, or has the first two iterations and their first object: `enter`, for any nest
//! in any state, which it leaves as it was.
#![tactic(auto)]

mod assigned;
mod clashes;
mod entry;
mod indices;
mod known;
mod limits;
mod touches;
mod walk;

pub use entry::enter;

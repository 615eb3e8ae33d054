//! The states in which the machine with whole arrays passes what it passes.
//!
//! Comes in: what the machine passes over code (`lowering`), and trails (`statement_trail`). Goes out: how arrays lie after a trail, as a
//! definition; and laws, each the contract of a function that does nothing. They hold over any code, whatever program it is of.
//!
//! - `entries_passed`: each entry of a trail that is passed is passed at one state, which comes after the entries before it and is before an
//!   instruction that is this entry.
//! - `maps_now`: at each state the declared names lie as at the first, with the redistributions that were passed so far.
//! - `trails_move`: what is passed moves arrays as the trail that it is.
//!
//! *Proved:* Over any code, each entry of a trail that the machine passes is passed at one of its states, which comes
//! after the entries before it: `entries_passed`. The arrays lie at each state as at the first, with the
//! redistributions that were passed so far: `maps_now`, `trails_move`.
#![tactic(auto)]

mod promises;

pub use promises::{entries_passed, maps_now, trails_move};

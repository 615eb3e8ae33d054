//! Distribution: on which processor a position of a distributed dimension lies (HPF 2.0, DISTRIBUTE).
//!
//! Comes in: a line, which is a dimension with its format, and positions of it, counted from 1. Goes out: the
//! coordinate of a position's owner, how many positions a processor owns, and how many lesser positions have the
//! same owner. What holds in between: a processor owns one section under BLOCK and GEN_BLOCK and one section of each cycle under
//! CYCLIC(k), so both counts are closed forms of how many positions up to a last one a processor owns, and no call
//! asks for the owner of each position. No call takes memory or refuses.
//!
//! *Proved:* The owner of a position is that of the table of formats, and positions are counted as by filters of it:
//! `owner`, `owned_count`, `rank`.
#![tactic(auto)]

mod counts;
mod owners;

pub use counts::{owned_count, rank};
pub use owners::owner;

//! The first clash of the iterations of a nest, and how one pass finds it.
//!
//! Comes in: what the iterations of a nest touch (`array_meaning`). Goes out: laws, each the contract of a function that does nothing, over the
//! definitions in `specs/`. There is no code here that runs: the check of the entry (`interference`) keeps a `Visit` for each object and cites these laws.
//!
//! What holds in between:
//!
//! - `first_clashes`: the first clash by its definition is the least pair of iterations, and then the least object, of all that interfere.
//! - `least_pairs`: a `Visit` for an object, brought up to date at each touch, tells its first pair of iterations that interfere. So there is no list of
//!   touches to keep.
//! - `scans_find`: a pass over the objects in order then finds the first clash.
//!
//! *Proved:* The first clash of a nest is the least of all: `first_clashes`. It is found by one table: `least_pairs`,
//! `scans_find`.
#![tactic(auto)]

mod promises;

pub use promises::{first_clashes, least_pairs, scans_find};

//! Whole arrays, and what changes them.
//!
//! Comes in: nothing. Goes out: `Spot`, an element by its row and position; and, as definitions in `specs/`, the elements of all arrays by
//! row and position, an effect, which is nothing, one store or a fault, conditions that are stored as numbers, and parts that are done at
//! all iterations one after another, with the faults that they keep. There are no nodes and no pieces here, no program and no function.
//!
//! *Proved:* Definitions alone: the elements of whole arrays by row and position, what changes them, and parts that are
//! done one after another at all iterations.
#![tactic(auto)]

mod spot;

pub use spot::Spot;

//! That a program whose numbers are of 64 bits keeps its state of 64 bits.
//!
//! Comes in: the statements of a resolved program, and what they do to a state (`array_meaning`). Goes out: what it is for a program and for a state
//! to have numbers of 64 bits alone, as definitions in `specs/`, and a law, the contract of a function that does nothing. No program is here, and no
//! code that runs.
//!
//! What holds in between:
//!
//! - `OperatorRanges`, `ReductionRanges`: operators and reductions give values of 64 bits, since what could leave them wraps.
//! - `Values`: so an expression of numbers of 64 bits has such a value in a state of such values; so has an array expression at each tuple.
//! - `Storing`, `Runs`, `Starts`: what is stored keeps the state so, turn by turn in a loop, and the state at the start is so.
//!
//! The lemmas are for other crates too, which go by a part of a statement, as a turn of a loop.
//!
//! *Proved:* By laws alone: a program whose numbers are of 64 bits keeps its state of 64 bits, with each statement and
//! to its end; and the state at the start is so where the initial values are: `states_fit`.
#![tactic(auto)]

mod promises;

pub use promises::states_fit;

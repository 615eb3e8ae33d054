//! Programs run in one order over whole arrays.
//!
//! Comes in: a program that keeps the rules of names, constants, types and ranks. Goes out: what it prints, how it ends and its last
//! arrays, which are those of the sequential meaning (`run_serial`). What holds in between: each statement leaves the state that it
//! means, and completes as it means, also where it has a fault; want of memory alone keeps a run from its end.
//!
//! *Proved:* A program prints, ends and leaves its arrays as the sequential meaning says, for every program and with
//! every fault's line, kind and tuple: `run_serial`. Nests of INDEPENDENT loops are checked at their entry.
#![tactic(auto)]

mod assignments;
mod completion;
mod execution;
mod forall;
mod forall_stores;
mod index_tuples;
mod initial_state;
mod known_steps;
mod loop_entry;
mod one_to_one;
mod position_tuples;
mod print;
mod row_stores;
mod section_assignments;
mod section_stores;
mod serial;
mod transformations;
mod transformed_columns;
mod where_construct;

pub use completion::Completion;
pub use initial_state::initial_scalars;
pub use serial::{End, Outcome, run_serial};

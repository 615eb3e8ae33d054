//! The machine with whole arrays, in code: the *reference machine* of what nodes do, with a global view of all arrays.
//!
//! Comes in: a program of node code, how its rows lie at the start, the slots, and a value for each row. Goes out: `WholeMachine`, whose
//! steps are those of the definitions, with its place, slots, rows and layouts before each.
//!
//! What holds in between: there are no nodes here and no letters, so a step is an instruction, or one of the steps of a reduction or a PRINT;
//! the values of all tuples are taken before any is stored (Fortran 95, 7.5.1.5). A step prepares all that may want memory before it changes
//! anything, so that a machine that answers want of memory is as before.
//!
//! *Proved:* A machine with whole arrays makes the steps of the definitions, begins as they say, and shows its program,
//! place, slots, rows and layouts before each: `WholeMachine::opening`, `WholeMachine::step`. Its program fits the rows
//! before each, as that of nodes does: `WholeMachine::program`.
#![tactic(auto)]

mod controls;
mod copies;
mod element_steps;
mod folds;
mod local_steps;
mod machine;
mod opening;
mod part_values;
mod parts;
mod prints;
mod reduction_values;
mod reductions;
mod remaps;
mod rows;
mod scans;
mod sections;
mod steps;
mod stores;
mod verdicts;

pub use machine::WholeMachine;

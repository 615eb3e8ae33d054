//! Names resolved: from a program as it is read to one in which no name is met again.
//!
//! Comes in: a program that keeps the rules, with its declared names. Goes out: its statements with their names resolved (`plan`). What
//! holds in between: what they stand for is the resolved program of the definitions.
//!
//! *Proved:* The statements of a program with its names resolved are those of the definitions, for every program:
//! `plan`.
#![tactic(auto)]

mod array_statements;
mod assignments;
mod blocks;
mod constants;
mod controls;
mod expressions;
mod items;
mod named;
mod nests;
mod transformations;

pub use blocks::plan;

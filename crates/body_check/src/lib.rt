//! The rules of the bodies of FORALL and of INDEPENDENT loops.
//!
//! Comes in: a program whose names are resolved. Goes out: nothing, or the first breach. What holds in between: a statement of a FORALL is
//! judged by its expressions, and a nest of INDEPENDENT loops as a whole; what is wrong with a program is the list of what is wrong with
//! each of its statements and nests.
//!
//! *Proved:* The bodies of a program are accepted exactly where they keep the rules of FORALL (each subscript is linear
//! in at most one index, no reduction is called, no header names its own index) and those of INDEPENDENT loops (what
//! may stand there, bounds, lists, reduction statements, NEW variables that every path assigns before it reads them),
//! else the first breach: `check_bodies`.
#![tactic(auto)]

mod bodies;
mod forall_judge;
mod forall_tests;

pub use bodies::check_bodies;

//! The rules of nests of INDEPENDENT loops.
//!
//! Comes in: the statements of a program whose names are resolved, and what it declares. Goes out: the first breach, where there is one. What
//! holds in between: the names of a nest are gathered first, from its loops, its lists and the statements in its body; each statement is
//! then judged by them and by what stands round it: the loops and the IF, and the scalars that every path to it has assigned. What is
//! wrong with a program is the list of what is wrong with each part of its nests.
//!
//! *Proved:* The first breach of the rules of nests of INDEPENDENT loops (what may stand there, bounds, lists,
//! reduction statements, NEW variables that every path assigns before it reads them) is found, exactly where there is
//! one: `first_bad_nest`.
#![tactic(auto)]

mod constant_symbols;
mod distinct_names;
mod gathering;
mod inner_axes;
mod nest_judge;
mod nest_lists;
mod nest_names;
mod nest_tests;
mod nests;
mod paths;
mod reduction_statements;

pub use nests::first_bad_nest;

//! A walk through the statements of a program.
//!
//! Comes in: the statements of a tree, and a judge that says what is wrong with one statement alone. Goes out: the first breach that
//! the judge finds. What holds in between: statements are flattened, each with its line and with the indices of the DO loops
//! round it, and what is wrong with a program is the list of what is wrong with each of them.
//!
//! *Proved:* A walk gives the first breach that a judge of single statements finds, for any judge: `first_bad`.
#![tactic(auto)]

mod statements;

pub use statements::{Head, Judge, first_bad};

//! From the lines of a program to its tree.
//!
//! Comes in: the lines of a text as statements and directives, in order, which break no rule of constructs, declarations
//! and directives. Goes out: the tree that they spell. What holds in between: a draft says the lines that have been read,
//! those of the open constructs too, and its lines with those that are left are the lines of the text; no line is read
//! twice, no other program has these lines, and what they mean is the abstract syntax of the tree.
//!
//! *Proved:* Lines without a breach are read as the tree that they spell: `read_nest`. No two trees have the same
//! lines: `one_program`. The lines of a text determine the program of the abstract syntax: `one_meaning`.
#![tactic(auto)]

mod build;
mod construct_end;
mod draft;
mod draft_step;
mod next_line;
mod progress;
mod promises;

pub use progress::read_nest;
pub use promises::{one_meaning, one_program};

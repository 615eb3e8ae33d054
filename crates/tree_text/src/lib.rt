//! Trees as lines of text, for the programs that try readers.
//!
//! Comes in: the tree of a program. Goes out: a text, one statement a line, by which a reader sees the whole tree. What
//! holds in between: each operation stands in parentheses, and the parentheses of the program are brackets; each line
//! begins with the number that the tree keeps of it, and lines of which it keeps none have none.
#![tactic(auto)]

mod decl;
mod directive;
mod expr;
mod list;
mod program;
mod stmt;
mod writer;

pub use program::write_program;

//! From the tokens of a line to the statement that it is.
//!
//! Comes in: the tokens of one logical line, and its number. Goes out: the statement, or the least reason for which the
//! line is refused as a statement. What holds in between: the kind of a line is told by its first words; the line is
//! read from left to right by the grammar of its kind; a statement is spelled by its line, whole, and a tree keeps
//! the same of any other that has this spelling. A line is refused exactly where a definition names a breach: it is
//! left out of the language, a front of it is that of a statement up to and with its first expression deeper than
//! `MAX_DEPTH`, or no statement spells it. Whether a statement stands in its place is no matter of this crate.
//!
//! *Proved:* A line is read as the statement that it spells, or refused for its first reason: `read_statement`. No two
//! statements have one spelling: `one_form`.
#![tactic(auto)]

mod constant_array;
mod declaration;
mod first_words;
mod headers;
mod kind;
mod left_out;
mod lists;
mod parts;
mod promises;
mod reading;
mod statement;
mod verdict;
mod whole_lines;
mod word_lines;

pub use kind::Kind;
pub use promises::one_form;
pub use statement::{Action, Assignment, DoHead, ForallHead, Statement};
pub use verdict::read_statement;

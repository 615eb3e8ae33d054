//! Node code, as cases write it, a line an instruction.
//!
//! Comes in: the lines of a case. Goes out: the instructions of those that begin with a number, which is the instruction's place, or that one of
//! them isn't written so. What holds in between: a reader goes on after a word that isn't well and notes that; whether all were is asked at
//! the end of a line. `instructions` says how each instruction is written, and `expressions` what stands in them.
#![tactic(auto)]

mod anchors;
mod expressions;
mod instructions;
mod nests;
mod words;

pub use instructions::read_code;
pub use words::{line_of, row_of};

//! A program of node code, for whatever runs it: nodes, or the machine with whole arrays.
//!
//! Comes in: node code, the dimensions of the declared arrays, the tables of the mappings that instructions give them, and the number of nodes. Goes
//! out: `NodeProgram`, what it is for it to fit rows, the machine before its first instruction, and how rows lie after new mappings
//! (`owners_after`).
//!
//! What holds in between: where a program fits rows, copies stand after the declared names and have seven dimensions at most, and each new mapping
//! has the shape of its array's row; so nothing of that is tested while it runs.
//!
//! *Proved:* A program of node code fits rows (`FitsRows`) where its copies stand after the declared names and have 7
//! dimensions at most, and its new mappings have the shapes of the arrays' rows; rows after new mappings lie as the
//! definitions say: `owners_after`.
#![tactic(auto)]

mod program;
mod remaps;

pub use program::NodeProgram;
pub use remaps::owners_after;

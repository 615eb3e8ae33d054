//! The arrays of programs that cases write.
//!
//! Comes in: a text, and a grid of nodes. Goes out: the dimensions of the arrays that the text declares, the values of their elements, and their
//! mappings on the grid; None where the text is refused. Nothing of a tree or of names goes out, so that who reads cases holds neither.
#![tactic(auto)]

mod arrays;

pub use arrays::{Arrays, arrays_of, grid_of};

//! Programs whose names are resolved, as interpreters and node code read them.
//!
//! Comes in: nothing. Goes out: the types of expressions and statements in which variables go by their place among the declared
//! names, and the indices of a FORALL by their place in its header; what they stand for (`specs/Resolved.antt`), a program of the
//! definitions; and copies of blocks, nests and loops, which stand for the same. What makes them of a program stands above, so that a
//! change of it changes no one that reads them.
//!
//! *Proved:* `copied`, `copied_nest`, `copied_loop`: a copy stands for what the block, the nest or the loop stands for.
//! Beside them the types of expressions and statements in which no name is met, and what they stand for.
#![tactic(auto)]

mod copies;
mod statements;
mod terms;

pub use copies::{copied, copied_loop, copied_nest};
pub use statements::{
    Action, Arm, Control, ElementAssignment, Item, Loop, Nest, ResolvedProgram, SectionAssignment,
    Statement, Transformation, WholeArray,
};
pub use terms::{SectionSubscript, Term};

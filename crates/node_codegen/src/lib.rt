//! The node code of statements and of programs.
//!
//! Comes in: a plan, the program with its names resolved, and which arrays the REDISTRIBUTE of each line moves. Goes out: its node code,
//! how many slots this takes, and how many rows after those of the declared names. What holds in between: each function answers what the
//! function of its name in `program_code` does, and wants of memory alone; a place or a sum of
//! slots past 64 bits is one. Places are absolute, so a body's code is made apart, at places that are known, and nothing is patched: what
//! jumps over it or to its end is put down once its length is known. A part that stands twice in the code is made twice.
//!
//! A nest of INDEPENDENT loops with statements takes the place of its loops, from the bottom up:
//!
//! - `nest_loops`, `nest_steps`: its loops, their bounds and steps, and its innermost block.
//! - `nest_scalars`, `nest_counts`: what this assigns, and how many stored conditions and slots of inner loops it has.
//! - `nest_names`: where copies, conditions and marks lie, and what the copies lie beside. All that follows is made over it.
//! - `nest_terms`, `nest_statements`: expressions, and parallel statements.
//! - `nest_body`, `nest_finals`: the statements one after the other, and the copies before and after them.
//! - `nest_code`: the whole nest.
//!
//! *Proved:* The node code of a plan is that of the definitions, instruction by instruction, nests taken apart, and so
//! are the numbers of slots and rows that it takes: `compile`.
#![tactic(auto)]

mod array_assignments;
mod array_bounds;
mod copies;
mod element_assignments;
mod forall;
mod forall_header;
mod forall_subscripts;
mod if_construct;
mod loops;
mod moves;
mod nest_body;
mod nest_code;
mod nest_counts;
mod nest_finals;
mod nest_loops;
mod nest_names;
mod nest_scalars;
mod nest_statements;
mod nest_steps;
mod nest_terms;
mod nests;
mod prefix_sums;
mod print;
mod programs;
mod sequences;
mod slots;
mod source_subs;
mod statements;
mod transformations;
mod where_construct;

pub use moves::LineMoves;
pub use programs::{Code, compile};

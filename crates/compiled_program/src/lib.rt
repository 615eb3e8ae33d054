//! Programs compiled for the nodes of a grid.
//!
//! Comes in: an accepted program, with the mappings of its arrays on its grid, at the start and after each REDISTRIBUTE. Goes out: its node
//! code with the tables that the code names, and what a run begins with: who owns what, the slots, and the values of the arrays' elements.
//!
//! What holds in between: new mappings get numbers, in the order of the text; the code is that of the program's statements with all names
//! resolved; and so the machine with whole arrays over it, before its first instruction, is the one of which the laws of `nodes_lowered` speak.
//!
//! *Proved:* An accepted program compiled for the nodes of its grid: its code, with the tables of all mappings, who
//! owns what, the slots and the values of the arrays at the start. The machine with whole arrays before its first
//! instruction is the one of which `nodes_lowered` speaks, and the program fits its rows: `compile_program`.
#![tactic(auto)]

mod compile;
mod moves;
mod rows;
mod starts;

pub use compile::{CompiledProgram, compile_program};
pub use nodes_lowered::{accepted_moves_are_dealt, moves_by_number, programs_run_on_nodes};

//! Programs run on nodes, and what these nodes send.
//!
//! Comes in: an accepted program, with the mappings of its arrays on its grid, at the start and after each REDISTRIBUTE. Goes out: what the program prints, how it ends
//! and its last arrays, from nodes that own pieces of the arrays and exchange letters; and these nodes at the end of their run. Or a line for each
//! message that they send for array statements, reductions, nests of INDEPENDENT loops and redistributions, and how the program ends.
//!
//! What holds in between: the nodes begin as the openings of the machine over the compiled program, and so they are phased. A core of them ends, in every order
//! of steps, in the one end that the laws of `nodes_lowered` say: node 0 has what was printed, and the element of an array is at its address in the piece of
//! its least owner. The outcome is the one in one order. For the list no node runs: before each parallel statement, reduction and redistribution of the machine
//! with whole arrays its slots and layouts say who would send what to whom, and by the laws of `messages_lowered` these lines are those of the
//! program's trail.
//!
//! *Proved:* An accepted program, run on nodes that own pieces of its arrays as it maps them, comes to its serial
//! outcome: its bytes, its first fault with line, kind and tuple, or its last arrays. Crews of threads step the nodes,
//! and the contract holds for every number of threads and every order of their steps. The answer has the nodes at the
//! end of their run too, as `nodes_lowered` says, with their pieces and the numbers of their letters, the code that
//! they ran, and the closed queue of each ordered pair of them with just the letters of their lockstep run, so a body
//! that runs the program in one order alone, or nodes beside unused queues, is refused: `run_on_nodes`. That covers
//! nests of INDEPENDENT loops, which these nodes run statement by statement, each at all iterations at once. The text
//! of the messages that these nodes send for its array statements, reductions, nests and redistributions is that of the
//! program's trail, up to its first fault where it has one, and the end is the program's: `list_messages`.
#![tactic(auto)]

mod listing;
mod machine_run;
mod openings;
mod outcome;
mod ran;
mod run;

pub use listing::{MessageList, list_messages};
pub use openings::{FirstNodes, first_nodes};
pub use ran::Ran;
pub use run::{NodesOutcome, run_on_nodes};

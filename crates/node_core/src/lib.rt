//! The core: nodes that pass letters in phases, and a queue for each ordered pair of them.
//!
//! Comes in: phased nodes of any type that is a `PhasedNode`. Goes out: the nodes after steps in lockstep, in
//! rotation, or in any order of choices. What holds in between: a core is reached from phased nodes by core
//! steps, so whatever the order of the steps, each node makes the moves of the one lockstep run, no letter is
//! lost or changed, and the core is never stuck. A queue holds at most four letters, and its room is taken when
//! the core is made, so only a node's own local steps want memory.
//!
//! *Proved:* No code of the program uses it, which runs nodes on crews: a core of phased nodes with queues of four
//! letters is stepped as the definitions say, and ends in the last nodes of the lockstep run: `Core::step`,
//! `run_choices`, `run_rotation`, `run_lockstep`.
#![tactic(auto)]

mod cores;
mod lockstep;
mod queue;
mod stage;

pub use cores::Core;
pub use node_law::{Act, NodeId, PhasedNode, Stepped};

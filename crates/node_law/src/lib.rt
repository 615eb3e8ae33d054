//! The laws of nodes that pass letters in phases: no interleaving of their steps changes anything, and none gets
//! stuck.
//!
//! Comes in: any node type that keeps the clauses of `PhasedNode`, and nodes of it that are phased, so that a
//! lockstep run passes their phases one after another. Goes out: the laws, each the contract of a function that
//! does nothing, and in `specs/` what they speak of: the steps of nodes, their phases and lockstep run, and cores
//! with a queue for each ordered pair of nodes. What holds in between: a node's moves are a function of the letters
//! that it takes, so whatever the order of the steps, its moves so far are a prefix of those of the lockstep run. The
//! law of prefixes says this of moves alone, with no queue and no order in time, and the others follow from it. In a
//! phase no node sends to itself, so there is no letter for which a queue from a node to itself would be wanted.
//!
//! - `LocalRuns`: a node that makes several local steps in one call. Each of them is what the node's act names then, as if the node had been asked
//!   before each. So to whoever counts moves one call is some moves, maybe none, and nothing else. How many there are isn't said.
//!
//! *Proved:* Nodes that exchange letters in phases make the moves of their one lockstep run in every order of steps,
//! and are never stuck: `law_of_prefixes`, `confluence`, `never_stuck`. No node passes letters to itself:
//! `letters_to_others`. Of a node that makes several local steps in one call, the clauses of a trait: `LocalRuns`.
#![tactic(auto)]

mod act;
mod local_runs;
mod node;
mod promises;
mod stepped;

pub use act::Act;
pub use hpf_base::NodeId;
pub use local_runs::LocalRuns;
pub use node::PhasedNode;
pub use promises::{
    confluence, law_of_ends, law_of_prefixes, letters_to_others, never_stuck, one_lockstep,
};
pub use stepped::Stepped;

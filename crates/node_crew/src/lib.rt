//! Crews of threads that step the nodes of a run until all have ended.
//!
//! Comes in: the nodes of a run at their openings, how many threads there may be, and a gate. Goes out: the nodes at their ends, and the closed
//! queues of all pairs.
//!
//! Each node becomes a station, which has the ends of its queues to each node and from each node. The stations are dealt into crews of
//! neighbours, a crew for each *worker thread*, and a crew steps its stations in turn. After a turn in which none of them moved it yields its
//! processor.
//!
//! What holds in between: a crew comes back with the stations that it was given, in order. That is all that is known of it, and all that is needed: the
//! type of a station says how far its node has come, and once all stations have ended, their law gives the last nodes and the letters. So it
//! shows nowhere which thread stepped a station, nor in which order.
//!
//! Crews share two kinds of words. `halt` is set where a node was refused memory, and then all crews come back; `recall` is set for a crew whose
//! thread was refused. The calling thread runs the last crew; where a thread was refused, also the crew that it was for and all after it. So
//! threads that can't be had cost time alone. No clause says that a thread runs or that a letter comes; that nodes never get stuck is a law of
//! `node_law`.
//!
//! *Proved:* Phased nodes, stepped by crews of threads, however many there are, come to the last nodes of their
//! lockstep run, where the call returns, and their letters are those of that run: `run_nodes`. How many threads ran,
//! that one ran beside another, and that a gate was passed, is only tested.
#![tactic(auto)]

mod crews;
mod dealing;
mod run;
mod threads;

pub use hpf_base::OutOfMemory;
pub use hpf_ports::Gate;
pub use pair_mailbox::Closed;
pub use run::{Crewed, run_nodes};
pub use sendable_nodes::Node;

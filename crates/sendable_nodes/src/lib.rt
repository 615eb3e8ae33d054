//! Nodes may be sent to threads.
//!
//! Comes in: the node of `node_machine`, and all that it is made of. Goes out: a law, the contract of a function that does nothing; and, in
//! `proofs/`, what it rests on. What starts a thread has to show of all that it sends that it may be sent, and cites `NodeSent`.
//!
//! What holds in between, from the bottom up:
//!
//! - `ThreadSafety`: types whose values may be sent to a thread, and shared between threads. Nodes share their program, and to send what
//!   shares a value asks both of the value.
//! - `Expressions`, `Statements`, `Instructions`: the types of node code. A nest's check holds statements of the resolved program.
//! - `Programs`, `NodeSent`: the program of all nodes, and a node.
//!
//! The check finds by itself that small types may be sent. It gives up at those that hold a type which holds itself, as expressions do, and
//! at those with many parts.
//!
//! *Proved:* A node may be sent to a thread, with all that it holds and shares: `nodes_may_be_sent`.
#![tactic(auto)]

mod promises;

pub use node_machine::Node;
pub use promises::nodes_may_be_sent;

//! What one node sends another for a parallel statement.
//!
//! Comes in: a parallel statement once the slots are known, how the rows lie, and two nodes. Goes out: the elements of the message from the one to the
//! other. What holds in between: where what the statement names goes along the axes of its space, the message is found by classes of places on each
//! axis; else it is one of those that the sender has, found by a pass over tuples.
//!
//! *Proved:* The message of one pair of nodes for a parallel statement of node code, whatever its subscripts:
//! `message`.
#![tactic(auto)]

mod messages;

pub use messages::message;

//! The mailbox of an ordered pair of nodes: one queue with an end for the source and an end for the target.
//!
//! Comes in: letters, at the end of the source, in the order of their numbers. Goes out: the same letters in the same
//! order, at the end of the target, whoever runs in between. What holds in between: what was sent is what was taken
//! followed by what the queue holds, which is at most four letters, and each letter has the run, the pair and its own
//! number. There are seven kinds of step: to open a queue, to split its two ends, a push, a push that found the queue
//! full, a pop, a pop that found it empty, and to join the ends at closing. Each keeps this rule, whatever the others do.
//! A call may wait, since a step of the queue may spin.
//!
//! *Proved:* The queue of a pair of nodes gives its letters in order, and holds four at most: `open_pair`,
//! `OutEnd::send`, `InEnd::take`, `close_pair`.
#![tactic(auto)]

mod closed;
mod ends;
mod mailbox;
mod route;
mod rule;

pub use closed::Closed;
pub use ends::{InEnd, OutEnd};
pub use hpf_base::{NodeId, OutOfMemory};
pub use letters::{Body, Letter};
pub use mailbox::{CAPACITY, close_pair, open_pair};
pub use route::Route;

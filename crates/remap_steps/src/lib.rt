//! What a node does in a redistribution (HPF 2.0, 8.3).
//!
//! Comes in: who owns each element before it and after it, a node's number and its pieces, and the values received. Goes out: what the
//! node sends in each round and from whom it takes, and after the last round its pieces.
//!
//! What holds in between: the messages of a node are found once, by one pass over the elements that it owns, and the rounds by the places of
//! each dimension (`Redistribution`), and a round looks them up; nothing is changed, so want of memory leaves a node as it was. A row that
//! lies as before is sent by no one, and its pieces are copied.
//!
//! *Proved:* What a node sends and takes in each round of a redistribution, and its pieces of all rows after the last:
//! `Redistribution::outbox`, `inbox`, `moved_pieces`.
#![tactic(auto)]

mod moving;
mod opening;
mod redistribution;

pub use comm_sets::Owners;
pub use hpf_base::OutOfMemory;
pub use letters::Parcel;
pub use owner_tables::Row;
pub use redistribution::Redistribution;

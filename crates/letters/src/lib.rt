//! What nodes send to each other.
//!
//! Comes in: the values that a letter carries, and of which run, phase and pair of nodes it is. Goes out: letters, and
//! what is still to be sent. What holds in between: contracts see the body as the list of its values, so that two letters with the same values are
//! equal, whatever memory they lie in. What the values stand for isn't written in a letter: each taker knows the list.
//!
//! *Proved:* Contracts see the body of a letter as the list of its values, and what is still to be sent as its target
//! with its values: `Body`, `Parcel`.
#![tactic(auto)]

mod body;
mod letter;
mod pair;
mod parcel;

pub use body::Body;
pub use hpf_base::NodeId;
pub use letter::Letter;
pub use pair::Pair;
pub use parcel::Parcel;

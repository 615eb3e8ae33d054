//! Who sends which elements to whom: communication sets.
//!
//! Comes in: who owns each element of arrays and copies; and which elements are read at which tuples and which nodes compute each
//! tuple, or who owns each element after a redistribution. Goes out: all messages from and to one node, each the list of its
//! elements, and the tuples that it computes. What holds in between: one pass over the tuples, or over the elements that the node owns,
//! notes what goes from one end to the other, in a list for each node at the other end; sorted and without repetitions such a list is the
//! message. Where a part knows at which tuples a node exchanges something, the pass is over these alone, and else over all of them. The time
//! of a part goes with the tuples of the pass, and its memory with what is sent and computed; there is no table of all elements. Between
//! which nodes a redistribution moves something is seen at a few of its elements, found by the places of each dimension.
//!
//! *Proved:* The elements of a message are exactly those that its taker needs and doesn't own and whose least owner
//! sends, in order, for all messages from and to a node at once, and the tuples that it computes with them: `exchange`,
//! whether or not a part tells which tuples a node computes, and some among which are all at which it exchanges
//! anything (`Candidates`). So are those of a redistribution: `remap_outgoing`, `remap_incoming`. The value of an
//! element of a message is the one at its place: `value_in`. The rounds of a redistribution are those of the
//! definitions: `remap_rounds`.
#![tactic(auto)]

mod exchanged;
mod exchanging;
mod lookup;
mod marks;
mod messages;
mod reads;
mod receiving;
mod remapping;
mod rounds;
mod sending;
mod visiting;

pub use exchanged::Exchange;
pub use exchanging::exchange;
pub use hpf_base::OutOfMemory;
pub use lookup::value_in;
pub use marks::is_unchanged;
pub use messages::Messages;
pub use owner_tables::{Owners, Spot};
pub use reads::Reads;
pub use redistribute_rounds::{Pair, Rounds};
pub use remapping::{remap_incoming, remap_outgoing};
pub use rounds::remap_rounds;

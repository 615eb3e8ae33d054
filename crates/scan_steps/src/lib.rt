//! What a node does in a scan: each element of a copy joined with those before it (HPF 2.0, 7).
//!
//! Comes in: the number of nodes, a round and a node's number; what the node has, and what it received from each node; the tables of all rows,
//! and a piece of a row. Goes out: whether a row lies in blocks, one node's after another's; the values of a piece, joined; to whom the node
//! sends in a round and from whom it takes, what came in it and what it has after it; and the piece, each of its elements joined with those
//! before it.
//!
//! What holds in between: a node sends to one node at most in a round, and takes from one at most; what goes from node to node is one number,
//! or none where a node and those before it have no elements; nothing but the piece is changed, and that takes no memory.
//!
//! *Proved:* A row lies in blocks where it lies as a copy of one dimension with as many elements: `lies_alone`. What a node begins with, sends,
//! takes and has after each round of a scan: `joined`, `outbox`, `inbox`, `came`, `absorbed`. What its piece is at the end: `scan_row`.
#![tactic(auto)]

mod layouts;
mod rounds;
mod values;

pub use hpf_base::OutOfMemory;
pub use layouts::lies_alone;
pub use letters::Parcel;
pub use op_tables::Join;
pub use owner_tables::{Owners, Row};
pub use rounds::{came, inbox, outbox};
pub use values::{absorbed, joined, scan_row};

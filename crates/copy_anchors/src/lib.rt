//! The subscripts of a copy's anchor, tested and made into an alignment.
//!
//! Comes in: the shape of an array, the extents of a space, and of each dimension of the array a subscript by the positions of a tuple, in
//! numbers of 128 bits. Goes out: whether the subscripts are good, so that a copy can lie beside the array, and then the alignment of each, in
//! numbers of 64 bits.
//!
//! What holds in between: a subscript that is in bounds at the first two positions of its axis has a step that is less than the extent. So the
//! last position, which alone is left to test, is told without overflow, whatever numbers come in.
//!
//! *Proved:* The subscripts are taken exactly where they are good, and settled as the definition says: `good_subscripts`.
#![tactic(auto)]

mod anchor;
mod axes;
mod bounds;
mod good;

pub use anchor::{Anchor, Subscript};
pub use good::good_subscripts;

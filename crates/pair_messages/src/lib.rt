//! What one node sends another for the tuples of a parallel statement and at a redistribution, found axis by axis where that can be.
//!
//! Comes in: how the rows lie, the extents of a space, what a statement assigns and reads there, by the places of a tuple, and two nodes; or how the rows lie
//! before a redistribution and after it, and two nodes. Goes out: the elements of the message from the one to the other.
//!
//! What holds in between: nodes that own one element of a row own the same elements of it, so whether the one sends the other what it owns of a row is asked of the
//! two nodes alone. Then what a reference names is sent at the tuples that the taker computes and at which the sender owns it, and those are the tuples with a
//! place on each axis that passes both tests. On one axis the places that each node owns fall into classes by a period, and two classes have one class in common
//! or none. So an axis without a common class ends a reference before there is a list of places, and else the places of the common classes alone are asked. On an
//! axis along which none of a reference's subscripts moves one place does as well as all. Where what is assigned may be out of bounds, or a row hasn't the dimensions of
//! a reference, the tuples are asked one by one.
//!
//! A redistribution is a statement of this kind for each row: its tuples are the elements of the row, the taker computes those that it owns after, and each is read as it
//! lies before. Where the dimensions of a row change, the elements that the sender owns before are asked one by one.
//!
//! *Proved:* The message of one pair of nodes for a parallel statement whose tuples the owners of what is assigned
//! compute: exactly the elements that the taker needs and doesn't own and whose least owner sends, row by row:
//! `message`. So is the message of one pair at a redistribution: `remap_message`. Nodes find all their messages at once
//! (`comm_sets`), and don't ask it.
#![tactic(auto)]

mod classes;
mod elements;
mod meetings;
mod members;
mod messages;
mod pair;
mod places;
mod remapping;
mod rows;
mod sharing;
mod walk;

pub use messages::message;
pub use remapping::remap_message;

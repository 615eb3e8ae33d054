//! Which tuples of a part a node has to ask, found axis by axis.
//!
//! Comes in: how the rows lie, a node, the extents of a space, and what a part assigns and reads there, by the places of a tuple. Goes out: the
//! tuples that the node computes, and those at which it may take or send something; or None, where that can't be told axis by axis, and each
//! tuple has to be asked.
//!
//! What holds in between: what a node owns of a reference is a product of lists of places, one an axis. It computes such a product, takes
//! something only at those of its tuples that haven't the places at which it owns each read, or the read is out of bounds, and sends something
//! only at tuples with the places at which it owns what is read and that it doesn't compute itself. So the time is that of the places and of the tuples at the border of what the node computes, not that of all tuples.
//! Reads that lie as what is assigned, at the same subscripts, concern no tuple, and are left out before.
//!
//! Words of the field: what a node takes at the border of what it computes is its *halo*. No array has room for it: it
//! comes in messages, and is looked up there.
//!
//! *Proved:* The tuples of a part that a node computes, and some among which are all at which it takes or sends
//! something, where the owners of what is assigned compute, the least owner of what is read first, or node 0:
//! `assigned_visits`, `read_visits`, `root_visits`. None says nothing: that they are given, and how few they are, is
//! never promised.
#![tactic(auto)]

mod alike;
mod kept;
mod lists;
mod own;
mod owning;
mod sending;
mod sharing;
mod taking;
mod visitor;
mod visits;

pub use visits::{assigned_visits, read_visits, root_visits};

//! Local addresses: where on its node an element of a mapped array lies.
//!
//! Comes in: a mapping, the shape of its array, and a node. Goes out: the node's piece, which tells how many elements
//! the node owns, the local address of one, and which one has a local address; and of every node how many elements it owns, the first
//! and the last. What holds in between: a piece stands for the list of the elements that the node owns, in array-element order, and a
//! local address is the number in that list, from 0. At most one entry of a mapping moves along a dimension, so the elements are the
//! tuples of the subscripts that the node owns along each dimension by itself, which are a gap table each: no list of elements is kept.
//! `address` and `element` go between a tuple and its number in the two directions, so each is the other's inverse. What moves along one
//! dimension is `axis_along`, `coordinate_on` and `own_on` are its coordinates of a subscript and of a node, and `fixed_agree` says whether a
//! node has what all elements are given alike.
//!
//! *Proved:* A local section is the list of the elements that its node owns, in array-element order, and local
//! addresses are read both ways, each the other's inverse: `Piece::new`, `address`, `element`. How many elements each
//! node owns, the first and the last: `owned_spans`.
#![tactic(auto)]

mod axes;
mod columns;
mod element;
mod owned;
mod piece;
mod runs;
mod spans;
mod tuple_numbers;

pub use axes::{Axis, axis_along, coordinate_on, fixed_agree, fixed_subscript, own_on, procs_on};
pub use element::{element_count, extent_of, nth_element};
pub use owned::node_places;
pub use piece::Piece;
pub use spans::{Span, owned_spans};

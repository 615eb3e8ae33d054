//! How copies lie beside the elements that are assigned at their positions: *owner computes* for what a statement keeps for each tuple of
//! its space. Definitions, and laws on them; no code.
//!
//! Comes in: how all rows lie now, the extents of a space, and an anchor: the row of an array, and each of its subscripts by the positions
//! of a tuple. Goes out: the layout of a copy with a value for each tuple. The anchor is good where the space isn't empty, the subscripts are
//! in bounds at every position, and each axis moves at most one of them. Then the copy is aligned with the array; else, and without an anchor,
//! its last index lies in blocks over all nodes.
//!
//! What holds in between: a subscript that is in bounds at the first position of its axis and at the last one is in bounds at all, so each
//! tuple has an element of the array. On an axis with one position nothing moves, and with two positions or more the numbers of the
//! alignment are differences of subscripts in bounds, so they are small.
//!
//! *Proved:* A copy has an element for each tuple of its space, wherever it lies: `copies_have_sizes`. Beside an array each of its positions
//! has exactly the owners of the element that is assigned there, with replicated arrays, strides, reversed order, fixed subscripts and every
//! format: `copies_lie_beside`. One of one dimension that lies beside nothing is the nodes' pieces in a row:
//! `copies_lie_in_blocks`. Each element has an owner: `copies_are_dealt`. Its layout depends on the anchor's row alone: `copies_keep`.
//! It is valid, with numbers of 64 bits, where that of the array is: `copies_are_laid`, `copies_fit`.
#![tactic(auto)]

mod promises;

pub use promises::{
    copies_are_dealt, copies_are_laid, copies_fit, copies_have_sizes, copies_keep,
    copies_lie_beside, copies_lie_in_blocks,
};

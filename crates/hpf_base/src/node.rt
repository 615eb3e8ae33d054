//! The nodes of a grid, by number.

/// A node's number, from 0. It is the place of the node among the elements of the grid, in array-element
/// order.
#[derive(Clone, Copy, PartialEq, Eq, PartialOrd, Ord)]
pub struct NodeId(pub u32);

//! What is assigned at the tuples of a space, beside which copies lie.

use crate::flat::Flat;

/// A subscript of what is assigned.
#[derive(Drop)]
pub enum AnchorSub {
    /// A value, in which the axes of the space may stand.
    At(Flat),
    /// A triplet, by its first value and its stride. It goes along the next axis of the space.
    Along(Flat, Flat),
}

/// The element of an array that is assigned at a tuple.
#[derive(Drop)]
pub struct FlatAnchor {
    /// The array, by the place of its name.
    pub array: usize,
    /// Its subscripts, the first dimension first.
    pub subscripts: Vec<AnchorSub>,
}

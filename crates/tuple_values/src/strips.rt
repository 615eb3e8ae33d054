//! Tuples at equal distances, and elements at equal distances.

use storage::Spot;

/// So many tuples by their numbers, each so many after the one before.
#[derive(Clone, Copy)]
pub struct Strip {
    pub first: usize,
    pub step: usize,
    pub count: usize,
}

/// Elements of a row, each so many positions after the one before.
#[derive(Clone, Copy)]
pub struct ElementLine {
    pub first: Spot,
    pub step: usize,
}

/// What the tuples of a strip read, in order, and what they assign, where something is: each tuple the next element of each line.
#[derive(Drop)]
pub struct StripLines {
    pub reads: Vec<ElementLine>,
    pub left: Option<ElementLine>,
}

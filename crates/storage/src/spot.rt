//! Elements by their row and position.

/// An element of an array or of a copy.
#[derive(Clone, Copy, PartialEq, Eq, PartialOrd, Ord)]
pub struct Spot {
    /// The row: the number of the array or of the copy, from 0.
    pub row: usize,
    /// The position, from 0, in array-element order (Fortran 95, 6.2.2.2).
    pub at: usize,
}

//! Who computes tuples.

/// Which nodes compute a tuple.
#[derive(Clone, Copy, PartialEq, Eq)]
pub enum Who {
    /// The owners of the element that is assigned; node 0 where that is none.
    Left,
    /// The least owner of the first element that is read; node 0 where there is none.
    First,
    /// Node 0.
    Root,
}

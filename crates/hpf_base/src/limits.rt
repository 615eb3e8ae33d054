//! The limits that every layer shares. A limit of one rule stands in the crate of the rule.

/// The greatest number of dimensions of an array (Fortran 95, 2.4.5).
pub const MAX_RANK: usize = 7;

/// The greatest magnitude of a declared bound.
pub const MAX_BOUND: u64 = 2_199_023_255_552;

/// The greatest number of elements of an array.
pub const MAX_ELEMENTS: u64 = 1_048_576;

/// The greatest number of nodes.
pub const MAX_NODES: u32 = 64;

//! The limits of a run: of the index tuples of its statements, and of the subscripts in their indices.

/// The greatest number of index tuples of an array statement, and of executions of a statement by a nest of INDEPENDENT loops.
pub const MAX_TUPLES: u64 = 1_048_576;

/// The greatest magnitude of the first and of the last value of an index.
pub const MAX_INDEX_VALUE: u64 = 2_199_023_255_552;

/// The greatest magnitude of a in a subscript `a*x + c` in an index x.
pub const MAX_FACTOR: u64 = 1_048_576;

/// The greatest magnitude of c in a subscript `a*x + c` in an index x.
pub const MAX_OFFSET: u64 = 2_199_023_255_552;

//! The limit of a source.

/// The greatest number of bytes of a source.
pub const MAX_SOURCE_BYTES: usize = 1_048_576;

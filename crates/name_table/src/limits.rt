//! The limit of indices.

/// The greatest number of indices of a FORALL, or of loops of a nest of INDEPENDENT loops.
pub const MAX_INDICES: usize = 7;

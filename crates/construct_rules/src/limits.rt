//! The limit of constructs.

/// The greatest number of constructs that are open at one place.
pub const MAX_NESTING: usize = 64;

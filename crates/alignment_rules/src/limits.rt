//! The limits of alignments.

/// The greatest magnitude of a in the subscript `a*I + b` that an ALIGN gives its target, also where alignments are composed.
pub const MAX_ALIGN_FACTOR: u64 = 1_099_511_627_776;

/// The greatest magnitude of b in the subscript `a*I + b` that an ALIGN gives its target, also where alignments are composed.
pub const MAX_ALIGN_OFFSET: u64 = 2_199_023_255_552;

//! The limits of templates and distribution formats.

/// The greatest extent of a dimension of a template.
pub const MAX_TEMPLATE_EXTENT: u64 = 1_099_511_627_776;

/// The greatest m of `BLOCK(m)`.
pub const MAX_BLOCK: u64 = 1_099_511_627_776;

/// The greatest k of `CYCLIC(k)`.
pub const MAX_CYCLIC: u64 = 65_536;

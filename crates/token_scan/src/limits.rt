//! The limit of a name.

/// The greatest number of bytes of a name (Fortran 95, 3.2.1). It is at most what a `Name` has room for.
pub const MAX_NAME_BYTES: usize = 31;

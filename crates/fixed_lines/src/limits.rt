//! The limit of lines in the fixed source form.

/// The greatest number of lines that continue one statement or directive in the fixed source form (Fortran 95, 3.3.2.3).
pub const MAX_FIXED_CONTINUATIONS: usize = 19;

//! The limits of lines in the free source form.

/// The greatest number of bytes of a line, without the line feed that ends it (Fortran 95, 3.3.1).
pub const MAX_LINE_BYTES: usize = 132;

/// The greatest number of lines of a text.
pub const MAX_LINES: u32 = 20_000;

/// The greatest number of lines that continue one statement or directive in the free source form (Fortran 95, 3.3.1.3).
pub const MAX_CONTINUATIONS: usize = 39;

/// The greatest number of bytes of a logical line: its first line and those that continue it, each with a blank after it.
pub const MAX_LOGICAL_LINE_BYTES: usize = 5_320;

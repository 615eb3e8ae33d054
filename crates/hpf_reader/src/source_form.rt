//! The two ways to write a text.

/// How the lines of a text are read (Fortran 95, 3.3).
#[derive(Clone, Copy, PartialEq, Eq)]
pub enum SourceForm {
    /// The free source form: a statement stands anywhere on its lines, and goes on after a `&` at the end of a line (3.3.1).
    Free,
    /// The fixed source form: a statement stands in columns 7 to 72, and goes on where column 6 is neither blank nor `0` (3.3.2).
    Fixed,
}

//! Logical lines.

use crate::bytes::Bytes;

/// What stands on a logical line.
#[derive(Clone, Copy, PartialEq, Eq)]
pub enum LineKind {
    /// A statement (Fortran 95, 3.3.1).
    Statement,
    /// What follows `!HPF$` (HPF 2.0, 2.3).
    Directive,
}

/// A statement or a directive: the number of its first line, from 1, and its bytes, where a blank stands between
/// the pieces of continued lines and where the statement's neighbours after `;`, comments and the `&` of
/// continuation are left out.
#[derive(Drop)]
pub struct LogicalLine {
    pub line: u32,
    pub kind: LineKind,
    pub bytes: Bytes,
}

/// The logical lines of a text, in order, and the number of lines that the text itself has, comments and empty ones
/// among them.
#[derive(Drop)]
pub struct LogicalLines {
    pub lines: Vec<LogicalLine>,
    pub line_count: u32,
}

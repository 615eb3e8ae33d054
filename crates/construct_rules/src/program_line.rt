//! Lines.

use directive_reader::DirectiveLine;
use statement_reader::Statement;

/// A statement or a directive, and the number of its line.
#[derive(Drop)]
pub struct ProgramLine {
    pub number: u32,
    pub what: LineContent,
}

/// What a line is.
#[derive(Drop)]
pub enum LineContent {
    Statement(Statement),
    Directive(DirectiveLine),
}

//! The lines of a text, one by one.

ghost use Rattle.std.specs.Prelude.{◌≡◌, IfOk};
ghost use Rattle.source_lines.specs.PhysicalLines as spec;
ghost use Rattle.source_lines.specs.PhysicalLines.{physical_kind, numbered_lines, physical_line};

use crate::blanks::all_blank;
use crate::limits::MAX_LINE_BYTES;
use crate::line::LineKind;
use crate::line_split::next_line;
use crate::marks::{content, is_lone_ampersand, line_kind};
use crate::parts::code_of;
use std::alloc::{AllocError, Global};
use std::marker::Model;

/// What a line of the text holds.
#[derive(Clone, Copy, PartialEq, Eq)]
pub(crate) enum PhysicalKind {
    /// Nothing, or a comment.
    Passed,
    /// A statement, or a part of one.
    Statement,
    /// A directive, or a part of one.
    Directive,
}

/// What the rules ask of a line: its number, from 1, what stands on it, and whether it breaks a rule by itself.
#[derive(Drop)]
pub(crate) struct PhysicalLine<'a> {
    number: usize,
    kind: PhysicalKind,
    code: &'a [u8],
    bad: bool,
}

impl<'a> Model for PhysicalLine<'a> {
    ghost Value = { spec.PhysicalLine };

    ghost view = { λ r. record { number = r.number; kind = r.kind; code = r.code.now; bad = r.bad } };
}

impl<'a> PhysicalLine<'a> {
    pub(crate) fn number(&self) -> usize
        ensures { result ≡ self.now.number }
    {
        self.number
    }

    pub(crate) fn kind(&self) -> PhysicalKind
        ensures { result ≡ self.now.kind }
    {
        self.kind
    }

    pub(crate) fn code(&self) -> &'a [u8]
        ensures { result.now ≡ self.now.code }
    {
        self.code
    }

    pub(crate) fn is_bad(&self) -> bool
        ensures { result ≡ self.now.bad }
    {
        self.bad
    }
}

/// What a line of this kind holds where this stands on it.
fn physical_kind(kind: LineKind, code: &[u8]) -> PhysicalKind
    ensures { result ≡ physical_kind kind code.now }
{
    match kind {
        LineKind::Directive => PhysicalKind::Directive,
        LineKind::Statement if all_blank(code) => PhysicalKind::Passed,
        LineKind::Statement => PhysicalKind::Statement,
    }
}

/// A line with this number.
fn physical_line(number: usize, bytes: &[u8]) -> PhysicalLine<'_>
    ensures { result ≡ physical_line number bytes.now }
{
    let kind = line_kind(bytes);
    let (code, bad) = code_of(kind, content(bytes));
    PhysicalLine {
        number,
        kind: physical_kind(kind, code),
        code,
        bad: bytes.len() > MAX_LINE_BYTES || bad || is_lone_ampersand(code),
    }
}

/// The lines of a text.
pub(crate) fn numbered_lines(
    alloc: Global,
    text: &[u8],
) -> Result<Vec<PhysicalLine<'_>>, AllocError>
    ensures { IfOk result (λ lines. lines.items ≡ numbered_lines text.now) }
{
    let mut lines = Vec::new(alloc);
    let mut rest = text;
    while let Some((line, after)) = next_line(rest) {
        lines.push(physical_line(lines.len() + 1, line))?;
        rest = after;
    }
    Ok(lines)
}

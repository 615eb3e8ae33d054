//! The lines of a text in fixed form, each alone.

ghost use Rattle.std.specs.Prelude.{◌≡◌, ◌==◌, ◌≤◌, ◌||◌, IfOk, nat_le, not};
ghost use Rattle.std.specs.List.{list_any};
ghost use Rattle.source_lines.specs.PhysicalLines.{is_control};
ghost use Rattle.fixed_lines.specs.FixedBreaches.{standing};
ghost use Rattle.fixed_lines.specs.FreeText.{blank_left, first_continues, with_code};
ghost use Rattle.fixed_lines.specs.FixedLines as spec;
ghost use Rattle.fixed_lines.specs.FixedLines.{begins_comment, columns, fixed_kind, fixed_line, has_comment_letter, has_mark, is_bad_margin, is_continuation, is_passed_over, numbered_lines, standing_line};

use crate::kind::FixedKind;
use crate::parts::code_of;
use source_lines::{MAX_LINE_BYTES, all_blank, is_blank, is_control, next_line, without_blanks};
use std::alloc::{AllocError, Global};
use std::marker::Model;

/// The bytes in these columns, counted from 1, as far as the line has them.
fn columns(from: usize, to: usize, line: &[u8]) -> &[u8]
    requires { 1 ≤ from }
    ensures { result.now ≡ columns from to line.now }
{
    let (front, _) = line.split_at(to.min(line.len()));
    let (_, rest) = front.split_at((from - 1).min(front.len()));
    rest
}

/// Columns 1 to 5 are the mark of a directive.
fn has_mark(line: &[u8]) -> bool
    ensures { result ≡ has_mark line.now }
{
    let [a, b, c, d, e, ..] = line else {
        return false;
    };
    let upper = [
        a.to_ascii_uppercase(),
        b.to_ascii_uppercase(),
        c.to_ascii_uppercase(),
        d.to_ascii_uppercase(),
        e.to_ascii_uppercase(),
    ];
    *b"!HPF$" == upper || *b"CHPF$" == upper || *b"*HPF$" == upper
}

/// Column 1 is `C`, `c` or `*`.
fn has_comment_letter(line: &[u8]) -> bool
    ensures { result ≡ has_comment_letter line.now }
{
    match line.first() {
        Some(b) => *b == b'C' || *b == b'c' || *b == b'*',
        None => false,
    }
}

/// The first byte that isn't blank is `!`, and doesn't stand in column 6.
fn begins_comment(line: &[u8]) -> bool
    ensures { result ≡ begins_comment line.now }
{
    without_blanks(line).starts_with(b"!") && line.len() - without_blanks(line).len() + 1 != 6
}

/// The line is blank or a comment.
fn is_passed_over(line: &[u8]) -> bool
    ensures { result ≡ is_passed_over line.now }
{
    let read = columns(1, 72, line);
    all_blank(read) || has_comment_letter(read) || begins_comment(read)
}

/// What the line holds.
fn fixed_kind(line: &[u8]) -> FixedKind
    ensures { result ≡ fixed_kind line.now }
{
    if has_mark(line) {
        FixedKind::Directive
    } else if is_passed_over(line) {
        FixedKind::Passed
    } else {
        FixedKind::Statement
    }
}

/// Column 6 is neither blank nor `0`.
fn is_continuation(line: &[u8]) -> bool
    ensures { result ≡ is_continuation line.now }
{
    columns(6, 6, line)
        .iter()
        .any(|b| !is_blank(*b) && *b != b'0')
}

/// Column 6 has a byte that may not be a mark of continuation.
fn is_bad_mark(line: &[u8]) -> bool
    ensures { result ≡ list_any (λ b. is_control b || b == 9 || nat_le 128 b) (columns 6 6 line.now) }
{
    columns(6, 6, line)
        .iter()
        .any(|b| is_control(*b) || *b == b'\t' || *b >= 128)
}

/// Columns 1 to 5 have something other than blanks.
fn is_labelled(line: &[u8]) -> bool
    ensures { result ≡ list_any (λ b. not (b == 32)) (columns 1 5 line.now) }
{
    columns(1, 5, line).iter().any(|b| *b != b' ')
}

/// Columns 1 to 6 are as they may not be on a line of this kind.
fn is_bad_margin(kind: FixedKind, line: &[u8]) -> bool
    ensures { result ≡ is_bad_margin kind line.now }
{
    match kind {
        FixedKind::Passed => false,
        FixedKind::Statement => is_labelled(line) || is_bad_mark(line),
        FixedKind::Directive => is_bad_mark(line),
    }
}

/// What the rules ask of a line: its number, from 1, what stands on it, and whether it breaks a rule by itself.
#[derive(Drop)]
pub(crate) struct FixedLine<'a> {
    number: usize,
    kind: FixedKind,
    continues: bool,
    code: &'a [u8],
    bad: bool,
}

impl<'a> Model for FixedLine<'a> {
    ghost Value = { spec.FixedLine };

    ghost view = { λ r. record { number = r.number; kind = r.kind; continues = r.continues; code = r.code.now; bad = r.bad } };
}

impl<'a> FixedLine<'a> {
    pub(crate) fn number(&self) -> usize
        ensures { result ≡ self.now.number }
    {
        self.number
    }

    pub(crate) fn is_bad(&self) -> bool
        ensures { result ≡ self.now.bad }
    {
        self.bad
    }

    pub(crate) fn kind(&self) -> FixedKind
        ensures { result ≡ self.now.kind }
    {
        self.kind
    }

    pub(crate) fn continues(&self) -> bool
        ensures { result ≡ self.now.continues }
    {
        self.continues
    }

    pub(crate) fn code(&self) -> &'a [u8]
        ensures { result.now ≡ self.now.code }
    {
        self.code
    }

    /// The line with something else on it.
    pub(crate) fn with_code<'b>(&self, code: &'b [u8]) -> FixedLine<'b>
        ensures { result ≡ with_code code.now self.now }
    {
        FixedLine {
            number: self.number,
            kind: self.kind,
            continues: self.continues,
            code,
            bad: self.bad,
        }
    }

    /// What is left of a directive line with nothing on it.
    pub(crate) fn left_blank(&self) -> FixedLine<'a>
        ensures { result ≡ blank_left self.now.continues self.now }
    {
        if self.continues {
            FixedLine {
                number: self.number,
                kind: FixedKind::Passed,
                continues: false,
                code: &self.code[..0],
                bad: self.bad,
            }
        } else {
            self.with_code(self.code)
        }
    }
}

/// A line that isn't passed over.
fn standing_line(number: usize, kind: FixedKind, bytes: &[u8]) -> FixedLine<'_>
    ensures { result ≡ standing_line number kind bytes.now }
{
    let (code, bad) = code_of(kind, columns(7, 72, bytes));
    FixedLine {
        number,
        kind,
        continues: is_continuation(bytes),
        code,
        bad: bytes.len() > MAX_LINE_BYTES || is_bad_margin(kind, bytes) || bad,
    }
}

/// A line with this number.
fn fixed_line(number: usize, bytes: &[u8]) -> FixedLine<'_>
    ensures { result ≡ fixed_line number bytes.now }
{
    match fixed_kind(bytes) {
        FixedKind::Passed => FixedLine {
            number,
            kind: FixedKind::Passed,
            continues: false,
            code: &bytes[..0],
            bad: bytes.len() > MAX_LINE_BYTES,
        },
        FixedKind::Statement => standing_line(number, FixedKind::Statement, bytes),
        FixedKind::Directive => standing_line(number, FixedKind::Directive, bytes),
    }
}

/// The lines of a text.
pub(crate) fn numbered_lines(alloc: Global, text: &[u8]) -> Result<Vec<FixedLine<'_>>, AllocError>
    ensures { IfOk result (λ lines. lines.items ≡ numbered_lines text.now) }
{
    let mut lines = Vec::new(alloc);
    let mut rest = text;
    while let Some((line, after)) = next_line(rest) {
        lines.push(fixed_line(lines.len() + 1, line))?;
        rest = after;
    }
    Ok(lines)
}

/// The first of the lines that aren't passed over continues.
pub(crate) fn first_continues(lines: &[FixedLine<'_>]) -> bool
    ensures { result ≡ first_continues (standing lines.now) }
{
    for line in lines {
        match line.kind() {
            FixedKind::Passed => {}
            FixedKind::Statement | FixedKind::Directive => return line.continues(),
        }
    }
    false
}

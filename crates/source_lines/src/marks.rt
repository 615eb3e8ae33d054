//! What a line begins with and ends with.

ghost use Rattle.std.specs.Prelude.{◌≡◌, ◌∷◌, [], map, codes, nat_eq};
ghost use Rattle.std.specs.Char.{to_ascii_uppercase};
ghost use Rattle.std.specs.List.{ends_with, starts_with};
ghost use Rattle.source_lines.specs.PhysicalLines.{content, is_lone_ampersand, line_kind, without_blanks_after, without_return};

use crate::blanks::{without_blanks, without_blanks_after};
use crate::line::LineKind;

/// The line without the carriage return that belongs to its end.
pub(crate) fn without_return(line: &[u8]) -> &[u8]
    ensures { result.now ≡ without_return line.now }
{
    line.strip_suffix(b"\r").unwrap_or(line)
}

/// The first bytes are the mark of a directive.
fn has_mark(bytes: &[u8]) -> bool
    ensures { result ≡ starts_with nat_eq (map to_ascii_uppercase bytes.now) (codes "!HPF$") }
{
    let [a, b, c, d, e, ..] = bytes else {
        return false;
    };
    let upper = [
        a.to_ascii_uppercase(),
        b.to_ascii_uppercase(),
        c.to_ascii_uppercase(),
        d.to_ascii_uppercase(),
        e.to_ascii_uppercase(),
    ];
    *b"!HPF$" == upper
}

/// Whether the line is of a directive or of statements.
pub(crate) fn line_kind(line: &[u8]) -> LineKind
    ensures { result ≡ line_kind line.now }
{
    if has_mark(without_blanks(line)) {
        LineKind::Directive
    } else {
        LineKind::Statement
    }
}

/// What stands after the mark of a directive, and all of any other line.
pub(crate) fn content(line: &[u8]) -> &[u8]
    ensures { result.now ≡ content line.now }
{
    let bytes = without_blanks(line);
    if has_mark(bytes) { &bytes[5..] } else { line }
}

/// The only thing on the line is `&`.
pub(crate) fn is_lone_ampersand(code: &[u8]) -> bool
    ensures { result ≡ is_lone_ampersand code.now }
{
    *without_blanks(without_blanks_after(code)) == *b"&".as_slice()
}

/// The last byte, blanks aside, is `&`.
pub(crate) fn is_continued(code: &[u8]) -> bool
    ensures { result ≡ ends_with nat_eq (without_blanks_after code.now) (38 ∷ []) }
{
    without_blanks_after(code).ends_with(b"&")
}

//! What stands on a line, and the parts of it that may not.

ghost use Rattle.std.specs.Prelude.{◌≡◌};
ghost use Rattle.std.specs.List.{list_any};
ghost use Rattle.source_lines.specs.PhysicalLines.{code_of, parts};
ghost use Rattle.fixed_lines.specs.FixedLines.{is_ampersand, is_bad_part_of};

use crate::kind::FixedKind;
use source_lines::{LineKind, is_bad_part, next_part};

/// The part is `&`.
fn is_ampersand(part: &[u8]) -> bool
    ensures { result ≡ is_ampersand part.now }
{
    *part == *b"&".as_slice()
}

/// A part that may not stand on a line of this kind in fixed form.
fn is_bad_part_of(kind: FixedKind, part: &[u8]) -> bool
    ensures { result ≡ is_bad_part_of kind part.now }
{
    match kind {
        FixedKind::Passed => false,
        FixedKind::Statement => is_bad_part(LineKind::Statement, part) || is_ampersand(part),
        FixedKind::Directive => is_bad_part(LineKind::Directive, part) || is_ampersand(part),
    }
}

/// What stands in the bytes, a comment apart, and whether a part of it may not stand there.
pub(crate) fn code_of(kind: FixedKind, bytes: &[u8]) -> (&[u8], bool)
    ensures code { result.0.now ≡ code_of bytes.now }
    ensures bad { result.1 ≡ list_any (is_bad_part_of kind) (parts bytes.now) }
{
    let mut rest = bytes;
    let mut bad = false;
    while let Some((part, after)) = next_part(rest) {
        bad |= is_bad_part_of(kind, part);
        rest = after;
    }
    (&bytes[..bytes.len() - rest.len()], bad)
}

//! The parts of bytes: text constants, a comment, and single bytes.

ghost use Rattle.std.specs.Prelude.{◌≡◌, ◌==◌, ◌<◌, position, ◌++◌, ◌∷◌, [], MatchOption, ⊤, length};
ghost use Rattle.std.specs.List.{list_any};
ghost use Rattle.source_lines.specs.PhysicalLines.{code_of, first_part, is_bad_part, is_bad_text, is_barred, is_control, is_delimiter, parts};

use crate::line::LineKind;

/// A byte that begins and ends a text constant.
fn is_delimiter(byte: u8) -> bool
    ensures { result ≡ is_delimiter byte }
{
    byte == b'\'' || byte == b'"'
}

/// The place of the first delimiter.
fn closing(delimiter: u8, bytes: &[u8]) -> Option<usize>
    ensures { result ≡ position (λ b. b == delimiter) bytes.now }
{
    bytes.iter().position(|b| *b == delimiter)
}

/// How many bytes the part at the front takes.
pub(crate) fn first_part(bytes: &[u8]) -> usize
    ensures { result ≡ first_part bytes.now }
{
    let Some((first, rest)) = bytes.split_first() else {
        return 0;
    };
    if is_delimiter(*first) {
        match closing(*first, rest) {
            Some(end) => end + 2,
            None => rest.len() + 1,
        }
    } else if *first == b'!' {
        rest.len() + 1
    } else {
        1
    }
}

/// A control byte other than tab.
pub fn is_control(byte: u8) -> bool
    ensures { result ≡ is_control byte }
{
    byte.is_ascii_control() && byte != b'\t'
}

/// A control byte other than tab stands among the bytes.
fn has_control(bytes: &[u8]) -> bool
    ensures { result ≡ list_any is_control bytes.now }
{
    bytes.iter().any(|b| is_control(*b))
}

/// A text constant, after its first delimiter, that isn't closed or holds a control byte.
fn is_bad_text(delimiter: u8, bytes: &[u8]) -> bool
    ensures { result ≡ is_bad_text delimiter bytes.now }
{
    !bytes.ends_with(&[delimiter]) || has_control(bytes)
}

/// A byte that may not stand on a line of this kind, though others may bear it.
fn is_barred(kind: LineKind, byte: u8) -> bool
    ensures { result ≡ is_barred kind byte }
{
    match kind {
        LineKind::Directive => byte == b';',
        LineKind::Statement => false,
    }
}

/// A part that may not stand on a line of this kind: a text constant that isn't closed or holds a control byte; another control byte than tab, or
/// a byte from 128; in a directive `;`.
pub fn is_bad_part(kind: LineKind, part: &[u8]) -> bool
    ensures { result ≡ is_bad_part kind part.now }
{
    let Some((first, rest)) = part.split_first() else {
        return false;
    };
    if is_delimiter(*first) {
        is_bad_text(*first, rest)
    } else {
        is_control(*first) || *first >= 128 || is_barred(kind, *first)
    }
}

/// The part at the front, which is a text constant or a single byte, and what is after it; None exactly where nothing or a comment is there. It
/// takes no memory.
pub fn next_part(bytes: &[u8]) -> Option<(&[u8], &[u8])>
    ensures whole { MatchOption result (parts bytes.now ≡ []) (λ x. parts bytes.now ≡ x.0.now ∷ parts x.1.now) }
    ensures shorter { MatchOption result ⊤ (λ x. (bytes.now ≡ x.0.now ++ x.1.now) × (length x.1.now < length bytes.now)) }
{
    let Some((first, _)) = bytes.split_first() else {
        return None;
    };
    if *first == b'!' {
        return None;
    }
    Some(bytes.split_at(first_part(bytes)))
}

/// What stands in the bytes, a comment apart, and whether a part of it may not stand there.
pub(crate) fn code_of(kind: LineKind, bytes: &[u8]) -> (&[u8], bool)
    ensures code { result.0.now ≡ code_of bytes.now }
    ensures bad { result.1 ≡ list_any (is_bad_part kind) (parts bytes.now) }
{
    let mut rest = bytes;
    let mut bad = false;
    while let Some((part, after)) = next_part(rest) {
        bad |= is_bad_part(kind, part);
        rest = after;
    }
    (&bytes[..bytes.len() - rest.len()], bad)
}

//! What the first byte says of a token.

ghost use Rattle.std.specs.Prelude.{◌≡◌};
ghost use Rattle.token_scan.specs.Tokens.{class_of};

/// What a byte begins.
#[derive(Clone, Copy)]
pub(crate) enum ByteClass {
    /// Nothing: it is a blank or a tab.
    Blank,
    /// A word.
    Letter,
    /// A literal.
    Digit,
    /// A character constant.
    Delimiter,
    /// A word between periods.
    Period,
    /// An operator or a delimiter, or nothing.
    Other,
}

/// What a byte begins.
pub(crate) fn class_of(byte: u8) -> ByteClass
    ensures { result ≡ class_of byte }
{
    if byte == b' ' || byte == b'\t' {
        ByteClass::Blank
    } else if byte.is_ascii_alphabetic() {
        ByteClass::Letter
    } else if byte.is_ascii_digit() {
        ByteClass::Digit
    } else if byte == b'\'' || byte == b'"' {
        ByteClass::Delimiter
    } else if byte == b'.' {
        ByteClass::Period
    } else {
        ByteClass::Other
    }
}

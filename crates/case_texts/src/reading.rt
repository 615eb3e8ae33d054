//! The bytes of a written text.

ghost use Rattle.std.specs.Prelude.{◌≡◌, ◌<◌, IfOk};
ghost use Rattle.case_texts.specs.declared.reading.TextError.TheVariants.{Memory};

use std::alloc::{AllocError, AllocFailed, Global};

/// Why there are no bytes: nothing is written so, or a growth was refused.
#[derive(Clone, Copy, Debug, PartialEq, Eq)]
pub enum TextError {
    Malformed,
    Memory,
}

impl From<AllocError> for TextError {
    ghost from_gives = { λ _ e. e ≡ Memory };

    fn from(_error: AllocError) -> TextError {
        TextError::Memory
    }
}

impl<T: Drop> From<AllocFailed<T>> for TextError {
    ghost from_gives = { λ _ e. e ≡ Memory };

    fn from(_error: AllocFailed<T>) -> TextError {
        TextError::Memory
    }
}

/// The bytes of a text that is written so. `Malformed` comes where an escape or a repetition is begun and isn't of its
/// form, `Memory` only where a growth was refused.
pub fn text_of(alloc: Global, written: &str) -> Result<Vec<u8>, TextError> {
    let mut text = Vec::new(alloc);
    for (i, piece) in written.split('{').enumerate() {
        let plain = if i == 0 {
            piece
        } else {
            push_repeated(&mut text, piece)?
        };
        push_plain(&mut text, plain)?;
    }
    Ok(text)
}

/// Adds the repetition that stands in front, after its opening brace, and gives what stands after it.
fn push_repeated<'a>(text: &mut Vec<u8>, written: &'a str) -> Result<&'a str, TextError> {
    let Some((repetition, rest)) = written.split_once('}') else {
        return Err(TextError::Malformed);
    };
    let Some((times, repeated)) = repetition.split_once('*') else {
        return Err(TextError::Malformed);
    };
    let Ok(times) = times.parse::<u32>() else {
        return Err(TextError::Malformed);
    };
    for _ in 0..times {
        push_plain(text, repeated)?;
    }
    Ok(rest)
}

/// Adds the bytes of a text without repetitions.
fn push_plain(text: &mut Vec<u8>, written: &str) -> Result<(), TextError> {
    for (i, piece) in written.split('\\').enumerate() {
        let bytes = piece.as_bytes();
        let plain = if i == 0 {
            bytes
        } else {
            push_escaped(text, bytes)?
        };
        for byte in plain {
            text.push(if *byte == b'|' { b'\n' } else { *byte })?;
        }
    }
    Ok(())
}

/// Adds the byte of the escape that stands in front, after its backslash, and gives what stands after it.
fn push_escaped<'a>(text: &mut Vec<u8>, written: &'a [u8]) -> Result<&'a [u8], TextError> {
    match written {
        [b'x', high, low, rest @ ..] => {
            text.push(digit(*high)? * 16 + digit(*low)?)?;
            Ok(rest)
        }
        _ => Err(TextError::Malformed),
    }
}

/// The value of a hexadecimal digit.
fn digit(byte: u8) -> Result<u8, TextError>
    ensures { IfOk result (λ value. value < 16) }
{
    match byte {
        b'0'..=b'9' => Ok(byte - b'0'),
        b'a'..=b'f' => Ok(byte - b'a' + 10),
        _ => Err(TextError::Malformed),
    }
}

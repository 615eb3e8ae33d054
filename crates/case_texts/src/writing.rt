//! Bytes and refusals as cases write them.

use hpf_base::{Refusal, StaticError};
use std::alloc::AllocError;
use std::fmt::Write;

/// Writes bytes so that `text_of` gives them back.
pub fn write_text(out: &mut String, bytes: &[u8]) -> Result<(), AllocError> {
    for byte in bytes {
        match *byte {
            b'\n' => out.push('|')?,
            b'|' | b'\\' | b'{' | b'}' => write!(out, "\\x{byte:02x}")?,
            b' '..=b'~' => out.push(char::from(*byte))?,
            _ => write!(out, "\\x{byte:02x}")?,
        }
    }
    Ok(())
}

/// Writes a refusal, with its line and the number and the name of its reason.
pub fn write_error(out: &mut String, error: StaticError) -> Result<(), AllocError> {
    match error {
        StaticError::Refused(Refusal { line, reason }) => writeln!(
            out,
            "  line {line}: refused {} {}",
            reason.number(),
            reason.name()
        ),
        StaticError::Memory => out.push_str("  out of memory\n"),
    }
}

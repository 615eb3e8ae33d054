//! What the program comes to, as answers write it.

use crate::call::Answer;
use case_texts::write_text;
use std::alloc::AllocError;
use std::fmt::Write;

/// Writes the status, how many bytes the source has left, and what was written.
pub fn write_answer(out: &mut String, answer: &Answer) -> Result<(), AllocError> {
    writeln!(
        out,
        "  status {}, {} bytes left",
        answer.status, answer.left
    )?;
    write_held(out, "out", answer.out.bytes())?;
    write_held(out, "err", answer.err.bytes())
}

/// Writes the bytes that a sink holds, where it holds any.
fn write_held(out: &mut String, name: &str, bytes: &[u8]) -> Result<(), AllocError> {
    if !bytes.is_empty() {
        write!(out, "  {name} ")?;
        write_text(out, bytes)?;
        out.push_str("\n")?;
    }
    Ok(())
}

//! A line and those that continue it, joined.

ghost use Rattle.std.specs.Prelude.{◌≡◌, IfOk};
ghost use Rattle.source_lines.specs.LogicalLines.{body, continuing_body, joined_bytes};

use crate::blanks::{without_blanks, without_blanks_after};
use crate::physical_lines::PhysicalLine;
use std::alloc::{AllocError, Global};

/// What a line gives to its logical line.
fn body<'a>(line: &PhysicalLine<'a>) -> &'a [u8]
    ensures { result.now ≡ body line.now }
{
    let code = line.code();
    match without_blanks_after(code).strip_suffix(b"&") {
        Some(body) => body,
        None => code,
    }
}

/// What a line that continues another gives to their logical line.
fn continuing_body<'a>(line: &PhysicalLine<'a>) -> &'a [u8]
    ensures { result.now ≡ continuing_body line.now }
{
    let body = body(line);
    match without_blanks(body).strip_prefix(b"&") {
        Some(rest) => rest,
        None => body,
    }
}

/// The bytes of a line and of those that continue it.
pub(crate) fn joined_bytes(
    alloc: Global,
    line: &PhysicalLine<'_>,
    lines: &[PhysicalLine<'_>],
) -> Result<Vec<u8>, AllocError>
    ensures { IfOk result (λ bytes. bytes.items ≡ joined_bytes line.now lines.now) }
{
    let mut bytes = Vec::from_slice(alloc, body(line))?;
    for line in lines {
        bytes.push(b' ')?;
        bytes.extend_from_slice(continuing_body(line))?;
    }
    Ok(bytes)
}

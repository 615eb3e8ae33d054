//! The logical lines of a text.

ghost use Rattle.std.specs.Prelude.{◌≡◌, ◌≤◌, All, IfOk, IfErr, OnOk, length};
ghost use Rattle.hpf_base.specs.Refusal.{IsRefusalBy, NoBreach};
ghost use Rattle.source_lines.specs.Breaches.{IsLineBreach};
ghost use Rattle.source_lines.specs.LogicalLines.{logical_lines};
ghost use Rattle.source_lines.specs.PhysicalLines.{physical_lines};

use crate::breach::first_breach;
use crate::groups::{lines_in, standing};
use crate::limits::MAX_LOGICAL_LINE_BYTES;
use crate::line::LogicalLines;
use crate::physical_lines::numbered_lines;
use hpf_base::StaticError;
use std::alloc::Global;

/// The statements and directives of a text in the free form (Fortran 95, 3.3.1; HPF 2.0, 2.3), in order, each with
/// the number of its first line, from 1, and the number of the text's lines. A text is any bytes; its lines end at line
/// feeds, and a carriage return in front of one belongs to the line's end.
///
/// `Refused` comes exactly where a line breaks a rule, with the first such line and, of its reasons, the least:
///
/// - `BadLine`: a line of more than `MAX_LINE_BYTES`; a control byte other than tab, outside a comment; a byte from 128,
///   outside comments and text constants; a text constant that isn't closed on its line; a line with `&` alone; a
///   line with `&` at its end that nothing continues; `;` in a directive.
/// - `Limit`: the line after `MAX_LINES`, and a line after `MAX_CONTINUATIONS` that continue the same one.
///
/// `Memory` comes only where a growth was refused.
pub fn logical_lines(alloc: Global, text: &[u8]) -> Result<LogicalLines, StaticError>
    ensures lines { IfOk result (λ found. found.lines.items ≡ logical_lines text.now) }
    ensures count { IfOk result (λ found. found.line_count ≡ length (physical_lines text.now)) }
    ensures short { IfOk result (λ found. All (λ line. length line.bytes ≤ MAX_LOGICAL_LINE_BYTES) found.lines.items) }
    ensures fine { OnOk result (NoBreach (IsLineBreach text.now)) }
    ensures refused { IfErr result (IsRefusalBy (IsLineBreach text.now)) }
{
    let physical = numbered_lines(alloc, text)?;
    if let Some(refusal) = first_breach(&physical) {
        return Err(StaticError::Refused(refusal));
    }
    let line_count = physical.len() as u32;
    let lines = lines_in(alloc, &standing(physical))?;
    Ok(LogicalLines { lines, line_count })
}

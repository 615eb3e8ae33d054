//! The statements of a logical line.

ghost use Rattle.std.specs.Prelude.{◌≡◌, ◌≤◌, ◌<◌, ◌++◌, ◌∷◌, [], MatchOption, OnOk, length, map, take, drop, slice_index, ⊤};
ghost use Rattle.source_lines.specs.LogicalLines.{between_semicolons, logical_line, statements, with_part, without_empty};
ghost use Rattle.source_lines.specs.Steps.{IsFirstStatement, IsLastStatement};

use crate::blanks::all_blank;
use crate::bytes::Bytes;
use crate::line::{LineKind, LogicalLine};
use crate::parts::first_part;
use std::alloc::{AllocError, Global};

/// How many bytes stand before the first `;` outside of text constants.
fn statement_len(bytes: &[u8]) -> usize
    ensures within { result ≤ length bytes.now }
    ensures stops { result < length bytes.now → slice_index bytes.now result ≡ 59 }
    ensures parts { between_semicolons bytes.now ≡ with_part (take result bytes.now) (between_semicolons (drop result bytes.now)) }
{
    let mut done = 0;
    while done < bytes.len() && bytes[done] != b';' {
        done += first_part(&bytes[done..]);
    }
    done
}

/// The first of the statements, and what is after its `;`, if there is one.
fn first_statement(bytes: &[u8]) -> (&[u8], Option<&[u8]>)
    ensures split { MatchOption result.1 (IsLastStatement bytes.now result.0.now) (λ rest. IsFirstStatement bytes.now result.0.now rest.now) }
    ensures shorter { MatchOption result.1 ⊤ (λ rest. length rest.now < length bytes.now) }
{
    let (statement, rest) = bytes.split_at(statement_len(bytes));
    match rest.split_first() {
        Some((_, after)) => (statement, Some(after)),
        None => (statement, None),
    }
}

/// A logical line after the others.
pub(crate) fn push_line(
    alloc: Global,
    line: u32,
    kind: LineKind,
    bytes: &[u8],
    lines: &mut Vec<LogicalLine>,
) -> Result<(), AllocError>
    ensures { OnOk result (lines.new.items ≡ lines.old.items ++ logical_line line kind bytes.now ∷ []) }
{
    let bytes = Bytes::new(Vec::from_slice(alloc, bytes)?);
    lines.push(LogicalLine { line, kind, bytes })?;
    Ok(())
}

/// A statement after the other lines, unless it is empty.
fn push_statement(
    alloc: Global,
    line: u32,
    statement: &[u8],
    lines: &mut Vec<LogicalLine>,
) -> Result<(), AllocError>
    ensures { OnOk result (lines.new.items ≡ lines.old.items ++ map (logical_line line LineKind.Statement) (without_empty (statement.now ∷ []))) }
{
    if all_blank(statement) {
        return Ok(());
    }
    push_line(alloc, line, LineKind::Statement, statement, lines)
}

/// The statements of bytes, after the other lines.
pub(crate) fn push_statements(
    alloc: Global,
    line: u32,
    bytes: &[u8],
    lines: &mut Vec<LogicalLine>,
) -> Result<(), AllocError>
    ensures { OnOk result (lines.new.items ≡ lines.old.items ++ map (logical_line line LineKind.Statement) (statements bytes.now)) }
{
    let mut rest = Some(bytes);
    while let Some(bytes) = rest {
        let (statement, after) = first_statement(bytes);
        push_statement(alloc, line, statement, lines)?;
        rest = after;
    }
    Ok(())
}

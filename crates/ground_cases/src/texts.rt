//! Where tokens stand in their line, and expressions that nest as deeply as a statement lets them: they are read and let go in the stack of
//! a process.

use case_texts::TextError;
use expr_reader::front_expr;
use hpf_base::StaticError;
use source_lines::{Bytes, LineKind, LogicalLine, Token};
use std::alloc::{AllocError, Global};
use std::fmt::Write;
use token_scan::tokens;

/// The greatest number of bytes of a statement of 40 lines.
const LENGTH: usize = 40 * 132;

/// The tokens of a statement.
fn tokens_of(alloc: Global, text: Vec<u8>) -> Result<Vec<Token>, TextError> {
    if text.len() > LENGTH {
        return Err(TextError::Malformed);
    }
    let line = LogicalLine {
        line: 1,
        kind: LineKind::Statement,
        bytes: Bytes::new(text),
    };
    match tokens(alloc, &line) {
        Ok(tokens) => Ok(tokens),
        Err(StaticError::Memory) => Err(TextError::Memory),
        Err(StaticError::Refused(_)) => Err(TextError::Malformed),
    }
}

/// Writes where each token begins and ends, from 0.
pub fn write_places(alloc: Global, out: &mut String, text: Vec<u8>) -> Result<(), TextError> {
    let tokens = tokens_of(alloc, text)?;
    write_places_of(out, &tokens)
}

fn write_places_of(out: &mut String, tokens: &[Token]) -> Result<(), TextError> {
    out.push_str(" ")?;
    for token in tokens {
        write!(out, " {}-{}", token.from, token.to)?;
    }
    out.push_str("\n")?;
    Ok(())
}

/// Writes how many tokens stand after the expression in front.
pub fn write_left(alloc: Global, out: &mut String, text: Vec<u8>) -> Result<(), TextError> {
    let tokens = tokens_of(alloc, text)?;
    write_left_after(alloc, out, &tokens)
}

fn write_left_after(alloc: Global, out: &mut String, tokens: &[Token]) -> Result<(), TextError> {
    let rest = left_after(alloc, tokens)?;
    write_rest(out, rest)?;
    Ok(())
}

/// How many tokens stand after the expression in front; None where none begins there.
fn left_after(alloc: Global, tokens: &[Token]) -> Result<Option<usize>, AllocError> {
    let read = front_expr(alloc, tokens)?;
    Ok(read.map(|(_, rest)| rest.len()))
}

fn write_rest(out: &mut String, rest: Option<usize>) -> Result<(), AllocError> {
    match rest {
        Some(count) => writeln!(out, "  {count} left"),
        None => out.push_str("  none\n"),
    }
}

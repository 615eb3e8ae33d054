//! The tables of words, and what signs and operators are by them.

use op_tables::{Op, dot_word, intrinsic_word, is_reserved, symbol};
use source_lines::TokenKind;
use std::alloc::AllocError;
use std::fmt::Write;
use syntax_tree::{binary, intrinsic, left_place, level, right_place, sign_of, unary};

/// Writes what a spelling is by the tables.
pub fn write_word(out: &mut String, spelling: &[u8]) -> Result<(), AllocError> {
    out.push_str(" ")?;
    if let Some(code) = dot_word(spelling) {
        write!(out, " dot {code}")?;
        write_sign(out, &TokenKind::Dot(code))?;
    }
    if let Some(code) = symbol(spelling) {
        write!(out, " symbol {code}")?;
        write_sign(out, &TokenKind::Symbol(code))?;
    }
    if let Some(code) = intrinsic_word(spelling) {
        write!(out, " intrinsic {code}")?;
    }
    if let Some(op) = intrinsic(spelling) {
        write!(out, " {op:?}")?;
    }
    out.push_str(if is_reserved(spelling) {
        " reserved\n"
    } else {
        " free\n"
    })
}

/// Writes the sign with this code in the table of words between periods.
pub fn write_dot(out: &mut String, written: &str) -> Result<(), AllocError> {
    write_code(out, TokenKind::Dot(written.parse::<u16>().unwrap_or(0)))
}

/// Writes the sign with this code in the table of symbols.
pub fn write_symbol(out: &mut String, written: &str) -> Result<(), AllocError> {
    write_code(out, TokenKind::Symbol(written.parse::<u16>().unwrap_or(0)))
}

fn write_code(out: &mut String, kind: TokenKind) -> Result<(), AllocError> {
    out.push_str(" ")?;
    write_sign(out, &kind)?;
    out.push_str("\n")
}

/// Writes the sign that a token is, and the operators that the sign is.
fn write_sign(out: &mut String, kind: &TokenKind) -> Result<(), AllocError> {
    let Some(sign) = sign_of(kind) else {
        return out.push_str(" no sign");
    };
    write!(out, " {sign:?}")?;
    if let Some(op) = binary(sign) {
        write_operator(out, "between", op)?;
    }
    if let Some(op) = unary(sign) {
        write_operator(out, "before", op)?;
    }
    Ok(())
}

/// Writes an operator, how tightly it binds, and how tightly its operands have to.
fn write_operator(out: &mut String, place: &str, op: Op) -> Result<(), AllocError> {
    write!(
        out,
        ", {place} {op:?} {} ({} {})",
        level(op),
        left_place(op),
        right_place(op)
    )
}

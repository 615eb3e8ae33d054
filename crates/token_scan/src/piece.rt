//! What stands at the front of bytes.

ghost use Rattle.std.specs.Prelude.{◌≡◌, ◌<◌, IfOk, length};
ghost use Rattle.token_scan.specs.Pieces.{IsPiece};
ghost use Rattle.token_scan.specs.Tokens.{first_class};

use crate::byte_class::{ByteClass, class_of};
use crate::case::upper_case;
use crate::limits::MAX_NAME_BYTES;
use crate::number::value_of;
use crate::quoted::quoted;
use crate::run::{Run, run_len};
use crate::table_word::{MAX_DOT_BYTES, Words, longest_word};
use hpf_base::Name;
use source_lines::{Bytes, TokenKind};
use std::alloc::{AllocError, Global};

/// What stands at the front.
pub(crate) enum Piece {
    /// One blank.
    Blank,
    /// A token of so many bytes.
    Token(usize, TokenKind),
    /// A token of so many bytes that is past its limit.
    PastLimit(usize),
    /// Bytes with a piece, here or after, that is no token.
    NoToken,
}

/// A word: letters, digits and underscores.
fn word(alloc: Global, bytes: &[u8]) -> Result<Piece, AllocError>
    requires { first_class bytes.now ≡ ByteClass.Letter }
    ensures { IfOk result (IsPiece bytes.now) }
{
    let len = run_len(Run::Word, bytes);
    if len > MAX_NAME_BYTES {
        return Ok(Piece::PastLimit(len));
    }
    let upper = upper_case(alloc, &bytes[..len])?;
    match Name::new(&upper) {
        Some(name) => Ok(Piece::Token(len, TokenKind::Word(name))),
        None => Ok(Piece::PastLimit(len)),
    }
}

/// A literal: digits.
fn integer(bytes: &[u8]) -> Piece
    requires { first_class bytes.now ≡ ByteClass.Digit }
    ensures { IsPiece bytes.now result }
{
    let len = run_len(Run::Digits, bytes);
    match value_of(&bytes[..len]) {
        Some(value) => Piece::Token(len, TokenKind::Integer(value)),
        None => Piece::PastLimit(len),
    }
}

/// A character constant: what stands between delimiters, and so on after each that is doubled.
fn text(alloc: Global, bytes: &[u8]) -> Result<Piece, AllocError>
    requires { first_class bytes.now ≡ ByteClass.Delimiter }
    ensures { IfOk result (IsPiece bytes.now) }
{
    let delimiter = bytes[0];
    let Some(run) = quoted(delimiter, bytes) else {
        return Ok(Piece::NoToken);
    };
    let mut characters = Vec::from_slice(alloc, run)?;
    let mut len = run.len() + 2;
    while let Some(run) = quoted(delimiter, &bytes[len..]) {
        characters.push(delimiter)?;
        characters.extend_from_slice(run)?;
        len += run.len() + 2;
    }
    Ok(Piece::Token(len, TokenKind::Text(Bytes::new(characters))))
}

/// A word between periods.
fn dot(alloc: Global, bytes: &[u8]) -> Result<Piece, AllocError>
    requires { first_class bytes.now ≡ ByteClass.Period }
    ensures { IfOk result (IsPiece bytes.now) }
{
    let front = upper_case(alloc, &bytes[..bytes.len().min(MAX_DOT_BYTES)])?;
    match longest_word(Words::Dots, &front) {
        Some((len, code)) => Ok(Piece::Token(len, TokenKind::Dot(code))),
        None => Ok(Piece::NoToken),
    }
}

/// An operator or a delimiter.
fn other(bytes: &[u8]) -> Piece
    requires some { 0 < length bytes.now }
    requires class { first_class bytes.now ≡ ByteClass.Other }
    ensures { IsPiece bytes.now result }
{
    match longest_word(Words::Symbols, bytes) {
        Some((len, code)) => Piece::Token(len, TokenKind::Symbol(code)),
        None => Piece::NoToken,
    }
}

/// The piece at the front.
pub(crate) fn first_piece(alloc: Global, bytes: &[u8]) -> Result<Piece, AllocError>
    requires { 0 < length bytes.now }
    ensures { IfOk result (IsPiece bytes.now) }
{
    match class_of(bytes[0]) {
        ByteClass::Blank => Ok(Piece::Blank),
        ByteClass::Letter => word(alloc, bytes),
        ByteClass::Digit => Ok(integer(bytes)),
        ByteClass::Delimiter => text(alloc, bytes),
        ByteClass::Period => dot(alloc, bytes),
        ByteClass::Other => Ok(other(bytes)),
    }
}

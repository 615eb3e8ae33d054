//! Tokens (Fortran 95, 3.2).

use crate::bytes::Bytes;
use hpf_base::Name;

/// A token of a logical line: its bytes are those from the place `from`, counted from 0, to the place before `to`.
#[derive(Drop)]
pub struct Token {
    pub from: u32,
    pub to: u32,
    pub kind: TokenKind,
}

/// What a token is.
#[derive(Drop)]
pub enum TokenKind {
    /// A keyword or a name, in upper case.
    Word(Name),
    /// The value of digits.
    Integer(i64),
    /// The characters of a character constant, its delimiters apart.
    Text(Bytes),
    /// A word between periods, by its code in the table of these words.
    Dot(u16),
    /// An operator or a delimiter, by its code in the table of symbols.
    Symbol(u16),
}

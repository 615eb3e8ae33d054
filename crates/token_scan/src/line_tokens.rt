//! The tokens of a line.

ghost use Rattle.std.specs.Prelude.{◌≡◌, ◌<◌, ◌≤◌, ◌^◌, IfErr, IfOk, OnOk, length};
ghost use Rattle.hpf_base.specs.Refusal.{IsRefusalBy, NoBreach};
ghost use Rattle.token_scan.specs.Tokens.{IsTokenBreach, tokens};

use crate::piece::{Piece, first_piece};
use hpf_base::{Reason, StaticError};
use source_lines::{LogicalLine, Token, TokenKind};
use std::alloc::Global;

/// The tokens of a line, from left to right, each the longest that fits at its place, with that place (Fortran 95, 3.2,
/// 3.3.1, 4.3.1.1 and 4.3.2.1). Blanks and tabs separate tokens and stand in none but texts. A word is given in upper
/// case; a doubled delimiter in a text stands for one.
///
/// `Refused` comes exactly where a piece of the line breaks a rule, with the line's number and the least reason:
///
/// - `BadLine`: a piece that is no token.
/// - `Limit`: a word of more than `MAX_NAME_BYTES`, or a literal above 2^63 - 1.
///
/// `Memory` comes only where a growth was refused.
pub fn tokens(alloc: Global, line: &LogicalLine) -> Result<Vec<Token>, StaticError>
    requires { length line.now.bytes < 2 ^ 32 }
    ensures tokens { IfOk result (λ ts. ts.items ≡ tokens line.now.bytes) }
    ensures fine { OnOk result (NoBreach (IsTokenBreach line.now)) }
    ensures refused { IfErr result (IsRefusalBy (IsTokenBreach line.now)) }
{
    let bytes = line.bytes.as_slice();
    let mut found = Vec::new(alloc);
    let mut is_past_limit = false;
    let mut place = 0;
    while place < bytes.len() {
        match first_piece(alloc, &bytes[place..])? {
            Piece::Blank => place += 1,
            Piece::Token(len, kind) => {
                found.push(token(place, place + len, kind))?;
                place += len;
            }
            Piece::PastLimit(len) => {
                is_past_limit = true;
                place += len;
            }
            Piece::NoToken => return Err(StaticError::at(line.line, Reason::BadLine)),
        }
    }
    if is_past_limit {
        Err(StaticError::at(line.line, Reason::Limit))
    } else {
        Ok(found)
    }
}

/// The token between two places.
fn token(from: usize, to: usize, kind: TokenKind) -> Token
    requires within { to < 2 ^ 32 }
    requires ordered { from ≤ to }
    ensures { result ≡ record { from = from; to = to; kind = kind } }
{
    Token {
        from: from as u32,
        to: to as u32,
        kind,
    }
}

//! The tokens of all lines.

ghost use Rattle.std.specs.Prelude.{◌≡◌, ◌≤◌, All, IfErr, IfNone, IfOk, OnOk, length, map};
ghost use Rattle.source_lines.specs.declared.limits.TheConstants.{MAX_LOGICAL_LINE_BYTES};
ghost use Rattle.hpf_base.specs.FirstBreach.{IsFirstOrNone};
ghost use Rattle.hpf_base.specs.Refusal.{IsRefusalBy, NoBreach};
ghost use Rattle.syntax_tree.specs.Lexeme.{lexemes};
ghost use Rattle.token_scan.specs.Tokens.{IsTokenBreach};
ghost use Rattle.hpf_reader.specs.OneMore.{IsScanned};
ghost use Rattle.hpf_reader.specs.ProgramText.{LexemeLine, TokensBreak, lexeme_line};

use hpf_base::{Refusal, StaticError, earlier};
use source_lines::{LineKind, LogicalLine, Token};
use std::alloc::{AllocError, Global};
use std::marker::Model;
use token_scan::tokens;

/// A logical line as its tokens. Contracts see its lexemes.
#[derive(Drop)]
pub(crate) struct TokenLine {
    pub number: u32,
    pub kind: LineKind,
    pub tokens: Vec<Token>,
}

impl Model for TokenLine {
    ghost Value = { LexemeLine };

    ghost view = { λ l. record { number = l.number; kind = l.kind; lexemes = lexemes l.tokens.items } };
}

/// The tokens of a line, after those of the lines before it; or why it isn't made of tokens.
fn add_tokens(
    alloc: Global,
    line: &LogicalLine,
    scanned: &mut Vec<TokenLine>,
) -> Result<Option<Refusal>, AllocError>
    requires { length line.now.bytes ≤ MAX_LOGICAL_LINE_BYTES }
    ensures first { IfOk result (IsFirstOrNone (IsTokenBreach line.now)) }
    ensures added { IfOk result (λ first. IfNone first (IsScanned line.now scanned.old.items scanned.new.items)) }
{
    match tokens(alloc, line) {
        Ok(tokens) => {
            let number = line.line;
            let kind = line.kind;
            scanned.push(TokenLine {
                number,
                kind,
                tokens,
            })?;
            Ok(None)
        }
        Err(StaticError::Refused(refusal)) => Ok(Some(refusal)),
        Err(StaticError::Memory) => Err(AllocError),
    }
}

/// The tokens of each line; else the refusal is that of the first line that isn't made of tokens.
pub(crate) fn scan(alloc: Global, lines: &[LogicalLine]) -> Result<Vec<TokenLine>, StaticError>
    requires { All (λ line. length line.bytes ≤ MAX_LOGICAL_LINE_BYTES) lines.now }
    ensures read { IfOk result (λ v. v.items ≡ map lexeme_line lines.now) }
    ensures fine { OnOk result (NoBreach (TokensBreak lines.now)) }
    ensures refused { IfErr result (IsRefusalBy (TokensBreak lines.now)) }
{
    let mut scanned = Vec::new(alloc);
    let mut first = None;
    for line in lines {
        first = earlier(first, add_tokens(alloc, line, &mut scanned)?);
    }
    match first {
        Some(refusal) => Err(StaticError::Refused(refusal)),
        None => Ok(scanned),
    }
}

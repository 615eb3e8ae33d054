//! Lines that the language leaves out.

ghost use Rattle.std.specs.Prelude.{◌≡◌, bytes_eq, codes};
ghost use Rattle.syntax_tree.specs.Lexeme.{lexemes};
ghost use Rattle.statement_reader.specs.LeftOut.{begins_left_out, is_left_out_do};

use line_forms::{is_sign, is_word};
use op_tables::left_out_word;
use source_lines::{Token, TokenKind};
use syntax_tree::Sign;

/// Whether a label, a keyword that is left out, the name of a construct or a DO that is left out begins the line.
pub(crate) fn begins_left_out(tokens: &[Token]) -> bool
    ensures { result ≡ begins_left_out (lexemes tokens.now) }
{
    let Some((first, rest)) = tokens.split_first() else {
        return false;
    };
    match &first.kind {
        TokenKind::Integer(_) => true,
        TokenKind::Word(word) => {
            left_out_word(word.bytes()).is_some()
                || is_sign(rest, Sign::Colon)
                || (is_do(word.bytes()) && is_left_out_do(rest))
        }
        _ => false,
    }
}

/// Whether a word is DO.
fn is_do(word: &[u8]) -> bool
    ensures { result ≡ bytes_eq (codes "DO") word.now }
{
    b"DO".as_slice() == word
}

/// Whether a DO with these tokens after it is left out.
fn is_left_out_do(tokens: &[Token]) -> bool
    ensures { result ≡ is_left_out_do (lexemes tokens.now) }
{
    let Some((first, _)) = tokens.split_first() else {
        return true;
    };
    match &first.kind {
        TokenKind::Integer(_) => true,
        _ => is_word(tokens, b"WHILE"),
    }
}

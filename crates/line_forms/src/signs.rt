//! The tokens ahead.

ghost use Rattle.std.specs.Prelude.{◌≡◌, ◌≤◌, [], ◌∷◌, length, drop, IsTrue};
ghost use Rattle.syntax_tree.specs.Lexeme.{Word, Fixed, lexeme_of, lexemes};
ghost use Rattle.syntax_tree.specs.declared.sign.Sign.TheVariants.{Comma};
ghost use Rattle.line_forms.specs.Marks.{same, starts};
ghost use Rattle.line_forms.specs.Read.{after_marks};
ghost use Rattle.line_forms.specs.Gives.{Gives};

use crate::read_error::ReadError;
use source_lines::{Token, TokenKind};
use syntax_tree::{Sign, sign_of};

/// Whether an operator or delimiter stands in front.
pub fn is_sign(tokens: &[Token], sign: Sign) -> bool
    ensures within { IsTrue result → 1 ≤ length tokens.now }
    ensures value { result ≡ starts (Fixed sign ∷ []) (lexemes tokens.now) }
{
    if tokens.is_empty() {
        return false;
    }
    is_that_sign(&tokens[0].kind, sign)
}

#[tactic(auto, using(crate::proofs::Marks::without_sign))]
fn is_that_sign(kind: &TokenKind, sign: Sign) -> bool
    ensures { result ≡ same (Fixed sign) (lexeme_of kind.now) }
{
    match sign_of(kind) {
        Some(there) => sign == there,
        None => false,
    }
}

/// Whether a word stands in front.
pub fn is_word(tokens: &[Token], word: &[u8]) -> bool
    ensures within { IsTrue result → 1 ≤ length tokens.now }
    ensures value { result ≡ starts (Word word.now ∷ []) (lexemes tokens.now) }
{
    if tokens.is_empty() {
        return false;
    }
    is_that_word(&tokens[0].kind, word)
}

fn is_that_word(kind: &TokenKind, word: &[u8]) -> bool
    ensures { result ≡ same (Word word.now) (lexeme_of kind.now) }
{
    match kind {
        TokenKind::Word(name) => word == name.bytes(),
        _ => false,
    }
}

/// Whether a comma and a word stand in front.
pub fn attribute(tokens: &[Token], word: &[u8]) -> bool
    ensures within { IsTrue result → 2 ≤ length tokens.now }
    ensures value { result ≡ starts (Fixed Comma ∷ Word word.now ∷ []) (lexemes tokens.now) }
{
    is_sign(tokens, Sign::Comma) && is_word(skip(tokens, 1), word)
}

/// The tokens after the first few.
pub fn skip(tokens: &[Token], count: usize) -> &[Token]
    requires { count ≤ length tokens.now }
    ensures { lexemes result.now ≡ drop count (lexemes tokens.now) }
{
    tokens.split_at(count).1
}

/// The tokens after an operator or delimiter.
pub fn after_sign(tokens: &[Token], sign: Sign) -> Result<&[Token], ReadError>
    ensures { Gives (λ x. (tt, lexemes x.now)) result (after_marks (Fixed sign ∷ []) (lexemes tokens.now)) }
{
    if !is_sign(tokens, sign) {
        return Err(ReadError::Malformed);
    }
    Ok(skip(tokens, 1))
}

/// The tokens after a word.
pub fn after_word<'a>(tokens: &'a [Token], word: &[u8]) -> Result<&'a [Token], ReadError>
    ensures { Gives (λ x. (tt, lexemes x.now)) result (after_marks (Word word.now ∷ []) (lexemes tokens.now)) }
{
    if !is_word(tokens, word) {
        return Err(ReadError::Malformed);
    }
    Ok(skip(tokens, 1))
}

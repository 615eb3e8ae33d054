//! What the first tokens say of a directive.

ghost use Rattle.std.specs.Prelude.{◌≡◌, [], ◌∷◌};
ghost use Rattle.syntax_tree.specs.Lexeme.{lexeme_of, lexemes};
ghost use Rattle.directive_reader.specs.Forms.{is_passed};
ghost use Rattle.directive_reader.specs.Reading.{is_alignee, is_many, is_named, directive_kind};

use crate::kind::Kind;
use line_forms::{is_sign, is_word, skip};
use source_lines::{Token, TokenKind};
use syntax_tree::Sign;

/// The kind of the directive that may stand there.
pub(crate) fn directive_kind(tokens: &[Token]) -> Option<Kind>
    ensures { result ≡ directive_kind (lexemes tokens.now) }
{
    if is_word(tokens, b"PROCESSORS") {
        Some(Kind::Processors)
    } else if is_word(tokens, b"TEMPLATE") {
        Some(Kind::Template)
    } else if is_word(tokens, b"DYNAMIC") {
        Some(Kind::Dynamic)
    } else if is_word(tokens, b"DISTRIBUTE") {
        Some(Kind::Distribute(is_sign(skip(tokens, 1), Sign::Open)))
    } else if is_word(tokens, b"REDISTRIBUTE") {
        Some(Kind::Redistribute(is_sign(skip(tokens, 1), Sign::Open)))
    } else if is_word(tokens, b"ALIGN") {
        Some(Kind::Align(is_many(skip(tokens, 1))))
    } else if is_word(tokens, b"INDEPENDENT") {
        Some(Kind::Independent)
    } else {
        None
    }
}

/// Whether the alignees stand after `::`, by what stands after ALIGN.
fn is_many(tokens: &[Token]) -> bool
    ensures { result ≡ is_many (lexemes tokens.now) }
{
    if is_sign(tokens, Sign::Open) {
        return true;
    }
    is_word(tokens, b"WITH") && !is_alignee(skip(tokens, 1))
}

/// Whether the word WITH before these tokens is the name of an alignee.
fn is_alignee(tokens: &[Token]) -> bool
    ensures { result ≡ is_alignee (lexemes tokens.now) }
{
    if is_sign(tokens, Sign::Open) {
        return true;
    }
    is_word(tokens, b"WITH") && is_named(skip(tokens, 1))
}

/// Whether a word stands in front.
fn is_named(tokens: &[Token]) -> bool
    ensures { result ≡ is_named (lexemes tokens.now) }
{
    match tokens.first() {
        Some(first) => is_any_word(&first.kind),
        None => false,
    }
}

fn is_any_word(kind: &TokenKind) -> bool
    ensures { result ≡ is_named (lexeme_of kind.now ∷ []) }
{
    match kind {
        TokenKind::Word(_) => true,
        _ => false,
    }
}

/// Whether the first word is one of those of directives that are passed over.
pub fn is_passed(tokens: &[Token]) -> bool
    ensures { result ≡ is_passed (lexemes tokens.now) }
{
    is_word(tokens, b"SEQUENCE")
        || is_word(tokens, b"NO")
        || is_word(tokens, b"INHERIT")
        || is_word(tokens, b"RANGE")
        || is_word(tokens, b"SHADOW")
        || is_word(tokens, b"ON")
        || is_word(tokens, b"RESIDENT")
        || is_word(tokens, b"TASK_REGION")
        || is_word(tokens, b"END")
}

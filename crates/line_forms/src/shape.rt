//! Lines that name PROCESSORS_SHAPE (HPF 2.0, 7.4).

ghost use Rattle.std.specs.Prelude.{◌≡◌};
ghost use Rattle.std.specs.List.{list_any};
ghost use Rattle.syntax_tree.specs.Lexeme.{lexeme_of, lexemes};
ghost use Rattle.line_forms.specs.Shape.{is_shape, names_shape};

use source_lines::{Token, TokenKind};

/// Whether PROCESSORS_SHAPE stands anywhere in the line.
pub fn names_shape(tokens: &[Token]) -> bool
    ensures { result ≡ names_shape (lexemes tokens.now) }
{
    any_shape(tokens)
}

fn any_shape(tokens: &[Token]) -> bool
    ensures { result ≡ list_any (λ t. is_shape (lexeme_of t.kind)) tokens.now }
{
    tokens.iter().any(|token| is_shape(&token.kind))
}

fn is_shape(kind: &TokenKind) -> bool
    ensures { result ≡ is_shape (lexeme_of kind.now) }
{
    match kind {
        TokenKind::Word(word) => b"PROCESSORS_SHAPE".as_slice() == word.bytes(),
        _ => false,
    }
}

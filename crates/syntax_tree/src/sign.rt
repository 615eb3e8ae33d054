//! Operators and delimiters, however they are spelled.

ghost use Rattle.std.specs.Prelude.{◌≡◌};
ghost use Rattle.syntax_tree.specs.Lexeme.{lexeme_of, sign_of};

use crate::codes::at_code;
use source_lines::TokenKind;

/// An operator or a delimiter (Fortran 95, 3.2), where `.EQ.` and `==` are one.
#[derive(Clone, Copy, Debug, PartialEq, Eq)]
pub enum Sign {
    /// `(`.
    Open,
    /// `)`.
    Close,
    /// `,`.
    Comma,
    /// `:`.
    Colon,
    /// `::`.
    Colons,
    /// `=`.
    Equals,
    /// `+`.
    Plus,
    /// `-`.
    Minus,
    /// `*`.
    Star,
    /// `/`.
    Slash,
    /// `**`.
    Power,
    /// `==` or `.EQ.`.
    Eq,
    /// `/=` or `.NE.`.
    Ne,
    /// `<` or `.LT.`.
    Lt,
    /// `<=` or `.LE.`.
    Le,
    /// `>` or `.GT.`.
    Gt,
    /// `>=` or `.GE.`.
    Ge,
    /// `.AND.`.
    And,
    /// `.OR.`.
    Or,
    /// `.NOT.`.
    Not,
    /// `.EQV.`.
    Eqv,
    /// `.NEQV.`.
    Neqv,
    /// `.TRUE.`.
    True,
    /// `.FALSE.`.
    False,
}

/// The signs of the words between periods, in the order of their codes.
static DOT_SIGNS: [Sign; 13] = [
    Sign::And,
    Sign::Eq,
    Sign::Eqv,
    Sign::False,
    Sign::Ge,
    Sign::Gt,
    Sign::Le,
    Sign::Lt,
    Sign::Ne,
    Sign::Neqv,
    Sign::Not,
    Sign::Or,
    Sign::True,
];

/// The signs of the symbols, in the order of their codes.
static SYMBOL_SIGNS: [Sign; 17] = [
    Sign::Open,
    Sign::Close,
    Sign::Star,
    Sign::Power,
    Sign::Plus,
    Sign::Comma,
    Sign::Minus,
    Sign::Slash,
    Sign::Ne,
    Sign::Colon,
    Sign::Colons,
    Sign::Lt,
    Sign::Le,
    Sign::Equals,
    Sign::Eq,
    Sign::Gt,
    Sign::Ge,
];

/// The operator or delimiter that a token is; None for a word, an integer or a text.
#[tactic(auto, using(crate::proofs::Lexemes::sign_of_fixed))]
pub fn sign_of(kind: &TokenKind) -> Option<Sign>
    ensures { result ≡ sign_of (lexeme_of kind.now) }
{
    match kind {
        TokenKind::Dot(code) => at_code(&DOT_SIGNS, *code),
        TokenKind::Symbol(code) => at_code(&SYMBOL_SIGNS, *code),
        _ => None,
    }
}

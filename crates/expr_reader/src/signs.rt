//! The tokens ahead.

ghost use Rattle.std.specs.Prelude.{◌≡◌, ◌≤◌, ◌<◌, length, drop, IsSome, IsTrue};
ghost use Rattle.expr_reader.specs.Reading.{is_open, is_close, is_comma, is_colon, is_colons};
ghost use Rattle.expr_reader.specs.TokenReading.{ahead};

use source_lines::Token;
use syntax_tree::{Sign, sign_of};

/// The operator or delimiter at a place.
pub(crate) fn sign_at(tokens: &[Token], place: usize) -> Option<Sign>
    ensures within { IsSome result → place < length tokens.now }
    ensures value { result ≡ (ahead tokens.now place).core.head }
{
    if place >= tokens.len() {
        return None;
    }
    sign_of(&tokens[place].kind)
}

/// The tokens from a place on.
pub(crate) fn skip(tokens: &[Token], place: usize) -> &[Token]
    requires { place ≤ length tokens.now }
    ensures { result.now ≡ drop place tokens.now }
{
    tokens.split_at(place).1
}

/// Whether `(` stands at a place.
pub(crate) fn opens(tokens: &[Token], place: usize) -> bool
    ensures within { IsTrue result → place < length tokens.now }
    ensures value { result ≡ is_open (ahead tokens.now place).core.head }
{
    is_open(sign_at(tokens, place))
}

/// Whether `)` stands at a place.
pub(crate) fn closes(tokens: &[Token], place: usize) -> bool
    ensures within { IsTrue result → place < length tokens.now }
    ensures value { result ≡ is_close (ahead tokens.now place).core.head }
{
    is_close(sign_at(tokens, place))
}

/// Whether `,` stands at a place.
pub(crate) fn separates(tokens: &[Token], place: usize) -> bool
    ensures within { IsTrue result → place < length tokens.now }
    ensures value { result ≡ is_comma (ahead tokens.now place).core.head }
{
    is_comma(sign_at(tokens, place))
}

/// Whether `:` stands at a place.
pub(crate) fn ranges(tokens: &[Token], place: usize) -> bool
    ensures within { IsTrue result → place < length tokens.now }
    ensures value { result ≡ is_colon (ahead tokens.now place).core.head }
{
    is_colon(sign_at(tokens, place))
}

/// Whether `::` stands at a place.
pub(crate) fn steps(tokens: &[Token], place: usize) -> bool
    ensures within { IsTrue result → place < length tokens.now }
    ensures value { result ≡ is_colons (ahead tokens.now place).core.head }
{
    is_colons(sign_at(tokens, place))
}

fn is_open(sign: Option<Sign>) -> bool
    ensures { result ≡ is_open sign }
{
    matches!(sign, Some(Sign::Open))
}

fn is_close(sign: Option<Sign>) -> bool
    ensures { result ≡ is_close sign }
{
    matches!(sign, Some(Sign::Close))
}

fn is_comma(sign: Option<Sign>) -> bool
    ensures { result ≡ is_comma sign }
{
    matches!(sign, Some(Sign::Comma))
}

fn is_colon(sign: Option<Sign>) -> bool
    ensures { result ≡ is_colon sign }
{
    matches!(sign, Some(Sign::Colon))
}

fn is_colons(sign: Option<Sign>) -> bool
    ensures { result ≡ is_colons sign }
{
    matches!(sign, Some(Sign::Colons))
}

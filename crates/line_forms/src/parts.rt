//! Names, expressions and subscripts.

ghost use Rattle.std.specs.Prelude.{◌≡◌};
ghost use Rattle.syntax_tree.specs.Lexeme.{lexemes};
ghost use Rattle.syntax_tree.specs.Expression.{expression, subscript};
ghost use Rattle.expr_reader.specs.TokenReading.{maybe_in};
ghost use Rattle.line_forms.specs.DeepFront.{is_too_deep};
ghost use Rattle.line_forms.specs.Gives.{Gives};
ghost use Rattle.line_forms.specs.Read.{expr, name, optional_expr, stepped, subscript as subscript_at, triplet};

use crate::depths::Depths;
use crate::read_error::ReadError;
use crate::signs::{is_sign, skip};
use expr_reader::{MAX_DEPTH, fits, front_expr};
use hpf_base::Name;
use op_tables::is_reserved;
use source_lines::{Token, TokenKind};
use std::alloc::Global;
use syntax_tree::{Expr, Sign, Subscript};

/// The name in front, and the tokens after it.
pub fn name(tokens: &[Token]) -> Result<(Name, &[Token]), ReadError>
    ensures { Gives (λ x. (x.0, lexemes x.1.now)) result (name (lexemes tokens.now)) }
{
    let Some((first, rest)) = tokens.split_first() else {
        return Err(ReadError::Malformed);
    };
    let TokenKind::Word(word) = &first.kind else {
        return Err(ReadError::Malformed);
    };
    if is_reserved(word.bytes()) {
        return Err(ReadError::Malformed);
    }
    Ok((*word, rest))
}

/// The longest expression in front, and the tokens after it.
pub fn expr(alloc: Global, depths: Depths, tokens: &[Token]) -> Result<(Expr, &[Token]), ReadError>
    ensures { Gives (λ x. (expression x.0, lexemes x.1.now)) result (expr depths (lexemes tokens.now)) }
{
    let Some((tree, rest)) = front_expr(alloc, tokens)? else {
        return Err(ReadError::Malformed);
    };
    if is_too_deep(depths, &tree) {
        return Err(ReadError::TooDeep);
    }
    Ok((tree, rest))
}

/// Whether an expression is deeper than `MAX_DEPTH`, where that matters.
fn is_too_deep(depths: Depths, tree: &Expr) -> bool
    ensures { result ≡ is_too_deep depths (expression tree.now) }
{
    match depths {
        Depths::Limited => !fits(tree, MAX_DEPTH),
        Depths::Any => false,
    }
}

/// An expression that may be in front, and the tokens after it.
pub(crate) fn optional_expr(
    alloc: Global,
    depths: Depths,
    tokens: &[Token],
) -> Result<(Option<Expr>, &[Token]), ReadError>
    ensures { Gives (λ x. (maybe_in x.0, lexemes x.1.now)) result (optional_expr depths (lexemes tokens.now)) }
{
    let Some((tree, rest)) = front_expr(alloc, tokens)? else {
        return Ok((None, tokens));
    };
    if is_too_deep(depths, &tree) {
        return Err(ReadError::TooDeep);
    }
    Ok((Some(tree), rest))
}

/// The subscript in front, and the tokens after it.
pub fn subscript(
    alloc: Global,
    depths: Depths,
    tokens: &[Token],
) -> Result<(Subscript, &[Token]), ReadError>
    ensures { Gives (λ x. (subscript x.0, lexemes x.1.now)) result (subscript_at depths (lexemes tokens.now)) }
{
    let (first, rest) = optional_expr(alloc, depths, tokens)?;
    if is_sign(rest, Sign::Colon) {
        return triplet(alloc, depths, first, skip(rest, 1));
    }
    if is_sign(rest, Sign::Colons) {
        return stepped(alloc, depths, first, skip(rest, 1));
    }
    let Some(e) = first else {
        return Err(ReadError::Malformed);
    };
    Ok((Subscript::One(e), rest))
}

/// A triplet after its first colon.
fn triplet(
    alloc: Global,
    depths: Depths,
    first: Option<Expr>,
    tokens: &[Token],
) -> Result<(Subscript, &[Token]), ReadError>
    ensures { Gives (λ x. (subscript x.0, lexemes x.1.now)) result (triplet depths (maybe_in first) (lexemes tokens.now)) }
{
    let (last, rest) = optional_expr(alloc, depths, tokens)?;
    if !is_sign(rest, Sign::Colon) {
        let step = None;
        return Ok((Subscript::Triplet { first, last, step }, rest));
    }
    let (step, rest) = expr(alloc, depths, skip(rest, 1))?;
    let step = Some(step);
    Ok((Subscript::Triplet { first, last, step }, rest))
}

/// A triplet without a last part after its `::`.
fn stepped(
    alloc: Global,
    depths: Depths,
    first: Option<Expr>,
    tokens: &[Token],
) -> Result<(Subscript, &[Token]), ReadError>
    ensures { Gives (λ x. (subscript x.0, lexemes x.1.now)) result (stepped depths (maybe_in first) (lexemes tokens.now)) }
{
    let (step, rest) = expr(alloc, depths, tokens)?;
    let (last, step) = (None, Some(step));
    Ok((Subscript::Triplet { first, last, step }, rest))
}

//! Lists with commas between.

ghost use Rattle.std.specs.Prelude.{◌≡◌, ◌≤◌, IsTrue, length, map, option_map};
ghost use Rattle.syntax_tree.specs.Expression.{expression};
ghost use Rattle.syntax_tree.specs.Lexeme.{lexemes};
ghost use Rattle.line_forms.specs.Grammar.{Grammar, Header, CommaList, Value};
ghost use Rattle.line_forms.specs.Read.{is_index, mask, read};
ghost use Rattle.line_forms.specs.Parts.{enclosed, optional_enclosed};
ghost use Rattle.line_forms.specs.Gives.{Gives, elements, goes_on};

use crate::depths::Depths;
use crate::parts::expr;
use crate::read_error::ReadError;
use crate::signs::{after_sign, is_sign, skip};
use source_lines::{Token, TokenKind};
use std::alloc::Global;
use syntax_tree::{Expr, Sign};

/// What the elements of a list are.
#[derive(Clone, Copy, PartialEq, Eq)]
enum ListKind {
    /// Any: a comma goes on with the list.
    Plain,
    /// Indices, each a name with `=` after it: only a comma with an index after it goes on with the list.
    Indices,
}

/// What stands between the commas of a list.
pub trait Element {
    /// What is made of one.
    type Part: Drop;

    /// The grammar of one.
    ghost grammar: { Grammar };

    /// What contracts see of it.
    ghost view: { Self.Part → Value grammar };

    /// The one in front, and the tokens after it.
    fn read(
        alloc: Global,
        depths: Depths,
        tokens: &[Token],
    ) -> Result<(Self::Part, &[Token]), ReadError>
        ensures { Gives (λ x. (view x.0, lexemes x.1.now)) result (read depths grammar (lexemes tokens.now)) };
}

/// The elements in front, and the tokens after them.
pub fn comma_list<T: Element>(
    alloc: Global,
    depths: Depths,
    tokens: &[Token],
) -> Result<(Vec<T::Part>, &[Token]), ReadError>
    ensures { Gives (λ x. (map T.view x.0.items, lexemes x.1.now)) result (read depths (CommaList T.grammar) (lexemes tokens.now)) }
{
    elements::<T>(alloc, depths, ListKind::Plain, tokens)
}

/// The indices in front with the expression that may stand after them and a comma, and the tokens after these.
pub fn header<T: Element>(
    alloc: Global,
    depths: Depths,
    tokens: &[Token],
) -> Result<((Vec<T::Part>, Option<Expr>), &[Token]), ReadError>
    ensures { Gives (λ x. ((map T.view x.0.0.items, option_map expression x.0.1), lexemes x.1.now)) result (read depths (Header T.grammar) (lexemes tokens.now)) }
{
    let (indices, rest) = elements::<T>(alloc, depths, ListKind::Indices, tokens)?;
    let (mask, rest) = mask(alloc, depths, rest)?;
    Ok(((indices, mask), rest))
}

/// The expression after a comma, if one stands in front, and the tokens after it.
fn mask(
    alloc: Global,
    depths: Depths,
    tokens: &[Token],
) -> Result<(Option<Expr>, &[Token]), ReadError>
    ensures { Gives (λ x. (option_map expression x.0, lexemes x.1.now)) result (mask depths (lexemes tokens.now)) }
{
    if !is_sign(tokens, Sign::Comma) {
        return Ok((None, tokens));
    }
    let (tree, rest) = expr(alloc, depths, skip(tokens, 1))?;
    Ok((Some(tree), rest))
}

/// The elements in front, and the tokens after them.
fn elements<T: Element>(
    alloc: Global,
    depths: Depths,
    kind: ListKind,
    tokens: &[Token],
) -> Result<(Vec<T::Part>, &[Token]), ReadError>
    ensures { Gives (λ x. (map T.view x.0.items, lexemes x.1.now)) result (elements kind (read depths T.grammar) (lexemes tokens.now)) }
{
    let mut elements = Vec::new(alloc);
    let mut rest = tokens;
    'elements: loop {
        let (element, after_it) = T::read(alloc, depths, rest)?;
        elements.push(element)?;
        if !goes_on(after_it, kind) {
            return Ok((elements, after_it));
        }
        rest = skip(after_it, 1);
    }
}

/// Whether a list goes on after an element.
fn goes_on(tokens: &[Token], kind: ListKind) -> bool
    ensures within { IsTrue result → 1 ≤ length tokens.now }
    ensures value { result ≡ goes_on kind (lexemes tokens.now) }
{
    match kind {
        ListKind::Plain => is_sign(tokens, Sign::Comma),
        ListKind::Indices => is_sign(tokens, Sign::Comma) && is_index(skip(tokens, 1)),
    }
}

/// Whether a name stands in front, and `=` after it.
fn is_index(tokens: &[Token]) -> bool
    ensures { result ≡ is_index (lexemes tokens.now) }
{
    let Some((first, rest)) = tokens.split_first() else {
        return false;
    };
    match &first.kind {
        TokenKind::Word(_) => is_sign(rest, Sign::Equals),
        _ => false,
    }
}

/// The elements in parentheses in front, and the tokens after them.
pub fn enclosed<T: Element>(
    alloc: Global,
    depths: Depths,
    tokens: &[Token],
) -> Result<(Vec<T::Part>, &[Token]), ReadError>
    ensures { Gives (λ x. (map T.view x.0.items, lexemes x.1.now)) result (read depths (enclosed T.grammar) (lexemes tokens.now)) }
{
    let rest = after_sign(tokens, Sign::Open)?;
    let (elements, rest) = comma_list::<T>(alloc, depths, rest)?;
    let rest = after_sign(rest, Sign::Close)?;
    Ok((elements, rest))
}

/// The elements that may be in parentheses in front, and the tokens after them.
pub fn optional_enclosed<T: Element>(
    alloc: Global,
    depths: Depths,
    tokens: &[Token],
) -> Result<(Option<Vec<T::Part>>, &[Token]), ReadError>
    ensures { Gives (λ x. (option_map (λ v. map T.view v.items) x.0, lexemes x.1.now)) result (read depths (optional_enclosed T.grammar) (lexemes tokens.now)) }
{
    if !is_sign(tokens, Sign::Open) {
        return Ok((None, tokens));
    }
    let (elements, rest) = comma_list::<T>(alloc, depths, skip(tokens, 1))?;
    let rest = after_sign(rest, Sign::Close)?;
    Ok((Some(elements), rest))
}

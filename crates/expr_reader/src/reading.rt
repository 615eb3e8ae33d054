//! Reading by recursive descent.

ghost use Rattle.std.specs.Prelude.{◌≡◌, ◌≤◌, ◌<◌, ◌+◌, length, drop, IfOk, IfErr, IsSome, option_map};
ghost use Rattle.syntax_tree.specs.Lexeme.{fixed, lexeme_of, lexemes};
ghost use Rattle.op_tables.specs.Words.{is_reserved};
ghost use Rattle.syntax_tree.specs.Operators.{intrinsic, unary};
ghost use Rattle.syntax_tree.specs.Expression.{expression, subscript, arguments_of, parts_of};
ghost use Rattle.syntax_tree.specs.Spelling.{binds};
ghost use Rattle.expr_reader.specs.Front.{front, Gives};
ghost use Rattle.expr_reader.specs.Longest.{IsRead, IsRefused};
ghost use Rattle.expr_reader.specs.Reading.{apart, arguments_at, call_at, closed_at, glued_at, goes_on, maybe_at, name_at, operand_at, part_at, part_from, range_at, unary_at, word_at};
ghost use Rattle.expr_reader.specs.TokenReading.{ahead, AreExpressions, EndsWithin, expression_of, maybe_in, read, viewed};

use crate::depth::fits;
use crate::limits::MAX_DEPTH;
use crate::signs::{closes, opens, ranges, separates, sign_at, skip, steps};
use hpf_base::{Name, Reason, StaticError};
use op_tables::{Op, is_reserved};
use source_lines::{Token, TokenKind};
use std::alloc::{AllocError, Global};
use syntax_tree::{
    Expr, Ref, Sign, Subscript, binary, intrinsic, left_place, level, right_place, sign_of, unary,
};

/// The longest expression that begins at the token `from`, counted from 0, and the place after it.
///
/// It is refused, at the given line, as NotAStatement exactly where no expression begins there, and as Limit
/// exactly where the longest one is deeper than 200 (Fortran 95, 7.1).
pub fn read_expr(
    alloc: Global,
    line: u32,
    tokens: &[Token],
    from: usize,
) -> Result<(Expr, usize), StaticError>
    requires { from ≤ length tokens.now }
    ensures found { IfOk result (λ x. IsRead tokens.now from (expression x.0) x.1) }
    ensures refused { IfErr result (IsRefused line tokens.now from) }
{
    let Some((tree, taken)) = expr(alloc, skip(tokens, from), 0)? else {
        return Err(StaticError::at(line, Reason::NotAStatement));
    };
    if !fits(&tree, MAX_DEPTH) {
        return Err(StaticError::at(line, Reason::Limit));
    }
    Ok((tree, from + taken))
}

/// The longest expression at the front, however deep, and the tokens after it; None where none begins there.
#[tactic(auto, unfolding(crate::specs::Front::front))]
pub fn front_expr(alloc: Global, tokens: &[Token]) -> Result<Option<(Expr, &[Token])>, AllocError>
    ensures { IfOk result (λ r. Gives (λ x. (expression x.0, lexemes x.1.now)) r (front (lexemes tokens.now))) }
{
    let Some((tree, taken)) = expr(alloc, tokens, 0)? else {
        return Ok(None);
    };
    Ok(Some((tree, skip(tokens, taken))))
}

/// The longest expression at the front that binds at least as tightly as `place`, and how many tokens it takes.
#[cycle(reading)]
fn expr(alloc: Global, tokens: &[Token], place: u8) -> Result<Option<(Expr, usize)>, AllocError>
    ensures within { IfOk result (λ r. EndsWithin r (length tokens.now)) }
    ensures value { IfOk result (λ r. viewed expression r ≡ (read tokens.now).core.expr place) }
{
    let Some((first, rest)) = tokens.split_first() else {
        return Ok(None);
    };
    let Some((tree, taken)) = operand(alloc, &first.kind, rest, place)? else {
        return Ok(None);
    };
    let (tree, taken) = more(alloc, tree, tokens, taken + 1, place)?;
    Ok(Some((tree, taken)))
}

/// An operand that begins with `first`, and how many tokens it takes of the rest.
#[cycle(reading)]
fn operand(
    alloc: Global,
    first: &TokenKind,
    rest: &[Token],
    place: u8,
) -> Result<Option<(Expr, usize)>, AllocError>
    ensures within { IfOk result (λ r. EndsWithin r (length rest.now)) }
    ensures value { IfOk result (λ r. viewed expression r ≡ operand_at (ahead rest.now) place (lexeme_of first.now)) }
{
    match first {
        TokenKind::Integer(value) => Ok(Some((Expr::Int(*value), 0))),
        TokenKind::Word(word) => from_word(alloc, *word, rest),
        TokenKind::Text(_) => Ok(None),
        TokenKind::Dot(_) | TokenKind::Symbol(_) => from_sign(alloc, sign_of(first), rest, place),
    }
}

/// An operand that begins with an operator or a delimiter.
#[cycle(reading)]
fn from_sign(
    alloc: Global,
    first: Option<Sign>,
    rest: &[Token],
    place: u8,
) -> Result<Option<(Expr, usize)>, AllocError>
    ensures within { IfOk result (λ r. EndsWithin r (length rest.now)) }
    ensures value { IfOk result (λ r. viewed expression r ≡ operand_at (ahead rest.now) place (fixed first)) }
{
    match first {
        Some(Sign::True) => Ok(Some((Expr::Bool(true), 0))),
        Some(Sign::False) => Ok(Some((Expr::Bool(false), 0))),
        Some(Sign::Open) => closed(alloc, rest),
        Some(sign) => signed(alloc, sign, rest, place),
        None => Ok(None),
    }
}

/// An operand that begins with a word.
#[cycle(reading)]
fn from_word(alloc: Global, word: Name, rest: &[Token]) -> Result<Option<(Expr, usize)>, AllocError>
    ensures within { IfOk result (λ r. EndsWithin r (length rest.now)) }
    ensures value { IfOk result (λ r. viewed expression r ≡ word_at (ahead rest.now) word) }
{
    if is_no_name(&word) {
        return call(alloc, procedure(&word), rest);
    }
    let (reference, taken) = reference(alloc, word, rest)?;
    Ok(Some((Expr::Ref(reference), taken)))
}

/// Whether a word is in one of the tables of words. It is never inlined, since the tables would lie in the stack at each
/// level of the descent.
#[inline(never)]
fn is_no_name(word: &Name) -> bool
    ensures { result ≡ is_reserved word.now }
{
    is_reserved(word.bytes())
}

/// The intrinsic procedure that a word names.
#[inline(never)]
fn procedure(word: &Name) -> Option<Op>
    ensures { result ≡ intrinsic word.now }
{
    intrinsic(word.bytes())
}

/// A call of an intrinsic procedure, after its word.
#[cycle(reading)]
#[inline(never)]
fn call(
    alloc: Global,
    procedure: Option<Op>,
    rest: &[Token],
) -> Result<Option<(Expr, usize)>, AllocError>
    ensures within { IfOk result (λ r. EndsWithin r (length rest.now)) }
    ensures value { IfOk result (λ r. viewed expression r ≡ call_at (ahead rest.now) procedure) }
{
    let Some(op) = procedure else {
        return Ok(None);
    };
    if !opens(rest, 0) {
        return Ok(None);
    }
    let Some((arguments, taken)) = arguments(alloc, skip(rest, 1))? else {
        return Ok(None);
    };
    Ok(Some((Expr::Call(op, arguments), taken + 1)))
}

/// The arguments at the front, with the parenthesis after them.
#[cycle(reading)]
fn arguments(alloc: Global, tokens: &[Token]) -> Result<Option<(Vec<Expr>, usize)>, AllocError>
    ensures within { IfOk result (λ r. EndsWithin r (length tokens.now)) }
    ensures value { IfOk result (λ r. viewed (λ v. arguments_of v.items) r ≡ arguments_at (read tokens.now)) }
{
    if closes(tokens, 0) {
        return Ok(Some((Vec::new(alloc), 1)));
    }
    let Some((parts, taken)) = list(alloc, tokens)? else {
        return Ok(None);
    };
    let Some(arguments) = expressions(alloc, parts)? else {
        return Ok(None);
    };
    Ok(Some((arguments, taken)))
}

/// The name, with the subscripts that stand after it.
#[cycle(reading)]
fn reference(alloc: Global, name: Name, rest: &[Token]) -> Result<(Ref, usize), AllocError>
    ensures within { IfOk result (λ x. x.1 ≤ length rest.now) }
    ensures value { IfOk result (λ x. (expression (Expr.Ref x.0), x.1) ≡ name_at (ahead rest.now) name) }
{
    if opens(rest, 0)
        && let Some((parts, taken)) = list(alloc, skip(rest, 1))?
    {
        let subs = Some(parts);
        return Ok((Ref { name, subs }, taken + 1));
    }
    Ok((Ref { name, subs: None }, 0))
}

/// An expression after a parenthesis.
#[cycle(reading)]
fn closed(alloc: Global, rest: &[Token]) -> Result<Option<(Expr, usize)>, AllocError>
    ensures within { IfOk result (λ r. EndsWithin r (length rest.now)) }
    ensures value { IfOk result (λ r. viewed expression r ≡ closed_at (ahead rest.now)) }
{
    let Some((tree, taken)) = expr(alloc, rest, 0)? else {
        return Ok(None);
    };
    if !closes(rest, taken) {
        return Ok(None);
    }
    let tree = Box::new(alloc, tree)?;
    Ok(Some((Expr::Paren(tree), taken + 1)))
}

/// An operand after a sign or `.NOT.`.
#[cycle(reading)]
fn signed(
    alloc: Global,
    first: Sign,
    rest: &[Token],
    place: u8,
) -> Result<Option<(Expr, usize)>, AllocError>
    ensures within { IfOk result (λ r. EndsWithin r (length rest.now)) }
    ensures value { IfOk result (λ r. viewed expression r ≡ unary_at (ahead rest.now) place (unary first)) }
{
    let Some(op) = unary(first) else {
        return Ok(None);
    };
    if level(op) < place {
        return Ok(None);
    }
    let Some((tree, taken)) = expr(alloc, rest, level(op) + 1)? else {
        return Ok(None);
    };
    let tree = Box::new(alloc, tree)?;
    Ok(Some((Expr::Unary(op, tree), taken)))
}

/// What the expression of the first `taken` tokens goes on to be.
#[cycle(reading)]
fn more(
    alloc: Global,
    tree: Expr,
    tokens: &[Token],
    taken: usize,
    place: u8,
) -> Result<(Expr, usize), AllocError>
    requires { taken ≤ length tokens.now }
    ensures within { IfOk result (λ x. x.1 ≤ length tokens.now) }
    ensures value { IfOk result (λ x. (expression x.0, x.1) ≡ (ahead tokens.now taken).core.more place (expression tree) taken) }
{
    let mut tree = tree;
    let mut taken = taken;
    'ops: while let Some(op) = operator(tokens, taken, &tree, place) {
        let Some((other, count)) = expr(alloc, skip(tokens, taken + 1), right_place(op))? else {
            break;
        };
        tree = Expr::Binary(op, Box::new(alloc, tree)?, Box::new(alloc, other)?);
        taken += count + 1;
    }
    Ok((tree, taken))
}

/// The operator with which the expression before it may go on.
fn operator(tokens: &[Token], taken: usize, tree: &Expr, place: u8) -> Option<Op>
    ensures within { IsSome result → taken < length tokens.now }
    ensures value { result ≡ goes_on place (expression tree.now) (ahead tokens.now taken).core.head }
{
    let op = binary(sign_at(tokens, taken)?)?;
    (level(op) >= place && tightness(tree) >= left_place(op)).then_some(op)
}

/// How tightly an expression binds.
fn tightness(tree: &Expr) -> u8
    ensures { result ≡ binds (expression tree.now) }
{
    match tree {
        Expr::Unary(op, _) | Expr::Binary(op, _, _) => level(*op),
        _ => 9,
    }
}

/// The parts of a list at the front, with the parenthesis after them.
#[cycle(reading)]
fn list(alloc: Global, tokens: &[Token]) -> Result<Option<(Vec<Subscript>, usize)>, AllocError>
    ensures within { IfOk result (λ r. EndsWithin r (length tokens.now)) }
    ensures value { IfOk result (λ r. viewed (λ v. parts_of v.items) r ≡ (read tokens.now).list) }
{
    let mut parts = Vec::new(alloc);
    let mut taken = 0;
    'parts: loop {
        let Some((part, count)) = part(alloc, skip(tokens, taken))? else {
            return Ok(None);
        };
        parts.push(part)?;
        taken += count;
        if closes(tokens, taken) {
            return Ok(Some((parts, taken + 1)));
        }
        if !separates(tokens, taken) {
            return Ok(None);
        }
        taken += 1;
    }
}

/// One part of a list at the front.
#[cycle(reading)]
fn part(alloc: Global, tokens: &[Token]) -> Result<Option<(Subscript, usize)>, AllocError>
    ensures within { IfOk result (λ r. EndsWithin r (length tokens.now)) }
    ensures value { IfOk result (λ r. viewed subscript r ≡ part_at apart (λ d. (ahead tokens.now d).core)) }
{
    let (first, taken) = maybe(alloc, tokens)?;
    if ranges(tokens, taken) {
        return range(alloc, first, tokens, taken);
    }
    if steps(tokens, taken) {
        return stepped(alloc, first, tokens, taken);
    }
    match first {
        Some(e) => Ok(Some((Subscript::One(e), taken))),
        None => Ok(None),
    }
}

/// An expression that may be there.
#[cycle(reading)]
fn maybe(alloc: Global, tokens: &[Token]) -> Result<(Option<Expr>, usize), AllocError>
    ensures within { IfOk result (λ x. x.1 ≤ length tokens.now) }
    ensures value { IfOk result (λ x. (maybe_in x.0, x.1) ≡ maybe_at ((read tokens.now).core.expr 0)) }
{
    match expr(alloc, tokens, 0)? {
        Some((e, n)) => Ok((Some(e), n)),
        None => Ok((None, 0)),
    }
}

/// A triplet from its first colon on.
#[cycle(reading)]
#[inline(never)]
fn range(
    alloc: Global,
    first: Option<Expr>,
    tokens: &[Token],
    taken: usize,
) -> Result<Option<(Subscript, usize)>, AllocError>
    requires { taken < length tokens.now }
    ensures within { IfOk result (λ r. EndsWithin r (length tokens.now)) }
    ensures value { IfOk result (λ r. viewed subscript r ≡ range_at (λ d. (ahead tokens.now d).core) (maybe_in first) taken) }
{
    let (last, count) = maybe(alloc, skip(tokens, taken + 1))?;
    let taken = taken + 1 + count;
    if !ranges(tokens, taken) {
        let step = None;
        return Ok(Some((Subscript::Triplet { first, last, step }, taken)));
    }
    let Some((step, count)) = expr(alloc, skip(tokens, taken + 1), 0)? else {
        return Ok(None);
    };
    let step = Some(step);
    Ok(Some((Subscript::Triplet { first, last, step }, taken + 1 + count)))
}

/// A triplet without a last part from its `::` on.
#[cycle(reading)]
#[inline(never)]
fn stepped(
    alloc: Global,
    first: Option<Expr>,
    tokens: &[Token],
    taken: usize,
) -> Result<Option<(Subscript, usize)>, AllocError>
    requires { taken < length tokens.now }
    ensures within { IfOk result (λ r. EndsWithin r (length tokens.now)) }
    ensures value { IfOk result (λ r. viewed subscript r ≡ glued_at apart (λ d. (ahead tokens.now d).core) (maybe_in first) taken) }
{
    let Some((step, count)) = expr(alloc, skip(tokens, taken + 1), 0)? else {
        return Ok(None);
    };
    let (last, step) = (None, Some(step));
    Ok(Some((Subscript::Triplet { first, last, step }, taken + 1 + count)))
}

/// The expressions that the parts of a list are; None where one of them is a triplet.
#[inline(never)]
fn expressions(alloc: Global, parts: Vec<Subscript>) -> Result<Option<Vec<Expr>>, AllocError>
    ensures { IfOk result (λ r. AreExpressions r (parts_of parts.items)) }
{
    let mut expressions = Vec::new(alloc);
    for part in parts {
        let Some(e) = expression_of(part) else {
            return Ok(None);
        };
        expressions.push(e)?;
    }
    Ok(Some(expressions))
}

/// The expression that a part of a list is.
fn expression_of(part: Subscript) -> Option<Expr>
    ensures { option_map expression result ≡ expression_of (subscript part) }
{
    match part {
        Subscript::One(e) => Some(e),
        Subscript::Triplet { .. } => None,
    }
}

//! The parts of statements.

ghost use Rattle.std.specs.Prelude.{[], ◌∷◌, option_map};
ghost use Rattle.syntax_tree.specs.Lexeme.{Fixed, lexemes};
ghost use Rattle.syntax_tree.specs.Expression.{expression};
ghost use Rattle.line_forms.specs.declared.depths.Depths.TheVariants.{Limited};
ghost use Rattle.line_forms.specs.Grammar.{Expr as OneExpr, Optional, OptionalToEnd, Prefixed, Sequence};
ghost use Rattle.line_forms.specs.Read.{read};
ghost use Rattle.line_forms.specs.Gives.{Gives};
ghost use Rattle.statement_reader.specs.Forms.{assignment, condition, values};
ghost use Rattle.statement_reader.specs.Views.{assignment_of};

use crate::statement::Assignment;
use line_forms::{Depths, ReadError, after_sign, expr, is_sign, skip, variable};
use source_lines::Token;
use std::alloc::Global;
use syntax_tree::{Expr, Sign};

/// An expression that may be there after a sign.
pub(crate) fn optional_after(
    alloc: Global,
    depths: Depths,
    tokens: &[Token],
    sign: Sign,
) -> Result<(Option<Expr>, &[Token]), ReadError>
    ensures { Gives (λ x. (option_map expression x.0, lexemes x.1.now)) result (read depths (Optional (Fixed sign ∷ []) OneExpr) (lexemes tokens.now)) }
{
    if !is_sign(tokens, sign) {
        return Ok((None, tokens));
    }
    let (tree, rest) = expr(alloc, depths, skip(tokens, 1))?;
    Ok((Some(tree), rest))
}

/// Two expressions with a sign between, and a third one that may be there after the sign.
pub(crate) fn values(
    alloc: Global,
    depths: Depths,
    tokens: &[Token],
    sign: Sign,
) -> Result<((Expr, Expr, Option<Expr>), &[Token]), ReadError>
    ensures { Gives (λ x. ((expression x.0.0, (expression x.0.1, option_map expression x.0.2)), lexemes x.1.now)) result
        (read depths (values (Fixed sign ∷ [])) (lexemes tokens.now)) }
{
    let (first, rest) = expr(alloc, depths, tokens)?;
    let ((last, step), rest) = later_values(alloc, depths, rest, sign)?;
    Ok(((first, last, step), rest))
}

/// The second and the third of these, after a sign.
fn later_values(
    alloc: Global,
    depths: Depths,
    tokens: &[Token],
    sign: Sign,
) -> Result<((Expr, Option<Expr>), &[Token]), ReadError>
    ensures { Gives (λ x. ((expression x.0.0, option_map expression x.0.1), lexemes x.1.now)) result
        (read depths (Prefixed (Fixed sign ∷ []) (Sequence OneExpr (Optional (Fixed sign ∷ []) OneExpr))) (lexemes tokens.now)) }
{
    let (last, rest) = value(alloc, depths, tokens, sign)?;
    let (step, rest) = optional_after(alloc, depths, rest, sign)?;
    Ok(((last, step), rest))
}

/// An expression after a sign.
pub(crate) fn value(
    alloc: Global,
    depths: Depths,
    tokens: &[Token],
    sign: Sign,
) -> Result<(Expr, &[Token]), ReadError>
    ensures { Gives (λ x. (expression x.0, lexemes x.1.now)) result (read depths (Prefixed (Fixed sign ∷ []) OneExpr) (lexemes tokens.now)) }
{
    let rest = after_sign(tokens, sign)?;
    expr(alloc, depths, rest)
}

/// An expression in parentheses.
pub(crate) fn condition(alloc: Global, tokens: &[Token]) -> Result<(Expr, &[Token]), ReadError>
    ensures { Gives (λ x. (expression x.0, lexemes x.1.now)) result (read Limited condition (lexemes tokens.now)) }
{
    let rest = after_sign(tokens, Sign::Open)?;
    let (cond, rest) = expr(alloc, Depths::Limited, rest)?;
    if !is_sign(rest, Sign::Close) {
        return Err(ReadError::Malformed);
    }
    Ok((cond, skip(rest, 1)))
}

/// An assignment.
pub(crate) fn assignment(
    alloc: Global,
    tokens: &[Token],
) -> Result<(Assignment, &[Token]), ReadError>
    ensures { Gives (λ x. (assignment_of x.0, lexemes x.1.now)) result (read Limited assignment (lexemes tokens.now)) }
{
    let (left, rest) = variable(alloc, Depths::Limited, tokens)?;
    let (right, rest) = value(alloc, Depths::Limited, rest, Sign::Equals)?;
    Ok((Assignment { left, right }, rest))
}

/// An assignment, where anything stands there.
pub(crate) fn if_assignment(
    alloc: Global,
    tokens: &[Token],
) -> Result<(Option<Assignment>, &[Token]), ReadError>
    ensures { Gives (λ x. (option_map assignment_of x.0, lexemes x.1.now)) result (read Limited (OptionalToEnd assignment) (lexemes tokens.now)) }
{
    if tokens.is_empty() {
        return Ok((None, tokens));
    }
    let (one, rest) = assignment(alloc, tokens)?;
    Ok((Some(one), rest))
}

//! What stands after DO, WHERE and FORALL.

ghost use Rattle.std.specs.Prelude.{option_map};
ghost use Rattle.syntax_tree.specs.Lexeme.{lexemes};
ghost use Rattle.syntax_tree.specs.Expression.{expression};
ghost use Rattle.line_forms.specs.declared.depths.Depths.TheVariants.{Limited};
ghost use Rattle.line_forms.specs.Gives.{Gives};
ghost use Rattle.line_forms.specs.Grammar.{OptionalToEnd, Sequence};
ghost use Rattle.line_forms.specs.Read.{read};
ghost use Rattle.statement_reader.specs.Forms.{assignment, condition, do_head, forall_head};
ghost use Rattle.statement_reader.specs.Views.{assignment_of, do_of, forall_of};

use crate::lists::Axes;
use crate::parts::{condition, if_assignment, values};
use crate::statement::{Assignment, DoHead, ForallHead};
use line_forms::{Depths, ReadError, after_sign, header, is_sign, name, skip};
use source_lines::Token;
use std::alloc::Global;
use syntax_tree::{Expr, Sign};

/// The index of a DO and the values that it takes.
pub(crate) fn do_head(alloc: Global, tokens: &[Token]) -> Result<(DoHead, &[Token]), ReadError>
    ensures { Gives (λ x. (do_of x.0, lexemes x.1.now)) result (read Limited do_head (lexemes tokens.now)) }
{
    match name(tokens) {
        Ok((index, rest)) => {
            let rest = after_sign(rest, Sign::Equals)?;
            let ((first, last, step), rest) = values(alloc, Depths::Limited, rest, Sign::Comma)?;
            let head = DoHead {
                index,
                first,
                last,
                step,
            };
            Ok((head, rest))
        }
        Err(error) => Err(error),
    }
}

/// The indices and the mask of a FORALL.
pub(crate) fn forall_head(
    alloc: Global,
    tokens: &[Token],
) -> Result<(ForallHead, &[Token]), ReadError>
    ensures { Gives (λ x. (forall_of x.0, lexemes x.1.now)) result (read Limited forall_head (lexemes tokens.now)) }
{
    let rest = after_sign(tokens, Sign::Open)?;
    let ((axes, mask), rest) = header::<Axes>(alloc, Depths::Limited, rest)?;
    if !is_sign(rest, Sign::Close) {
        return Err(ReadError::Malformed);
    }
    Ok((ForallHead { axes, mask }, skip(rest, 1)))
}

/// A WHERE after its keyword, with its assignment if it has one.
pub(crate) fn where_parts(
    alloc: Global,
    tokens: &[Token],
) -> Result<((Expr, Option<Assignment>), &[Token]), ReadError>
    ensures { Gives (λ x. ((expression x.0.0, option_map assignment_of x.0.1), lexemes x.1.now)) result
        (read Limited (Sequence condition (OptionalToEnd assignment)) (lexemes tokens.now)) }
{
    let (mask, rest) = condition(alloc, tokens)?;
    let (one, rest) = if_assignment(alloc, rest)?;
    Ok(((mask, one), rest))
}

/// A FORALL after its keyword, with its assignment if it has one.
pub(crate) fn forall_parts(
    alloc: Global,
    tokens: &[Token],
) -> Result<((ForallHead, Option<Assignment>), &[Token]), ReadError>
    ensures { Gives (λ x. ((forall_of x.0.0, option_map assignment_of x.0.1), lexemes x.1.now)) result
        (read Limited (Sequence forall_head (OptionalToEnd assignment)) (lexemes tokens.now)) }
{
    let (head, rest) = forall_head(alloc, tokens)?;
    let (one, rest) = if_assignment(alloc, rest)?;
    Ok(((head, one), rest))
}

//! The names in the expressions of statements.

ghost use Rattle.std.specs.Prelude.{◌≡◌, IfOk};
ghost use Rattle.std.specs.List.{list_all};
ghost use Rattle.name_table.specs.NameRules.{expressions_of};
ghost use Rattle.expression_rules.specs.Operands.{are_operands};
ghost use Rattle.statement_walk.specs.Views.{head_of};

use crate::expressions::{in_axis, in_formats, in_headers, in_items, in_option};
use crate::operands::Operands;
use expression_rules::{Scope, are_operands, is_operand_reference};
use statement_walk::Head;
use std::alloc::AllocError;

/// Whether each name in the expressions of a statement stands for a number or for numbers. An `Err` is want of memory.
#[tactic(auto, using(crate::proofs::Placings::same_expressions, crate::proofs::Placings::header_expressions))]
pub(crate) fn all_are_operands(scope: &Scope<'_>, head: Head<'_>) -> Result<bool, AllocError>
    ensures { IfOk result (λ b. b ≡ list_all (are_operands scope.now) (expressions_of (head_of head.entry))) }
{
    let test = Operands { scope };
    match head {
        Head::Assignment(left, right)
        | Head::MaskedAssignment(_, left, right)
        | Head::ForallAssignment(_, left, right) => {
            Ok(is_operand_reference(scope, left) & are_operands(scope, right))
        }
        Head::Condition(e) | Head::Where(e) => Ok(are_operands(scope, e)),
        Head::Independent(_) | Head::Transfer => Ok(true),
        Head::Do(_, _, first, last, step) => in_axis(&test, first, last, step),
        Head::Forall(axes, mask) => {
            let axes = in_headers(&test, axes)?;
            let mask = in_option(&test, mask)?;
            Ok(axes & mask)
        }
        Head::Print(items) => in_items(&test, items),
        Head::Redistribute(spec) => in_formats(&test, &spec.formats),
    }
}

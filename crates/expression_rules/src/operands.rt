//! The names that expressions use.

ghost use Rattle.std.specs.Prelude.{◌≡◌, option_copied};
ghost use Rattle.std.specs.List.{list_all};
ghost use Rattle.syntax_tree.specs.Expression.{expression, subscript};
ghost use Rattle.expression_rules.specs.Partial.{maybe_of};
ghost use Rattle.syntax_tree.specs.Expression.{arguments_of, parts_of};
ghost use Rattle.expression_rules.specs.Symbols.{find, is_operand, satisfies};
ghost use Rattle.expression_rules.specs.Operands.{are_operands, names_in_maybe, names_in_part, names_in_parts};

use crate::scope::Scope;
use crate::symbols::Symbol;
use syntax_tree::{Expr, Ref, Subscript};

/// It stands for a number or for numbers.
fn is_operand(what: Option<&Symbol>) -> bool
    ensures { result ≡ satisfies is_operand (option_copied what.entry) }
{
    match what {
        None => false,
        Some(Symbol::Template(_)) | Some(Symbol::Arrangement(_)) => false,
        Some(_) => true,
    }
}

/// Each name in an expression stands for a number or for numbers.
#[cycle(operands)]
#[tactic(auto, using(crate::proofs::Folds::all_append, crate::proofs::Folds::all_append_three))]
pub fn are_operands(scope: &Scope<'_>, e: &Expr) -> bool
    ensures { result ≡ are_operands scope.now (expression e.now) }
{
    match e {
        Expr::Int(_) | Expr::Bool(_) => true,
        Expr::Ref(reference) => is_operand_reference(scope, reference),
        Expr::Unary(_, a) => are_operands(scope, a),
        Expr::Binary(_, a, b) => are_operands(scope, a) && are_operands(scope, b),
        Expr::Call(_, arguments) => are_operands_in(scope, arguments),
        Expr::Paren(a) => are_operands(scope, a),
    }
}

/// A name, and each name in the subscripts after it, stands for a number or for numbers.
#[cycle(operands)]
pub fn is_operand_reference(scope: &Scope<'_>, reference: &Ref) -> bool
    ensures { result ≡ are_operands scope.now (expression (Expr.Ref reference.now)) }
{
    if !is_operand(scope.find(&reference.name)) {
        return false;
    }
    match &reference.subs {
        None => true,
        Some(parts) => are_operands_among(scope, parts),
    }
}

/// Each name in the arguments of a function stands for a number or for numbers.
#[cycle(operands)]
fn are_operands_in(scope: &Scope<'_>, arguments: &[Expr]) -> bool
    ensures { result ≡ list_all (λ x. satisfies is_operand (find x scope.now)) (names_in_parts (arguments_of arguments.now)) }
{
    let mut all = true;
    for argument in arguments {
        all &= are_operands(scope, argument);
    }
    all
}

/// Each name in a list of subscripts stands for a number or for numbers.
#[cycle(operands)]
fn are_operands_among(scope: &Scope<'_>, parts: &[Subscript]) -> bool
    ensures { result ≡ list_all (λ x. satisfies is_operand (find x scope.now)) (names_in_parts (parts_of parts.now)) }
{
    let mut all = true;
    for part in parts {
        all &= are_operands_of(scope, part);
    }
    all
}

/// Each name in a subscript or a triplet stands for a number or for numbers.
#[cycle(operands)]
#[tactic(auto, using(crate::proofs::Folds::all_append, crate::proofs::Folds::all_append_three))]
fn are_operands_of(scope: &Scope<'_>, part: &Subscript) -> bool
    ensures { result ≡ list_all (λ x. satisfies is_operand (find x scope.now)) (names_in_part (subscript part.now)) }
{
    match part {
        Subscript::One(e) => are_operands(scope, e),
        Subscript::Triplet { first, last, step } => {
            is_operand_if_any(scope, first)
                && is_operand_if_any(scope, last)
                && is_operand_if_any(scope, step)
        }
    }
}

/// Each name in an expression that may be there stands for a number or for numbers.
#[cycle(operands)]
fn is_operand_if_any(scope: &Scope<'_>, e: &Option<Expr>) -> bool
    ensures { result ≡ list_all (λ x. satisfies is_operand (find x scope.now)) (names_in_maybe (maybe_of e.now)) }
{
    match e {
        None => true,
        Some(e) => are_operands(scope, e),
    }
}

//! Tests of all expressions inside an expression.

ghost use Rattle.std.specs.Prelude.{◌≡◌, Bool};
ghost use Rattle.std.specs.List.{list_all};
ghost use Rattle.syntax_tree.specs.Expression.{Expression, arguments_of, expression, parts_of, subscript};
ghost use Rattle.expression_rules.specs.Partial.{maybe_of};
ghost use Rattle.body_forms.specs.Subexpressions.{subexpressions, subexpressions_in_maybe, subexpressions_in_part, subexpressions_in_parts};

use syntax_tree::{Expr, Ref, Subscript};

/// A test of single expressions, which doesn't look at those inside them.
pub trait ExpressionTest {
    /// The expression passes the test.
    ghost passes: { Self → Expression → Bool };

    fn test(&self, e: &Expr) -> bool
        ensures { result ≡ passes self.now (expression e.now) };

    /// A name with the subscripts after it passes the test.
    fn test_reference(&self, reference: &Ref) -> bool
        ensures { result ≡ passes self.now (expression (Expr.Ref reference.now)) };
}

/// An expression and all expressions inside it pass.
#[cycle(subexpressions)]
#[tactic(auto, using(expression_rules::proofs::Folds::all_append))]
pub fn all_pass<T: ExpressionTest>(test: &T, e: &Expr) -> bool
    ensures { result ≡ list_all (T.passes test.now) (subexpressions (expression e.now)) }
{
    match e {
        Expr::Int(_) | Expr::Bool(_) => test.test(e),
        Expr::Ref(reference) => all_pass_reference(test, reference),
        Expr::Unary(_, a) => test.test(e) && all_pass(test, a),
        Expr::Binary(_, a, b) => test.test(e) && (all_pass(test, a) && all_pass(test, b)),
        Expr::Call(_, arguments) => test.test(e) && all_pass_arguments(test, arguments),
        Expr::Paren(a) => test.test(e) && all_pass(test, a),
    }
}

/// A name with the subscripts after it, and all expressions inside these, pass.
#[cycle(subexpressions)]
pub(crate) fn all_pass_reference<T: ExpressionTest>(test: &T, reference: &Ref) -> bool
    ensures { result ≡ list_all (T.passes test.now) (subexpressions (expression (Expr.Ref reference.now))) }
{
    if !test.test_reference(reference) {
        return false;
    }
    match &reference.subs {
        None => true,
        Some(parts) => all_pass_subscripts(test, parts),
    }
}

/// Arguments, and all expressions inside them, pass.
#[cycle(subexpressions)]
#[tactic(auto, using(expression_rules::proofs::Folds::all_append))]
fn all_pass_arguments<T: ExpressionTest>(test: &T, arguments: &[Expr]) -> bool
    ensures { result ≡ list_all (T.passes test.now) (subexpressions_in_parts (arguments_of arguments.now)) }
{
    let mut all = true;
    for argument in arguments {
        all &= all_pass(test, argument);
    }
    all
}

/// The expressions in subscripts, and all inside them, pass.
#[cycle(subexpressions)]
#[tactic(auto, using(expression_rules::proofs::Folds::all_append))]
pub fn all_pass_subscripts<T: ExpressionTest>(test: &T, parts: &[Subscript]) -> bool
    ensures { result ≡ list_all (T.passes test.now) (subexpressions_in_parts (parts_of parts.now)) }
{
    let mut all = true;
    for part in parts {
        all &= all_pass_subscript(test, part);
    }
    all
}

/// The expressions in a subscript or in a triplet, and all inside them, pass.
#[cycle(subexpressions)]
#[tactic(auto, using(expression_rules::proofs::Folds::all_append, expression_rules::proofs::Folds::all_append_three))]
fn all_pass_subscript<T: ExpressionTest>(test: &T, part: &Subscript) -> bool
    ensures { result ≡ list_all (T.passes test.now) (subexpressions_in_part (subscript part.now)) }
{
    match part {
        Subscript::One(e) => all_pass(test, e),
        Subscript::Triplet { first, last, step } => {
            all_pass_if_any(test, first)
                && all_pass_if_any(test, last)
                && all_pass_if_any(test, step)
        }
    }
}

/// An expression that may be there, and all expressions inside it, pass.
#[cycle(subexpressions)]
fn all_pass_if_any<T: ExpressionTest>(test: &T, e: &Option<Expr>) -> bool
    ensures { result ≡ list_all (T.passes test.now) (subexpressions_in_maybe (maybe_of e.now)) }
{
    match e {
        None => true,
        Some(e) => all_pass(test, e),
    }
}

//! Reduction statements (HPF 2.0, 5.1.2).

ghost use Rattle.std.specs.Prelude.{◌≡◌};
ghost use Rattle.syntax_tree.specs.Expression.{Call, arguments_of, expression};
ghost use Rattle.syntax_tree.specs.Statement.{variable};
ghost use Rattle.nest_check.specs.NestNames.{reduction_operator};
ghost use Rattle.nest_check.specs.ReductionStatements.{are_operands_of, is_alone, is_difference, is_joined, is_without, operator_between, operator_in};

use body_forms::{ExpressionTest, all_pass};
use expression_rules::is_among;
use hpf_base::Name;
use op_tables::{Join, Op, joined_by};
use syntax_tree::{Expr, Ref};

/// The operator of a reduction statement, where these are the REDUCTION variables; None of any other assignment.
pub(crate) fn reduction_operator(reduction: &[Name], left: &Ref, right: &Expr) -> Option<Join>
    ensures { result ≡ reduction_operator reduction.now (variable left.now) (expression right.now) }
{
    match &left.subs {
        None => if is_among(&left.name, reduction) {
            operator_in(&left.name, right)
        } else {
            None
        },
        Some(_) => None,
    }
}

/// What an expression joins a variable with a number by.
fn operator_in(name: &Name, e: &Expr) -> Option<Join>
    ensures { result ≡ operator_in name.now (expression e.now) }
{
    match e {
        Expr::Binary(op, a, b) => operator_between(name, *op, a, b),
        Expr::Call(op, arguments) => operator_of_call(name, *op, arguments),
        _ => None,
    }
}

/// What an intrinsic procedure with its arguments joins a variable with a number by.
fn operator_of_call(name: &Name, op: Op, arguments: &[Expr]) -> Option<Join>
    ensures { result ≡ operator_in name.now (Call op (arguments_of arguments.now)) }
{
    if arguments.len() == 2 {
        operator_between(name, op, &arguments[0], &arguments[1])
    } else {
        None
    }
}

/// What two operands or arguments join a variable with a number by.
fn operator_between(name: &Name, op: Op, a: &Expr, b: &Expr) -> Option<Join>
    ensures { result ≡ operator_between name.now op (expression a.now) (expression b.now) }
{
    if are_operands_of(name, op, a, b) {
        joined_by(op)
    } else {
        None
    }
}

/// They are those of a reduction statement of the variable.
fn are_operands_of(name: &Name, op: Op, a: &Expr, b: &Expr) -> bool
    ensures { result ≡ are_operands_of name.now op (expression a.now) (expression b.now) }
{
    is_joined(name, a, b) || (!is_difference(op) && is_joined(name, b, a))
}

/// The first is the variable, and the second doesn't name it.
fn is_joined(name: &Name, a: &Expr, b: &Expr) -> bool
    ensures { result ≡ is_joined name.now (expression a.now) (expression b.now) }
{
    is_alone(name, a) && is_without(name, b)
}

/// The variable, alone.
fn is_alone(name: &Name, e: &Expr) -> bool
    ensures { result ≡ is_alone name.now (expression e.now) }
{
    match e {
        Expr::Ref(reference) => is_name(name, reference),
        _ => false,
    }
}

/// The name without subscripts.
fn is_name(name: &Name, reference: &Ref) -> bool
    ensures { result ≡ is_alone name.now (expression (Expr.Ref reference.now)) }
{
    match &reference.subs {
        None => *name == reference.name,
        Some(_) => false,
    }
}

/// It doesn't name the variable.
fn is_without(name: &Name, e: &Expr) -> bool
    ensures { result ≡ is_without name.now (expression e.now) }
{
    all_pass(&OtherThan { name }, e)
}

/// Whether an expression isn't this name, with or without subscripts.
#[derive(Clone, Copy)]
struct OtherThan<'a> {
    name: &'a Name,
}

impl<'a> ExpressionTest for OtherThan<'a> {
    ghost use Rattle.std.specs.Prelude.{not};
    ghost use Rattle.nest_check.specs.ReductionStatements.{refers_to};

    ghost passes = { λ t e. not (refers_to t.name.now e) };

    fn test(&self, e: &Expr) -> bool {
        match e {
            Expr::Ref(reference) => self.test_reference(reference),
            _ => true,
        }
    }

    fn test_reference(&self, reference: &Ref) -> bool {
        *self.name != reference.name
    }
}

/// A difference.
fn is_difference(op: Op) -> bool
    ensures { result ≡ is_difference op }
{
    matches!(op, Op::Sub)
}

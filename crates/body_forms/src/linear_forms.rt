//! The subscripts that a body may have: those that are linear in at most one index.

ghost use Rattle.std.specs.Prelude.{◌≡◌};
ghost use Rattle.std.specs.List.{list_all};
ghost use Rattle.syntax_tree.specs.Expression.{expression, parts_of, subscript};
ghost use Rattle.body_forms.specs.Forms.{form_of, operation, product, sum};
ghost use Rattle.body_forms.specs.declared.linear_forms.Linearity.TheVariants.{LinearIn};
ghost use Rattle.body_forms.specs.Subscripts.{has_linear_subscripts, indices_in, indices_of_name, is_empty, is_linear, is_sign, items};

use crate::body_names::BodyNames;
use hpf_base::Name;
use op_tables::Op;
use syntax_tree::{Expr, Ref, Subscript};

/// What an expression is in the indices of a body.
#[derive(Clone, Copy)]
pub(crate) enum Linearity {
    Nonlinear,
    /// It names no index.
    Constant,
    /// `a*x + c` in this index x alone.
    LinearIn(Name),
}

/// The subscripts after a name, if there are any, are linear in at most one index each.
pub fn has_linear_subscripts(names: &BodyNames<'_>, reference: &Ref) -> bool
    ensures { result ≡ has_linear_subscripts names.now (expression (Expr.Ref reference.now)) }
{
    match &reference.subs {
        None => true,
        Some(parts) => are_linear(names, parts),
    }
}

/// Each of them is linear in at most one index.
fn are_linear(names: &BodyNames<'_>, parts: &[Subscript]) -> bool
    ensures { result ≡ list_all (is_linear names.now) (items (parts_of parts.now)) }
{
    let mut all = true;
    for part in parts {
        all &= is_linear(names, part);
    }
    all
}

/// It is linear in at most one index.
#[tactic(auto, using(crate::proofs::Forms::one_index))]
fn is_linear(names: &BodyNames<'_>, part: &Subscript) -> bool
    ensures { result ≡ is_linear names.now (subscript part.now) }
{
    match part {
        Subscript::One(e) => !matches!(linear_form(names, e), Linearity::Nonlinear),
        Subscript::Triplet { .. } => false,
    }
}

/// The form of an expression.
#[tactic(auto, using(crate::proofs::Forms::form_operation))]
fn linear_form(names: &BodyNames<'_>, e: &Expr) -> Linearity
    ensures { result ≡ form_of (indices_in names.now (expression e.now)) }
{
    match e {
        Expr::Int(_) => Linearity::Constant,
        Expr::Ref(reference) => form_of_reference(names, reference),
        Expr::Unary(op, a) => if is_sign(*op) {
            linear_form(names, a)
        } else {
            Linearity::Nonlinear
        },
        Expr::Binary(op, a, b) => operation(*op, linear_form(names, a), linear_form(names, b)),
        Expr::Paren(a) => linear_form(names, a),
        Expr::Bool(_) | Expr::Call(_, _) => Linearity::Nonlinear,
    }
}

/// The form of a name with the subscripts after it.
fn form_of_reference(names: &BodyNames<'_>, reference: &Ref) -> Linearity
    ensures { result ≡ form_of (indices_in names.now (expression (Expr.Ref reference.now))) }
{
    match &reference.subs {
        None => form_of_name(names, &reference.name),
        Some(_) => Linearity::Nonlinear,
    }
}

/// The form of a name by itself.
fn form_of_name(names: &BodyNames<'_>, name: &Name) -> Linearity
    ensures { result ≡ form_of (indices_of_name names.now name.now) }
{
    if names.is_index(name) {
        Linearity::LinearIn(*name)
    } else if names.is_fixed(name) {
        Linearity::Constant
    } else {
        Linearity::Nonlinear
    }
}

/// A sign.
fn is_sign(op: Op) -> bool
    ensures { result ≡ is_sign op }
{
    matches!(op, Op::Neg | Op::Plus)
}

/// The form of an operation.
fn operation(op: Op, a: Linearity, b: Linearity) -> Linearity
    ensures { result ≡ operation op a b }
{
    match op {
        Op::Add | Op::Sub => sum(a, b),
        Op::Mul => product(a, b),
        _ => Linearity::Nonlinear,
    }
}

/// The form of a sum or of a difference.
fn sum(a: Linearity, b: Linearity) -> Linearity
    ensures { result ≡ sum a b }
{
    match a {
        Linearity::Nonlinear => Linearity::Nonlinear,
        Linearity::Constant => b,
        Linearity::LinearIn(x) => with_index(x, b),
    }
}

/// The form of a sum of a form in this index and of another.
fn with_index(x: Name, b: Linearity) -> Linearity
    ensures { result ≡ sum (LinearIn x) b }
{
    match b {
        Linearity::Nonlinear => Linearity::Nonlinear,
        Linearity::Constant => Linearity::LinearIn(x),
        Linearity::LinearIn(y) => if x == y {
            Linearity::LinearIn(x)
        } else {
            Linearity::Nonlinear
        },
    }
}

/// The form of a product.
fn product(a: Linearity, b: Linearity) -> Linearity
    ensures { result ≡ product a b }
{
    match (a, b) {
        (Linearity::Constant, _) => b,
        (Linearity::LinearIn(_), Linearity::Constant) => a,
        _ => Linearity::Nonlinear,
    }
}

/// The expression is linear and names no index.
#[tactic(auto, using(crate::proofs::Forms::no_index))]
pub fn is_without_index(names: &BodyNames<'_>, e: &Expr) -> bool
    ensures { result ≡ is_empty (indices_in names.now (expression e.now)) }
{
    matches!(linear_form(names, e), Linearity::Constant)
}

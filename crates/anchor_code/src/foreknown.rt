//! Subscripts whose values are known before the mask of a WHERE is evaluated: they are linear in numbers and scalars.

ghost use Rattle.std.specs.Prelude.{◌≡◌, ◌&&◌};
ghost use Rattle.resolved_program.specs.Resolved.{subscripts_of, term, terms_of};
ghost use Rattle.statement_trail.specs.Anchors.{are_all_foreknown, are_foreknown, is_foreknown};
ghost use Rattle.statement_trail.specs.LinearOperators.{is_linear_operator};
ghost use Rattle.anchor_code.specs.Subscripts.{is_subscript_foreknown};

use op_tables::Op;
use resolved_program::{SectionSubscript, Term};

/// All subscripts of a section are.
pub(crate) fn are_all_foreknown(subscripts: &[SectionSubscript]) -> bool
    ensures { result ≡ are_all_foreknown (subscripts_of subscripts.now) }
{
    for d in subscripts {
        if !is_subscript_foreknown(d) {
            return false;
        }
    }
    true
}

/// One of them is.
fn is_subscript_foreknown(d: &SectionSubscript) -> bool
    ensures { result ≡ is_subscript_foreknown d.now }
{
    match d {
        SectionSubscript::Subscript(t) => is_foreknown(t),
        SectionSubscript::Triplet(first, last, step) => {
            is_foreknown(first) && is_foreknown(last) && is_foreknown(step)
        }
    }
}

/// The value of an expression is.
#[cycle(is_foreknown)]
fn is_foreknown(t: &Term) -> bool
    ensures { result ≡ is_foreknown (term t.now) }
{
    match t {
        Term::Number(_) | Term::Scalar(_) => true,
        Term::Apply(op, operands) => is_operation_foreknown(*op, operands),
        _ => false,
    }
}

/// That of an operator is.
#[cycle(is_foreknown)]
fn is_operation_foreknown(op: Op, operands: &[Term]) -> bool
    ensures { result ≡ (is_linear_operator op && are_foreknown (terms_of operands.now)) }
{
    is_linear_operator(op) && are_foreknown(operands)
}

/// Those of expressions are.
#[cycle(is_foreknown)]
fn are_foreknown(terms: &[Term]) -> bool
    ensures { result ≡ are_foreknown (terms_of terms.now) }
{
    for t in terms {
        if !is_foreknown(t) {
            return false;
        }
    }
    true
}

/// An operator is a sign, a sum or a product.
fn is_linear_operator(op: Op) -> bool
    ensures { result ≡ is_linear_operator op }
{
    matches!(op, Op::Neg | Op::Plus | Op::Add | Op::Sub | Op::Mul)
}

//! Subscripts of a FORALL by the index that stands in them.

ghost use Rattle.std.specs.Prelude.{◌≡◌, IfOk, map, [], ◌∷◌, None, Some, pos, ◌+ℤ◌, ◌*ℤ◌};
ghost use Rattle.std.specs.Result.{result_unwrap_or};
ghost use Rattle.array_meaning.specs.Expressions.{value};
ghost use Rattle.array_meaning.specs.Forall.{Linear, linear, linears, linear_by, negated, added, multiplied, index_free, without_index};
ghost use Rattle.op_tables.specs.Operators.{wrapped};
ghost use Rattle.resolved_program.specs.Resolved.{term, terms_of};
ghost use Rattle.term_values.specs.States.{state_of};
ghost use Rattle.forall_conditions.specs.Linears.{linear_of, linear_or};

use op_tables::Op;
use resolved_program::Term;
use std::alloc::AllocError;
use term_values::{State, Stop, value};

/// A subscript as `factor * index + offset`, over numbers of 64 bits that wrap. The index goes by its place in the header.
#[derive(Clone, Copy)]
pub struct LinearForm {
    pub index: Option<usize>,
    pub factor: i64,
    pub offset: i64,
}

/// The linear form of a subscript, by its signs, sums, differences and products. What else stands in it counts as what it is without
/// indices, and as 0 where that has a fault.
#[cycle(linear)]
pub fn linear(s: &State, t: &Term) -> Result<LinearForm, AllocError>
    ensures { IfOk result (λ x. linear_of x ≡ linear (state_of s.now) (term t.now)) }
{
    match t {
        Term::Index(k) => Ok(LinearForm {
            index: Some(*k),
            factor: 1,
            offset: 0,
        }),
        Term::Apply(op, operands) => {
            let xs = linears(s, operands)?;
            match linear_by(*op, &xs) {
                Some(x) => Ok(x),
                None => index_free(s, t),
            }
        }
        _ => index_free(s, t),
    }
}

/// Those of subscripts in order.
#[cycle(linear)]
pub(crate) fn linears(s: &State, terms: &Vec<Term>) -> Result<Vec<LinearForm>, AllocError>
    ensures { IfOk result (λ xs. map linear_of xs.items ≡ linears (state_of s.now) (terms_of terms.now.items)) }
{
    let mut xs = Vec::new(*s.scalars.allocator());
    for t in terms {
        let x = linear(s, t)?;
        xs.push(x)?;
    }
    Ok(xs)
}

/// What an expression is without indices.
fn index_free(s: &State, t: &Term) -> Result<LinearForm, AllocError>
    ensures { IfOk result (λ x. linear_of x ≡ index_free (state_of s.now) (term t.now)) }
{
    match value(s, &[], t) {
        Ok(offset) => Ok(LinearForm {
            index: None,
            factor: 0,
            offset,
        }),
        Err(Stop::Fault(_)) => Ok(LinearForm {
            index: None,
            factor: 0,
            offset: 0,
        }),
        Err(Stop::Memory) => Err(AllocError),
    }
}

/// The linear form of an operator over its operands; None where it is another one than a sign, a sum, a difference or a product.
fn linear_by(op: Op, xs: &[LinearForm]) -> Option<LinearForm>
    ensures { (other : Linear) → linear_or result other ≡ linear_by op (map linear_of xs.now) other }
{
    match xs {
        [x] => of_one(op, x),
        [x, y] => of_two(op, x, y),
        _ => None,
    }
}

/// The linear form of an operator over one operand; None where it is another one than a sign.
fn of_one(op: Op, x: &LinearForm) -> Option<LinearForm>
    ensures { (other : Linear) → linear_or result other ≡ linear_by op (linear_of x.now ∷ []) other }
{
    match op {
        Op::Neg => Some(negated(x)),
        Op::Plus => Some(*x),
        _ => None,
    }
}

/// The linear form of an operator over two operands; None where it is another one than a sum, a difference or a product.
fn of_two(op: Op, x: &LinearForm, y: &LinearForm) -> Option<LinearForm>
    ensures { (other : Linear) → linear_or result other ≡ linear_by op (linear_of x.now ∷ linear_of y.now ∷ []) other }
{
    match op {
        Op::Add => Some(added(x, y)),
        Op::Sub => Some(added(x, &negated(y))),
        Op::Mul => Some(multiplied(x, y)),
        _ => None,
    }
}

#[tactic(auto, using(std::proofs::lemmas::Int::wraps))]
fn negated(x: &LinearForm) -> LinearForm
    ensures { linear_of result ≡ negated (linear_of x.now) }
{
    LinearForm {
        index: x.index,
        factor: 0i64.wrapping_sub(x.factor),
        offset: 0i64.wrapping_sub(x.offset),
    }
}

#[tactic(auto, using(std::proofs::lemmas::Int::wraps))]
fn added(x: &LinearForm, y: &LinearForm) -> LinearForm
    ensures { linear_of result ≡ added (linear_of x.now) (linear_of y.now) }
{
    LinearForm {
        index: x.index.or(y.index),
        factor: x.factor.wrapping_add(y.factor),
        offset: x.offset.wrapping_add(y.offset),
    }
}

/// One of the two has no index.
#[tactic(auto, using(std::proofs::lemmas::Int::wraps, crate::proofs::Wrapped::wrapped_sum))]
fn multiplied(x: &LinearForm, y: &LinearForm) -> LinearForm
    ensures { linear_of result ≡ multiplied (linear_of x.now) (linear_of y.now) }
{
    let a = scaled(x, &y.offset);
    let b = scaled(y, &x.offset);
    LinearForm {
        index: x.index.or(y.index),
        factor: a.factor.wrapping_add(b.factor),
        offset: a.offset,
    }
}

/// A linear form times a number.
#[tactic(auto, using(std::proofs::lemmas::Int::wraps))]
fn scaled(x: &LinearForm, by: &i64) -> LinearForm
    ensures { linear_of result ≡ record { index = x.now.index; factor = wrapped (x.now.factor *ℤ by.now); offset = wrapped (x.now.offset *ℤ by.now) } }
{
    LinearForm {
        index: x.index,
        factor: x.factor.wrapping_mul(*by),
        offset: x.offset.wrapping_mul(*by),
    }
}

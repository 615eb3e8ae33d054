//! The values of operators of one and of two operands.

ghost use Rattle.std.specs.Prelude.{◌≡◌, ◌≢◌, ◌∷◌, [], pos, int_div, true};
ghost use Rattle.array_meaning.specs.Elementals.{operated};
ghost use Rattle.op_tables.specs.Operators.{truth as number_of, wrapped};
ghost use Rattle.op_tables.specs.declared.op.Op.TheVariants.{Div, Mod};
ghost use Rattle.scalar_values.specs.Known.{IsKnown};

use crate::known_results::{Known, found, unknown};
use op_tables::{Op, apply};

/// The value of an operator of two operands (Fortran 95, 7.1.7), where it is known. It takes no memory.
#[inline(always)]
#[tactic(auto, using(std::proofs::lemmas::Int::wraps))]
pub fn value_of_two(op: Op, a: &i64, b: &i64) -> Known
    ensures { IsKnown (operated op (a.now ∷ b.now ∷ [])) result }
{
    match op {
        Op::Add => found(a.wrapping_add(*b)),
        Op::Sub => found(a.wrapping_sub(*b)),
        Op::Mul => found(a.wrapping_mul(*b)),
        Op::Div => quotient(a, b),
        Op::Mod => remainder(a, b),
        Op::Eq => truth(*a == *b),
        Op::Ne => truth(*a != *b),
        Op::Lt => truth(*a < *b),
        Op::Le => truth(*a <= *b),
        Op::Gt => truth(*a > *b),
        Op::Ge => truth(*a >= *b),
        Op::And => truth((*a != 0) & (*b != 0)),
        Op::Or => truth((*a != 0) | (*b != 0)),
        Op::Eqv => truth((*a != 0) == (*b != 0)),
        Op::Neqv => truth((*a != 0) != (*b != 0)),
        Op::Max => found((*a).max(*b)),
        Op::Min => found((*a).min(*b)),
        Op::BitAnd => found(*a & *b),
        Op::BitOr => found(*a | *b),
        Op::BitXor => found(*a ^ *b),
        _ => value_of_rare(op, a, b),
    }
}

/// The value of an operator of one operand, where it is known. It takes no memory.
#[inline(always)]
#[tactic(auto, using(std::proofs::lemmas::Int::wraps))]
pub fn value_of_one(op: Op, a: &i64) -> Known
    ensures { IsKnown (operated op (a.now ∷ [])) result }
{
    match op {
        Op::Neg => found(a.wrapping_neg()),
        Op::Plus => found(*a),
        Op::LogNot => truth(*a == 0),
        Op::Abs => found(if *a < 0 { a.wrapping_neg() } else { *a }),
        Op::BitNot => found(!*a),
        _ => value_of_any(op, &[*a]),
    }
}

/// The value of any operator of two operands.
#[inline(never)]
fn value_of_rare(op: Op, a: &i64, b: &i64) -> Known
    ensures { IsKnown (operated op (a.now ∷ b.now ∷ [])) result }
{
    value_of_any(op, &[*a, *b])
}

/// The value of any operator.
#[inline(never)]
fn value_of_any(op: Op, operands: &[i64]) -> Known
    ensures { IsKnown (operated op operands.now) result }
{
    match apply(op, operands) {
        Ok(value) => found(value),
        Err(_) => unknown(),
    }
}

/// The number of a logical value.
#[inline(always)]
fn truth(holds: bool) -> Known
    ensures value { result.value ≡ number_of holds }
    ensures known { result.known ≡ true }
{
    Known {
        value: holds as i64,
        known: true,
    }
}

/// The quotient, rounded toward zero.
#[inline(never)]
fn quotient(a: &i64, b: &i64) -> Known
    ensures { IsKnown (operated Div (a.now ∷ b.now ∷ [])) result }
{
    if *b == 0 {
        unknown()
    } else {
        found(wrapping_quotient(*a, *b))
    }
}

/// The quotient in 64 bits: only that of the least number by -1 wraps.
fn wrapping_quotient(a: i64, b: i64) -> i64
    requires { b ≢ pos 0 }
    ensures { result ≡ wrapped (int_div a b) }
{
    a.wrapping_div(b)
}

/// What is left of a number by the quotient.
#[inline(never)]
fn remainder(a: &i64, b: &i64) -> Known
    ensures { IsKnown (operated Mod (a.now ∷ b.now ∷ [])) result }
{
    if *b == 0 {
        unknown()
    } else {
        found(a.wrapping_rem(*b))
    }
}

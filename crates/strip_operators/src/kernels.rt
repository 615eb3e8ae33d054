//! Operators over strips: each is one loop, which the compiler can make of vectors where the operator has a value for all operands.

ghost use Rattle.std.specs.Prelude.{◌≡◌, ◌≢◌, ◌<◌, ◌∷◌, [], length, pos, slice_index_or, slice_set, true, IfSome, Ok};
ghost use Rattle.array_meaning.specs.Elementals.{operated};
ghost use Rattle.op_tables.specs.declared.op.Op.TheVariants.{Div};
ghost use Rattle.op_tables.specs.Operators.{value_of};
ghost use Rattle.strip_operators.specs.Operated.{AreOfOne, AreOfTwo, AreWithNumber};

use crate::operators::{
    Above, Alike, AtLeast, AtMost, Below, BitsOfBoth, BitsOfEither, BitsOfOne, Both, Difference,
    Either, Equal, Greatest, Least, OfTwo, Product, Sum, Unequal, Unlike,
};
use op_tables::Op;
use term_values::{Number, operated, operated_of_two};

/// Takes an operator of one operand over a strip, in its place; false where it may have no value.
pub fn take_of_one(op: Op, out: &mut [i64]) -> bool
    ensures { result ≡ true → AreOfOne op out.old out.new }
{
    for i in 0..out.len() {
        match value_of_one(op, &out[i]) {
            Some(v) => put_value(out, i, &v),
            None => return false,
        }
    }
    true
}

/// Takes an operator of two operands over two strips of one length, in the place of the first; false where it has no value somewhere.
pub fn take_of_two(op: Op, out: &mut [i64], b: &[i64]) -> bool
    requires { length out.old ≡ length b.now }
    ensures { result ≡ true → AreOfTwo op out.old b.now out.new }
{
    match op {
        Op::Add => over::<Sum>(op, out, b),
        Op::Sub => over::<Difference>(op, out, b),
        Op::Mul => over::<Product>(op, out, b),
        Op::Eq => over::<Equal>(op, out, b),
        Op::Ne => over::<Unequal>(op, out, b),
        Op::Lt => over::<Below>(op, out, b),
        Op::Le => over::<AtMost>(op, out, b),
        Op::Gt => over::<Above>(op, out, b),
        Op::Ge => over::<AtLeast>(op, out, b),
        Op::And => over::<Both>(op, out, b),
        Op::Or => over::<Either>(op, out, b),
        Op::Eqv => over::<Alike>(op, out, b),
        Op::Neqv => over::<Unlike>(op, out, b),
        Op::Max => over::<Greatest>(op, out, b),
        Op::Min => over::<Least>(op, out, b),
        Op::BitAnd => over::<BitsOfBoth>(op, out, b),
        Op::BitOr => over::<BitsOfEither>(op, out, b),
        Op::BitXor => over::<BitsOfOne>(op, out, b),
        _ => any_over(op, out, b),
    }
}

/// The same where the second operand is one number.
pub fn take_with_number(op: Op, out: &mut [i64], b: &i64) -> bool
    ensures { result ≡ true → AreWithNumber op out.old b.now out.new }
{
    match op {
        Op::Add => over_number::<Sum>(op, out, b),
        Op::Sub => over_number::<Difference>(op, out, b),
        Op::Mul => over_number::<Product>(op, out, b),
        Op::Div => quotients(out, b),
        Op::Eq => over_number::<Equal>(op, out, b),
        Op::Ne => over_number::<Unequal>(op, out, b),
        Op::Lt => over_number::<Below>(op, out, b),
        Op::Le => over_number::<AtMost>(op, out, b),
        Op::Gt => over_number::<Above>(op, out, b),
        Op::Ge => over_number::<AtLeast>(op, out, b),
        Op::And => over_number::<Both>(op, out, b),
        Op::Or => over_number::<Either>(op, out, b),
        Op::Eqv => over_number::<Alike>(op, out, b),
        Op::Neqv => over_number::<Unlike>(op, out, b),
        Op::Max => over_number::<Greatest>(op, out, b),
        Op::Min => over_number::<Least>(op, out, b),
        Op::BitAnd => over_number::<BitsOfBoth>(op, out, b),
        Op::BitOr => over_number::<BitsOfEither>(op, out, b),
        Op::BitXor => over_number::<BitsOfOne>(op, out, b),
        _ => any_over_number(op, out, b),
    }
}

/// Takes an operator that has a value for all operands over two strips.
#[inline(never)]
fn over<K: OfTwo>(op: Op, out: &mut [i64], b: &[i64]) -> bool
    requires is { op ≡ K.op }
    requires long { length out.old ≡ length b.now }
    ensures { result ≡ true → AreOfTwo op out.old b.now out.new }
{
    for i in 0..b.len() {
        put::<K>(out, i, &b[i]);
    }
    true
}

/// The same where the second operand is one number.
#[inline(never)]
fn over_number<K: OfTwo>(op: Op, out: &mut [i64], b: &i64) -> bool
    requires is { op ≡ K.op }
    ensures { result ≡ true → AreWithNumber op out.old b.now out.new }
{
    for i in 0..out.len() {
        put::<K>(out, i, b);
    }
    true
}

/// One place of both.
#[inline(always)]
fn put<K: OfTwo>(out: &mut [i64], i: usize, b: &i64)
    requires { i < length out.old }
    ensures { out.new ≡ slice_set out.old i (value_of K.op (slice_index_or out.old i (pos 0) ∷ b.now ∷ [])) }
{
    out[i] = K::value(&out[i], b).value;
}

/// Divides all numbers of a strip by one that isn't 0; false where it is.
#[inline(never)]
fn quotients(out: &mut [i64], b: &i64) -> bool
    ensures { result ≡ true → AreWithNumber Div out.old b.now out.new }
{
    if *b == 0 {
        return false;
    }
    for i in 0..out.len() {
        let v = quotient(&out[i], b);
        put_value(out, i, &v);
    }
    true
}

/// The quotient, rounded toward zero. Only the least number by -1 wraps.
#[inline(always)]
fn quotient(a: &i64, b: &i64) -> Number
    requires { b.now ≢ pos 0 }
    ensures { operated Div (a.now ∷ b.now ∷ []) ≡ Ok result.value }
{
    Number {
        value: a.wrapping_div(*b),
    }
}

/// Takes any operator over two strips.
#[inline(never)]
fn any_over(op: Op, out: &mut [i64], b: &[i64]) -> bool
    requires { length out.old ≡ length b.now }
    ensures { result ≡ true → AreOfTwo op out.old b.now out.new }
{
    for i in 0..b.len() {
        match value_of_two(op, &out[i], &b[i]) {
            Some(v) => put_value(out, i, &v),
            None => return false,
        }
    }
    true
}

/// The same where the second operand is one number.
#[inline(never)]
fn any_over_number(op: Op, out: &mut [i64], b: &i64) -> bool
    ensures { result ≡ true → AreWithNumber op out.old b.now out.new }
{
    for i in 0..out.len() {
        match value_of_two(op, &out[i], b) {
            Some(v) => put_value(out, i, &v),
            None => return false,
        }
    }
    true
}

/// The value of an operator of two operands; None where there is none.
fn value_of_two(op: Op, a: &i64, b: &i64) -> Option<Number>
    ensures { IfSome result (λ v. operated op (a.now ∷ b.now ∷ []) ≡ Ok v.value) }
{
    match operated_of_two(op, a, b) {
        Ok(value) => Some(Number { value }),
        Err(_) => None,
    }
}

/// The value of an operator of one operand; None where there is none.
fn value_of_one(op: Op, a: &i64) -> Option<Number>
    ensures { IfSome result (λ v. operated op (a.now ∷ []) ≡ Ok v.value) }
{
    match operated(op, &[*a]) {
        Ok(value) => Some(Number { value }),
        Err(_) => None,
    }
}

/// Puts a number at a place.
#[inline(always)]
fn put_value(out: &mut [i64], i: usize, v: &Number)
    requires { i < length out.old }
    ensures { out.new ≡ slice_set out.old i v.now.value }
{
    out[i] = v.value;
}

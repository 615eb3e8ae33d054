//! The values of operators and elemental procedures, over numbers of 64 bits.

ghost use Rattle.std.specs.Prelude.{◌≡◌, ◌≢◌, ◌%◌, ◌^◌, pos, int_div, fold};
ghost use Rattle.std.specs.Int.{int_pow, int_max, int_min};
ghost use Rattle.std.specs.Result.{result_ok};
ghost use Rattle.op_tables.specs.Operators.{modulo, operator_value, power, quotient, quotient_of, signed_as, value_of, value_by_count, value_of_one, value_of_two, wrapped, truth, is_true};

use crate::op::Op;

/// Division by zero, or a power below 0 of 0.
#[derive(Clone, Copy, PartialEq, Eq)]
pub struct DivZero;

/// The value of an operator or elemental procedure (Fortran 95, 7.1.5, 7.2 and 13.14), over numbers of 64 bits that
/// wrap: where the value below has more, the number of 64 bits in its class modulo 2^64. It takes no memory.
///
/// | operator | value |
/// |---|---|
/// | `+`, `-`, `*`, the signs | as in arithmetic |
/// | `/` | the quotient, rounded toward zero |
/// | `**` | the power; below 0 its inverse, rounded toward zero |
/// | relations, `.NOT.` to `.NEQV.` | 1 where it holds, else 0; an operand of 0 is false, and any other true |
/// | `ABS`, `SIGN` | the magnitude; the magnitude of the first with the sign of the second |
/// | `DIM` | the difference, or 0 where that is below 0 |
/// | `MOD` | what is left of the first operand by the quotient |
/// | `MODULO` | the number of the first's class modulo the second that has the second's sign |
/// | `MAX`, `MIN` | the greatest and the least, of any number of operands |
/// | `IAND`, `IOR`, `IEOR`, `NOT` | bit by bit |
///
/// DivZero comes exactly where `/`, `MOD` or `MODULO` has 0 for its second operand, and where 0 has a power below 0.
/// What has no value here, as a reduction, or an operator with another number of operands than it takes, gives 0.
///
/// So -7 / 2 is -3, MOD(-7, 3) is -1, MODULO(-7, 3) is 2, and the least number divided by -1 is the least number.
pub fn apply(op: Op, args: &[i64]) -> Result<i64, DivZero>
    ensures { result_ok result ≡ operator_value op args.now }
{
    match op {
        Op::Div | Op::Pow | Op::Mod | Op::Modulo => quotient_of(op, args),
        _ => Ok(value_of(op, args)),
    }
}

/// The value of an operator that has none where a divisor is 0.
fn quotient_of(op: Op, args: &[i64]) -> Result<i64, DivZero>
    ensures { result_ok result ≡ quotient_of op args.now }
{
    if let [a, b] = args {
        quotient(op, *a, *b)
    } else {
        Ok(0)
    }
}

/// The value of such an operator of two operands.
fn quotient(op: Op, a: i64, b: i64) -> Result<i64, DivZero>
    ensures { result_ok result ≡ quotient op a b }
{
    match op {
        Op::Pow => power(a, b),
        Op::Div if b != 0 => Ok(wrapping_quotient(a, b)),
        Op::Mod if b != 0 => Ok(a.wrapping_rem(b)),
        Op::Modulo if b != 0 => Ok(modulo(a, b)),
        Op::Div | Op::Mod | Op::Modulo => Err(DivZero),
        _ => Ok(0),
    }
}

/// The quotient, rounded toward zero. Only the least number by -1 wraps.
fn wrapping_quotient(a: i64, b: i64) -> i64
    requires { b ≢ pos 0 }
    ensures { result ≡ wrapped (int_div a b) }
{
    a.wrapping_div(b)
}

/// The number of a's class modulo b that has b's sign.
fn modulo(a: i64, b: i64) -> i64
    requires { b ≢ pos 0 }
    ensures { result ≡ modulo a b }
{
    let rest = a.wrapping_rem(b);
    if rest != 0 && (rest < 0) != (b < 0) {
        rest + b
    } else {
        rest
    }
}

/// The magnitude of a number with the sign of another.
#[tactic(auto, using(std::proofs::lemmas::Int::wraps))]
fn signed_as(a: i64, b: i64) -> i64
    ensures { result ≡ wrapped (signed_as a b) }
{
    if (a < 0) == (b < 0) {
        a
    } else {
        a.wrapping_neg()
    }
}

/// The power, or its inverse where the exponent is below 0.
fn power(a: i64, b: i64) -> Result<i64, DivZero>
    ensures { result_ok result ≡ power a b }
{
    if b >= 0 {
        return Ok(wrapping_power(a, b.unsigned_abs()));
    }
    match a {
        0 => Err(DivZero),
        1 => Ok(1),
        -1 => Ok(if b % 2 == 0 { 1 } else { -1 }),
        _ => Ok(0),
    }
}

/// The power in 64 bits.
#[tactic(auto, using(crate::proofs::Wrapping::wrapping_pow_is))]
fn wrapping_power(base: i64, exponent: u64) -> i64
    ensures { result ≡ wrapped (int_pow base exponent) }
{
    bits_of_power(base.cast_unsigned(), exponent).cast_signed()
}

/// The lowest 64 bits of a power, by squaring at most 64 times.
fn bits_of_power(base: u64, exponent: u64) -> u64
    ensures { result ≡ (base ^ exponent) % 2 ^ 64 }
{
    let mut power: u64 = 1;
    let mut square = base;
    let mut left = exponent;
    while 0 < left {
        if left % 2 == 1 {
            power = power.wrapping_mul(square);
        }
        square = square.wrapping_mul(square);
        left /= 2;
    }
    power
}

/// The value of an operator that has one for all operands.
fn value_of(op: Op, args: &[i64]) -> i64
    ensures { result ≡ value_of op args.now }
{
    match (op, args.split_first()) {
        (Op::Max, Some((first, rest))) => greatest(*first, rest),
        (Op::Min, Some((first, rest))) => least(*first, rest),
        _ => value_by_count(op, args),
    }
}

/// The greatest of a number and some others.
fn greatest(first: i64, rest: &[i64]) -> i64
    ensures { result ≡ fold int_max first rest.now }
{
    let mut most = first;
    for x in rest {
        most = most.max(*x);
    }
    most
}

/// The least of a number and some others.
fn least(first: i64, rest: &[i64]) -> i64
    ensures { result ≡ fold int_min first rest.now }
{
    let mut least = first;
    for x in rest {
        least = least.min(*x);
    }
    least
}

/// The value of such an operator of one or two operands.
fn value_by_count(op: Op, args: &[i64]) -> i64
    ensures { result ≡ value_by_count op args.now }
{
    match args {
        [a] => value_of_one(op, *a),
        [a, b] => value_of_two(op, *a, *b),
        _ => 0,
    }
}

/// The value of such an operator of one operand.
#[tactic(auto, using(std::proofs::lemmas::Int::wraps))]
fn value_of_one(op: Op, a: i64) -> i64
    ensures { result ≡ value_of_one op a }
{
    match op {
        Op::Neg => a.wrapping_neg(),
        Op::Plus => a,
        Op::LogNot => truth(a == 0),
        Op::Abs => signed_as(a, 0),
        Op::BitNot => !a,
        _ => 0,
    }
}

/// The number of a logical value.
pub(crate) fn truth(holds: bool) -> i64
    ensures { result ≡ truth holds }
{
    if holds { 1 } else { 0 }
}

/// The value of such an operator of two operands.
#[tactic(auto, using(std::proofs::lemmas::Int::wraps))]
fn value_of_two(op: Op, a: i64, b: i64) -> i64
    ensures { result ≡ value_of_two op a b }
{
    match op {
        Op::Add => a.wrapping_add(b),
        Op::Sub => a.wrapping_sub(b),
        Op::Mul => a.wrapping_mul(b),
        Op::Eq => truth(a == b),
        Op::Ne => truth(a != b),
        Op::Lt => truth(a < b),
        Op::Le => truth(a <= b),
        Op::Gt => truth(a > b),
        Op::Ge => truth(a >= b),
        Op::And => truth(a != 0 && b != 0),
        Op::Or => truth(a != 0 || b != 0),
        Op::Eqv => truth((a != 0) == (b != 0)),
        Op::Neqv => truth((a != 0) != (b != 0)),
        Op::Dim => if a > b { a.wrapping_sub(b) } else { 0 },
        Op::Sign => signed_as(a, b),
        Op::BitAnd => a & b,
        Op::BitOr => a | b,
        Op::BitXor => a ^ b,
        _ => 0,
    }
}

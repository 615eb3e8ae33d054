//! The places of an axis at which a subscript that moves along it is in bounds.

ghost use Rattle.std.specs.Prelude.{◌≡◌, ◌≢◌, ℕ, ◌*◌, ◌<◌, ◌≤◌, ◌&&◌, nat_le, nat_lt, min, pos, ◌+ℤ◌, ◌-ℤ◌};
ghost use Rattle.std.specs.Option.{is_some};
ghost use Rattle.expression_rules.specs.Dims.{at_least_none};
ghost use Rattle.array_meaning.specs.State.{offset};
ghost use Rattle.courses.specs.AxisTables.{subscript_on};

use expression_rules::Dim;

/// The places from `begin` up to `end`, without `end`.
pub(crate) struct Span {
    pub(crate) begin: u64,
    pub(crate) end: u64,
}

/// The places below extent at which a subscript is in the bounds of a dimension. One that rises comes to the lower bound first, one that falls to the
/// upper one.
pub(crate) fn span_of(dim: Dim, first: i64, step: i64, extent: u64) -> Span
    requires moves { step ≢ pos 0 }
    ensures order { result.begin ≤ result.end }
    ensures within { result.end ≤ extent }
    ensures places { (x : ℕ) → x < extent → is_some (offset dim (subscript_on first step x)) ≡ (nat_le result.begin x && nat_lt x result.end) }
{
    let size = step.unsigned_abs() as u128;
    if step > 0 {
        span_between(
            above(dim.lower, first),
            past(dim.upper, first),
            size,
            extent,
        )
    } else {
        span_between(
            above(first, dim.upper),
            past(first, dim.lower),
            size,
            extent,
        )
    }
}

/// The places x below extent at which `x * size` is at least `near` and below `far`.
fn span_between(near: u128, far: u128, size: u128, extent: u64) -> Span
    requires { 1 ≤ size }
    ensures order { result.begin ≤ result.end }
    ensures within { result.end ≤ extent }
    ensures places { (x : ℕ) → x < extent → (nat_le near (x * size) && nat_lt (x * size) far) ≡ (nat_le result.begin x && nat_lt x result.end) }
{
    let end = least(far.div_ceil(size), extent);
    Span {
        begin: least(near.div_ceil(size), end),
        end,
    }
}

/// The number, or the limit where that is less.
fn least(number: u128, limit: u64) -> u64
    ensures { result ≡ min number limit }
{
    number.min(limit as u128) as u64
}

/// How far a number is above another; 0 where it isn't.
fn above(a: i64, b: i64) -> u128
    ensures { result ≡ at_least_none (a -ℤ b) }
{
    if a < b {
        return 0;
    }
    a.abs_diff(b) as u128
}

/// The least number that is more than `a - b`, or 0.
fn past(a: i64, b: i64) -> u128
    ensures { result ≡ at_least_none ((a -ℤ b) +ℤ pos 1) }
{
    if a < b {
        return 0;
    }
    a.abs_diff(b) as u128 + 1
}

//! Numbers of alignments one after the other: exact, or so great that 64 bits don't hold them.

ghost use Rattle.std.specs.Prelude.{◌≡◌, ◌+◌, ◌^◌, pos, neg_ℤ, ◌+ℤ◌, ◌*ℤ◌, ◌≤ℤ◌, Some, false};
ghost use Rattle.directive_check.specs.WideAlignments.{advanced, is_far, stays_far};

/// A number that is greater in magnitude comes back within 64 bits through no chain of as many alignments as there are names, but by a
/// factor of 0.
const FAR: u128 = 13_835_058_055_282_163_712;

fn is_far(number: i128) -> bool
    ensures { result ≡ is_far number }
{
    number.unsigned_abs() > FAR
}

/// `a * v + b`, where a number that is far is None.
pub(crate) fn advanced(a: i64, v: Option<i128>, b: i64) -> Option<i128>
    ensures { result ≡ advanced a v b }
{
    match v {
        Some(v) => advanced_from(a, v, b),
        None => stays_far(a, b),
    }
}

fn advanced_from(a: i64, v: i128, b: i64) -> Option<i128>
    ensures { result ≡ advanced a (Some v) b }
{
    if is_far(v) {
        stays_far(a, b)
    } else {
        Some(linear(a, v, b))
    }
}

/// What is far stays so, but for a factor of 0.
fn stays_far(a: i64, b: i64) -> Option<i128>
    ensures { result ≡ stays_far a b }
{
    if a == 0 { Some(b as i128) } else { None }
}

/// `a * v + b` of what isn't far.
fn linear(a: i64, v: i128, b: i64) -> i128
    requires { is_far v ≡ false }
    ensures { result ≡ (a *ℤ v) +ℤ b }
{
    sum(product(a, v), b)
}

fn product(a: i64, v: i128) -> i128
    requires { is_far v ≡ false }
    ensures { result ≡ a *ℤ v }
{
    a as i128 * v
}

fn sum(product: i128, b: i64) -> i128
    requires least { neg_ℤ (pos (2 ^ 126 + 2 ^ 125)) ≤ℤ product }
    requires most { product ≤ℤ pos (2 ^ 126 + 2 ^ 125) }
    ensures { result ≡ product +ℤ b }
{
    product + b as i128
}

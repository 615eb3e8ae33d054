//! Subscripts that are linear in another, computed so that nothing overflows.

ghost use Rattle.std.specs.Prelude.{◌≡◌, ◌^◌, pos, neg_ℤ, ◌+ℤ◌, ◌*ℤ◌, ◌≤ℤ◌};

/// `a * i + b`.
pub(crate) fn linear(a: i64, i: i64, b: i64) -> i128
    ensures { result ≡ (a *ℤ i) +ℤ b }
{
    sum(product(a, i), b)
}

/// `a * b`, which is at most 2^126 in magnitude.
fn product(a: i64, b: i64) -> i128
    ensures value { result ≡ a *ℤ b }
    ensures least { neg_ℤ (pos (2 ^ 126)) ≤ℤ result }
    ensures most { result ≤ℤ pos (2 ^ 126) }
{
    a as i128 * b as i128
}

fn sum(product: i128, b: i64) -> i128
    requires least { neg_ℤ (pos (2 ^ 126)) ≤ℤ product }
    requires most { product ≤ℤ pos (2 ^ 126) }
    ensures { result ≡ product +ℤ b }
{
    product + b as i128
}

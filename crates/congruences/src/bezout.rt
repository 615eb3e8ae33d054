//! The greatest common divisor of two integers, as a sum of multiples of them.

ghost use Rattle.std.specs.Prelude.{◌≡◌, ◌≢◌, ◌+◌, ◌*◌, ◌≤◌, ◌<◌, ◌≤ℤ◌, ◌-ℤ◌, ◌*ℤ◌, pos, unsigned_abs, int_div};
ghost use Rattle.congruences.specs.Bezout.{IsBezout};
ghost use Rattle.congruences.specs.Naturals.{IsInverse};

use crate::inverse::{Inverse, inverse_of};
use crate::residues::residue_of;

/// The greatest common divisor g of two numbers a and b, with `a * x + b * y = g`.
#[derive(Clone, Copy, PartialEq, Eq)]
pub struct Bezout {
    pub g: i128,
    pub x: i128,
    pub y: i128,
}

/// The greatest common divisor of a and b, and a sum of multiples of them that gives it.
///
/// Not both are 0, and neither is greater than 2^62 in magnitude. The coefficients keep that bound too.
pub fn gcd_ext(a: i128, b: i128) -> Bezout
    requires some { 1 ≤ unsigned_abs a + unsigned_abs b }
    requires small_first { unsigned_abs a ≤ 4611686018427387904 }
    requires small_second { unsigned_abs b ≤ 4611686018427387904 }
    ensures value { IsBezout a b result }
    ensures first { unsigned_abs result.x ≤ 4611686018427387904 }
    ensures second { unsigned_abs result.y ≤ 4611686018427387904 }
{
    if b == 0 {
        return alone(a);
    }
    let modulus = b.unsigned_abs();
    let Inverse {
        divisor,
        period: _,
        number,
    } = inverse_of(residue_of(a, modulus), modulus);
    let g = divisor as i128;
    let x = number as i128;
    let product = product(a, x);
    Bezout {
        g,
        x,
        y: quotient(difference(g, product), b),
    }
}

/// The greatest common divisor of a number and 0.
fn alone(a: i128) -> Bezout
    requires small { unsigned_abs a ≤ 4611686018427387904 }
    ensures value { IsBezout a (pos 0) result }
    ensures first { unsigned_abs result.x ≤ 1 }
    ensures second { result.y ≡ pos 0 }
{
    Bezout {
        g: a.abs(),
        x: a.signum(),
        y: 0,
    }
}

/// The product of a factor and a number.
fn product(a: i128, x: i128) -> i128
    requires factor { unsigned_abs a ≤ 4611686018427387904 }
    requires number { unsigned_abs x ≤ 4611686018427387904 }
    ensures value { result ≡ a *ℤ x }
    ensures small { unsigned_abs result ≤ 4611686018427387904 * 4611686018427387904 }
{
    a * x
}

/// How far a divisor is above a product.
fn difference(g: i128, product: i128) -> i128
    requires divisor { unsigned_abs g ≤ 4611686018427387904 }
    requires product { unsigned_abs product ≤ 4611686018427387904 * 4611686018427387904 }
    ensures value { result ≡ g -ℤ product }
    ensures small { unsigned_abs result ≤ 2 * 4611686018427387904 * 4611686018427387904 }
{
    g - product
}

/// The quotient, toward zero.
fn quotient(number: i128, divisor: i128) -> i128
    requires some { divisor ≢ pos 0 }
    requires small { unsigned_abs number ≤ 2 * 4611686018427387904 * 4611686018427387904 }
    ensures { result ≡ int_div number divisor }
{
    number / divisor
}

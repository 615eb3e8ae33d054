//! The inverse of a factor by a modulus.
//!
//! Euclid's algorithm with remainders alone: `factor * number` stays congruent to `last`, and `factor * next` to `rest`,
//! so no number is negative and none reaches the modulus.

ghost use Rattle.std.specs.Prelude.{◌≤◌, ◌<◌};
ghost use Rattle.congruences.specs.Naturals.{IsInverse};

/// The greatest common divisor of a factor and a modulus, the modulus without it, and what the factor is multiplied by to
/// give the divisor.
#[derive(Clone, Copy, PartialEq, Eq)]
pub struct Inverse {
    pub divisor: u128,
    pub period: u128,
    pub number: u128,
}

/// The inverse of a factor by a modulus, as far as there is one: `factor * number` is congruent to the greatest common
/// divisor of both.
///
/// The modulus is at least 1 and at most 2^63, and the factor is below it.
pub fn inverse_of(factor: u128, modulus: u128) -> Inverse
    requires some { 1 ≤ modulus }
    requires small { modulus ≤ 9223372036854775808 }
    requires factor { factor < modulus }
    ensures inverse { IsInverse factor modulus result.divisor result.period result.number }
    ensures below { result.number < modulus }
    ensures some { 0 < result.period }
    ensures within { result.period ≤ modulus }
    ensures divisor { result.divisor ≤ modulus }
{
    let mut last = modulus;
    let mut rest = factor;
    let mut number = 0;
    let mut next = 1 % modulus;
    while rest > 0 {
        let turns = last / rest;
        let further = (number + (modulus - next * turns % modulus)) % modulus;
        let less = last % rest;
        last = rest;
        rest = less;
        number = next;
        next = further;
    }
    Inverse {
        divisor: last,
        period: modulus / last,
        number,
    }
}

//! Numbers of 64 bits, and their arithmetic, which wraps.

ghost use Rattle.std.specs.Prelude.{◌≡◌, ◌+ℤ◌, ◌-ℤ◌, ◌*ℤ◌};
ghost use Rattle.op_tables.specs.Operators.{wrapped};

/// A number in a place of its own.
#[derive(Clone, Copy)]
pub struct Number {
    pub value: i64,
}

/// Two values in order.
#[derive(Clone, Copy)]
pub(crate) struct Pair {
    pub(crate) first: i64,
    pub(crate) second: i64,
}

/// The difference.
#[tactic(auto, using(std::proofs::lemmas::Int::wraps))]
pub(crate) fn difference(a: &i64, b: &i64) -> Number
    ensures { result.value ≡ wrapped (a.now -ℤ b.now) }
{
    Number {
        value: a.wrapping_sub(*b),
    }
}

/// The product.
#[tactic(auto, using(std::proofs::lemmas::Int::wraps))]
pub(crate) fn product(a: &i64, b: &i64) -> Number
    ensures { result.value ≡ wrapped (a.now *ℤ b.now) }
{
    Number {
        value: a.wrapping_mul(*b),
    }
}

/// The sum. It takes no memory.
#[tactic(auto, using(std::proofs::lemmas::Int::wraps))]
pub fn sum(a: &i64, b: &i64) -> Number
    ensures { result.value ≡ wrapped (a.now +ℤ b.now) }
{
    Number {
        value: a.wrapping_add(*b),
    }
}

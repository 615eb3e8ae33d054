//! What joins two numbers to one.

ghost use Rattle.std.specs.Prelude.{◌≡◌};
ghost use Rattle.std.specs.Int.{int_bit_and, int_bit_or, int_bit_xor, w64};
ghost use Rattle.op_tables.specs.Joins.{join, unit};
ghost use Rattle.op_tables.specs.Operators.{wrapped};

use crate::operators::truth;

/// A way to join two numbers of 64 bits to one: that of a reduction (Fortran 95, 13.14), or of the variable of a REDUCTION clause
/// (HPF 2.0, 5.1.2).
#[derive(Clone, Copy, PartialEq, Eq)]
pub enum Join {
    /// The sum, which wraps: SUM and COUNT; `+` and `-`.
    Sum,
    /// The product, which wraps: PRODUCT; `*`.
    Product,
    /// The greater number: MAXVAL; MAX.
    Greatest,
    /// The less number: MINVAL; MIN.
    Least,
    /// The bits that both numbers have: IAND.
    And,
    /// The bits that one of the numbers has, or both: IOR.
    Or,
    /// The bits that just one of the numbers has: IEOR.
    ExclusiveOr,
    /// 1 where one of the numbers is true, or both, else 0: ANY.
    Any,
    /// 1 where both numbers are true, else 0: ALL.
    All,
}

impl Join {
    /// The value of no numbers, which joined with a number gives that number. It takes no memory.
    ///
    /// It is 1 for the product and where all have to be true, the least number of 64 bits for the greatest, the greatest of 64 bits for the
    /// least, -1, which has all bits, for those that both have, and else 0.
    pub fn unit(self) -> i64
        ensures { result ≡ unit self }
    {
        match self {
            Join::Product | Join::All => 1,
            Join::Greatest => i64::MIN,
            Join::Least => i64::MAX,
            Join::And => -1,
            Join::Sum | Join::Or | Join::ExclusiveOr | Join::Any => 0,
        }
    }

    /// Two numbers joined. It takes no memory.
    #[tactic(auto, using(std::proofs::lemmas::Int::wraps))]
    pub fn join(self, a: i64, b: i64) -> i64
        ensures { result ≡ join self a b }
    {
        match self {
            Join::Sum => a.wrapping_add(b),
            Join::Product => a.wrapping_mul(b),
            Join::Greatest => a.max(b),
            Join::Least => a.min(b),
            Join::And => common_bits(a, b),
            Join::Or => bits_of_either(a, b),
            Join::ExclusiveOr => bits_apart(a, b),
            Join::Any => truth(a != 0 || b != 0),
            Join::All => truth(a != 0 && b != 0),
        }
    }
}

/// The bits that both numbers have.
fn common_bits(a: i64, b: i64) -> i64
    ensures { result ≡ int_bit_and w64 (wrapped a) (wrapped b) }
{
    a & b
}

/// The bits that one of the numbers has, or both.
fn bits_of_either(a: i64, b: i64) -> i64
    ensures { result ≡ int_bit_or w64 (wrapped a) (wrapped b) }
{
    a | b
}

/// The bits that just one of the numbers has.
fn bits_apart(a: i64, b: i64) -> i64
    ensures { result ≡ int_bit_xor w64 (wrapped a) (wrapped b) }
{
    a ^ b
}

//! Operators of two operands that have a value for all of them, each a type of its own.

ghost use Rattle.std.specs.Prelude.{◌≡◌, ◌∷◌, [], ℤ, Ok};
ghost use Rattle.op_tables.specs.declared.op.Op.{Op};
ghost use Rattle.op_tables.specs.Operators.{truth, value_of};
ghost use Rattle.array_meaning.specs.Elementals.{operated};

use term_values::Number;

/// An operator of two operands.
pub(crate) trait OfTwo {
    ghost op: { Op };

    /// Its value.
    fn value(a: &i64, b: &i64) -> Number
        ensures { result.value ≡ value_of op (a.now ∷ b.now ∷ []) };

    ghost total: { (a b : ℤ) → operated op (a ∷ b ∷ []) ≡ Ok (value_of op (a ∷ b ∷ [])) };
}

/// The number of a logical value.
#[inline(always)]
fn truth(holds: bool) -> Number
    ensures { result.value ≡ truth holds }
{
    Number {
        value: holds as i64,
    }
}

/// `+`
pub(crate) struct Sum;

impl OfTwo for Sum {
    ghost use Rattle.std.specs.Prelude.{refl};
    ghost use Rattle.op_tables.specs.declared.op.Op.TheVariants.{Add};

    ghost op = { Add };

    ghost total = { λ a b. refl };

    #[inline(always)]
    #[tactic(auto, using(std::proofs::lemmas::Int::wraps))]
    fn value(a: &i64, b: &i64) -> Number {
        Number {
            value: a.wrapping_add(*b),
        }
    }
}

/// `-`
pub(crate) struct Difference;

impl OfTwo for Difference {
    ghost use Rattle.std.specs.Prelude.{refl};
    ghost use Rattle.op_tables.specs.declared.op.Op.TheVariants.{Sub};

    ghost op = { Sub };

    ghost total = { λ a b. refl };

    #[inline(always)]
    #[tactic(auto, using(std::proofs::lemmas::Int::wraps))]
    fn value(a: &i64, b: &i64) -> Number {
        Number {
            value: a.wrapping_sub(*b),
        }
    }
}

/// `*`
pub(crate) struct Product;

impl OfTwo for Product {
    ghost use Rattle.std.specs.Prelude.{refl};
    ghost use Rattle.op_tables.specs.declared.op.Op.TheVariants.{Mul};

    ghost op = { Mul };

    ghost total = { λ a b. refl };

    #[inline(always)]
    #[tactic(auto, using(std::proofs::lemmas::Int::wraps))]
    fn value(a: &i64, b: &i64) -> Number {
        Number {
            value: a.wrapping_mul(*b),
        }
    }
}

/// `==`
pub(crate) struct Equal;

impl OfTwo for Equal {
    ghost use Rattle.std.specs.Prelude.{refl};
    ghost use Rattle.op_tables.specs.declared.op.Op.TheVariants.{Eq};

    ghost op = { Eq };

    ghost total = { λ a b. refl };

    #[inline(always)]
    #[tactic(auto, using(std::proofs::lemmas::Int::wraps))]
    fn value(a: &i64, b: &i64) -> Number {
        truth(*a == *b)
    }
}

/// `/=`
pub(crate) struct Unequal;

impl OfTwo for Unequal {
    ghost use Rattle.std.specs.Prelude.{refl};
    ghost use Rattle.op_tables.specs.declared.op.Op.TheVariants.{Ne};

    ghost op = { Ne };

    ghost total = { λ a b. refl };

    #[inline(always)]
    #[tactic(auto, using(std::proofs::lemmas::Int::wraps))]
    fn value(a: &i64, b: &i64) -> Number {
        truth(*a != *b)
    }
}

/// `<`
pub(crate) struct Below;

impl OfTwo for Below {
    ghost use Rattle.std.specs.Prelude.{refl};
    ghost use Rattle.op_tables.specs.declared.op.Op.TheVariants.{Lt};

    ghost op = { Lt };

    ghost total = { λ a b. refl };

    #[inline(always)]
    #[tactic(auto, using(std::proofs::lemmas::Int::wraps))]
    fn value(a: &i64, b: &i64) -> Number {
        truth(*a < *b)
    }
}

/// `<=`
pub(crate) struct AtMost;

impl OfTwo for AtMost {
    ghost use Rattle.std.specs.Prelude.{refl};
    ghost use Rattle.op_tables.specs.declared.op.Op.TheVariants.{Le};

    ghost op = { Le };

    ghost total = { λ a b. refl };

    #[inline(always)]
    #[tactic(auto, using(std::proofs::lemmas::Int::wraps))]
    fn value(a: &i64, b: &i64) -> Number {
        truth(*a <= *b)
    }
}

/// `>`
pub(crate) struct Above;

impl OfTwo for Above {
    ghost use Rattle.std.specs.Prelude.{refl};
    ghost use Rattle.op_tables.specs.declared.op.Op.TheVariants.{Gt};

    ghost op = { Gt };

    ghost total = { λ a b. refl };

    #[inline(always)]
    #[tactic(auto, using(std::proofs::lemmas::Int::wraps))]
    fn value(a: &i64, b: &i64) -> Number {
        truth(*a > *b)
    }
}

/// `>=`
pub(crate) struct AtLeast;

impl OfTwo for AtLeast {
    ghost use Rattle.std.specs.Prelude.{refl};
    ghost use Rattle.op_tables.specs.declared.op.Op.TheVariants.{Ge};

    ghost op = { Ge };

    ghost total = { λ a b. refl };

    #[inline(always)]
    #[tactic(auto, using(std::proofs::lemmas::Int::wraps))]
    fn value(a: &i64, b: &i64) -> Number {
        truth(*a >= *b)
    }
}

/// `.AND.`
pub(crate) struct Both;

impl OfTwo for Both {
    ghost use Rattle.std.specs.Prelude.{refl};
    ghost use Rattle.op_tables.specs.declared.op.Op.TheVariants.{And};

    ghost op = { And };

    ghost total = { λ a b. refl };

    #[inline(always)]
    #[tactic(auto, using(std::proofs::lemmas::Int::wraps))]
    fn value(a: &i64, b: &i64) -> Number {
        truth((*a != 0) & (*b != 0))
    }
}

/// `.OR.`
pub(crate) struct Either;

impl OfTwo for Either {
    ghost use Rattle.std.specs.Prelude.{refl};
    ghost use Rattle.op_tables.specs.declared.op.Op.TheVariants.{Or};

    ghost op = { Or };

    ghost total = { λ a b. refl };

    #[inline(always)]
    #[tactic(auto, using(std::proofs::lemmas::Int::wraps))]
    fn value(a: &i64, b: &i64) -> Number {
        truth((*a != 0) | (*b != 0))
    }
}

/// `.EQV.`
pub(crate) struct Alike;

impl OfTwo for Alike {
    ghost use Rattle.std.specs.Prelude.{refl};
    ghost use Rattle.op_tables.specs.declared.op.Op.TheVariants.{Eqv};

    ghost op = { Eqv };

    ghost total = { λ a b. refl };

    #[inline(always)]
    #[tactic(auto, using(std::proofs::lemmas::Int::wraps))]
    fn value(a: &i64, b: &i64) -> Number {
        truth((*a != 0) == (*b != 0))
    }
}

/// `.NEQV.`
pub(crate) struct Unlike;

impl OfTwo for Unlike {
    ghost use Rattle.std.specs.Prelude.{refl};
    ghost use Rattle.op_tables.specs.declared.op.Op.TheVariants.{Neqv};

    ghost op = { Neqv };

    ghost total = { λ a b. refl };

    #[inline(always)]
    #[tactic(auto, using(std::proofs::lemmas::Int::wraps))]
    fn value(a: &i64, b: &i64) -> Number {
        truth((*a != 0) != (*b != 0))
    }
}

/// `MAX` of two
pub(crate) struct Greatest;

impl OfTwo for Greatest {
    ghost use Rattle.std.specs.Prelude.{refl};
    ghost use Rattle.op_tables.specs.declared.op.Op.TheVariants.{Max};

    ghost op = { Max };

    ghost total = { λ a b. refl };

    #[inline(always)]
    #[tactic(auto, using(std::proofs::lemmas::Int::wraps))]
    fn value(a: &i64, b: &i64) -> Number {
        Number {
            value: (*a).max(*b),
        }
    }
}

/// `MIN` of two
pub(crate) struct Least;

impl OfTwo for Least {
    ghost use Rattle.std.specs.Prelude.{refl};
    ghost use Rattle.op_tables.specs.declared.op.Op.TheVariants.{Min};

    ghost op = { Min };

    ghost total = { λ a b. refl };

    #[inline(always)]
    #[tactic(auto, using(std::proofs::lemmas::Int::wraps))]
    fn value(a: &i64, b: &i64) -> Number {
        Number {
            value: (*a).min(*b),
        }
    }
}

/// `IAND`
pub(crate) struct BitsOfBoth;

impl OfTwo for BitsOfBoth {
    ghost use Rattle.std.specs.Prelude.{refl};
    ghost use Rattle.op_tables.specs.declared.op.Op.TheVariants.{BitAnd};

    ghost op = { BitAnd };

    ghost total = { λ a b. refl };

    #[inline(always)]
    #[tactic(auto, using(std::proofs::lemmas::Int::wraps))]
    fn value(a: &i64, b: &i64) -> Number {
        Number { value: *a & *b }
    }
}

/// `IOR`
pub(crate) struct BitsOfEither;

impl OfTwo for BitsOfEither {
    ghost use Rattle.std.specs.Prelude.{refl};
    ghost use Rattle.op_tables.specs.declared.op.Op.TheVariants.{BitOr};

    ghost op = { BitOr };

    ghost total = { λ a b. refl };

    #[inline(always)]
    #[tactic(auto, using(std::proofs::lemmas::Int::wraps))]
    fn value(a: &i64, b: &i64) -> Number {
        Number { value: *a | *b }
    }
}

/// `IEOR`
pub(crate) struct BitsOfOne;

impl OfTwo for BitsOfOne {
    ghost use Rattle.std.specs.Prelude.{refl};
    ghost use Rattle.op_tables.specs.declared.op.Op.TheVariants.{BitXor};

    ghost op = { BitXor };

    ghost total = { λ a b. refl };

    #[inline(always)]
    #[tactic(auto, using(std::proofs::lemmas::Int::wraps))]
    fn value(a: &i64, b: &i64) -> Number {
        Number { value: *a ^ *b }
    }
}

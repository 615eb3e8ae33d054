//! Folds of numbers of 64 bits.

ghost use Rattle.std.specs.Prelude.{◌≡◌, FitsSigned};
ghost use Rattle.std.specs.Int.{w64};
ghost use Rattle.op_tables.specs.Joins.{IsJoin, join, unit};
ghost use Rattle.op_tables.specs.declared.join.Join.{Join};

use crate::fold::Fold;
use op_tables::Join;

/// A fold of numbers of 64 bits by a join.
pub trait NumberFold {
    ghost by: { Join };

    ghost laws: { IsJoin (FitsSigned w64) (join by) (unit by) };

    /// Which join it is.
    fn by() -> Join
        ensures { result ≡ by };
}

impl<F: NumberFold> Fold for F {
    ghost use Rattle.std.specs.Prelude.{FitsSigned};
    ghost use Rattle.std.specs.Int.{w64};
    ghost use Rattle.op_tables.specs.Joins.{join, unit};

    type Item = i64;

    ghost is_value = { FitsSigned w64 };

    ghost neutral = { unit F.by };

    ghost joined = { join F.by };

    ghost laws = { F.laws };

    fn unit() -> i64 {
        F::by().unit()
    }

    fn join(a: i64, b: i64) -> i64 {
        F::by().join(a, b)
    }

    fn tell(_a: i64) {}
}

/// The sum, which wraps (Fortran 95, 13.14, SUM).
pub struct Sum;

impl NumberFold for Sum {
    ghost use Rattle.op_tables.specs.declared.join.Join.TheVariants.{Sum};
    ghost use Rattle.op_tables.proofs.Joins.{joins};

    ghost by = { Sum };

    ghost laws = { joins Sum };

    fn by() -> Join {
        Join::Sum
    }
}

/// The product, which wraps (Fortran 95, 13.14, PRODUCT).
pub struct Product;

impl NumberFold for Product {
    ghost use Rattle.op_tables.specs.declared.join.Join.TheVariants.{Product};
    ghost use Rattle.op_tables.proofs.Joins.{joins};

    ghost by = { Product };

    ghost laws = { joins Product };

    fn by() -> Join {
        Join::Product
    }
}

/// The greatest number; that of none is the least number of 64 bits (Fortran 95, 13.14, MAXVAL).
pub struct Greatest;

impl NumberFold for Greatest {
    ghost use Rattle.op_tables.specs.declared.join.Join.TheVariants.{Greatest};
    ghost use Rattle.op_tables.proofs.Joins.{joins};

    ghost by = { Greatest };

    ghost laws = { joins Greatest };

    fn by() -> Join {
        Join::Greatest
    }
}

/// The least number; that of none is the greatest number of 64 bits (Fortran 95, 13.14, MINVAL).
pub struct Least;

impl NumberFold for Least {
    ghost use Rattle.op_tables.specs.declared.join.Join.TheVariants.{Least};
    ghost use Rattle.op_tables.proofs.Joins.{joins};

    ghost by = { Least };

    ghost laws = { joins Least };

    fn by() -> Join {
        Join::Least
    }
}

/// The bits that all numbers have; those of none are all bits (HPF 2.0, IALL).
pub struct BitAnd;

impl NumberFold for BitAnd {
    ghost use Rattle.op_tables.specs.declared.join.Join.TheVariants.{And};
    ghost use Rattle.op_tables.proofs.Joins.{joins};

    ghost by = { And };

    ghost laws = { joins And };

    fn by() -> Join {
        Join::And
    }
}

/// The bits that some number has (HPF 2.0, IANY).
pub struct BitOr;

impl NumberFold for BitOr {
    ghost use Rattle.op_tables.specs.declared.join.Join.TheVariants.{Or};
    ghost use Rattle.op_tables.proofs.Joins.{joins};

    ghost by = { Or };

    ghost laws = { joins Or };

    fn by() -> Join {
        Join::Or
    }
}

/// The bits that an odd number of numbers have (HPF 2.0, IPARITY).
pub struct BitXor;

impl NumberFold for BitXor {
    ghost use Rattle.op_tables.specs.declared.join.Join.TheVariants.{ExclusiveOr};
    ghost use Rattle.op_tables.proofs.Joins.{joins};

    ghost by = { ExclusiveOr };

    ghost laws = { joins ExclusiveOr };

    fn by() -> Join {
        Join::ExclusiveOr
    }
}

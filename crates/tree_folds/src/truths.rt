//! Folds of truths.

use reduction_tree::Fold;

/// Whether one of some truths holds (Fortran 95, 13.14, ANY).
pub struct AnyTruth;

/// Whether all of some truths hold (Fortran 95, 13.14, ALL).
pub struct AllTruths;

impl Fold for AnyTruth {
    ghost use Rattle.std.specs.Prelude.{false, ◌||◌};
    ghost use Rattle.tree_folds.specs.TruthJoins.{any_joins};

    type Item = bool;

    ghost is_value = { λ _. Unit {0} };

    ghost neutral = { false };

    ghost joined = { λ a b. a || b };

    ghost laws = { any_joins };

    fn unit() -> bool {
        false
    }

    fn join(a: bool, b: bool) -> bool {
        a || b
    }

    fn tell(_a: bool) {}
}

impl Fold for AllTruths {
    ghost use Rattle.std.specs.Prelude.{true, ◌&&◌};
    ghost use Rattle.tree_folds.specs.TruthJoins.{all_joins};

    type Item = bool;

    ghost is_value = { λ _. Unit {0} };

    ghost neutral = { true };

    ghost joined = { λ a b. a && b };

    ghost laws = { all_joins };

    fn unit() -> bool {
        true
    }

    fn join(a: bool, b: bool) -> bool {
        a && b
    }

    fn tell(_a: bool) {}
}

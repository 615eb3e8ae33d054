//! Folds of items that may be missing.

use reduction_tree::Fold;
use std::marker::PhantomData;

/// The fold of those items that are there; where none is, nothing.
pub struct Optional<F> {
    of: PhantomData<F>,
}

impl<F: Fold> Fold for Optional<F> {
    ghost use Rattle.std.specs.Prelude.{None};
    ghost use Rattle.tree_folds.specs.Optional.{IsMissingOr, join_present};
    ghost use Rattle.tree_folds.specs.OptionalJoins.{optional_joins};

    type Item = Option<F::Item>;

    ghost is_value = { IsMissingOr F.is_value };

    ghost neutral = { None };

    ghost joined = { join_present F.joined };

    ghost laws = { optional_joins F.laws };

    fn unit() -> Option<F::Item> {
        None
    }

    fn join(a: Option<F::Item>, b: Option<F::Item>) -> Option<F::Item> {
        match a {
            None => b,
            Some(first) => match b {
                None => Some(first),
                Some(second) => Some(F::join(first, second)),
            },
        }
    }

    fn tell(a: Option<F::Item>) {
        if let Some(item) = a {
            F::tell(item);
        }
    }
}

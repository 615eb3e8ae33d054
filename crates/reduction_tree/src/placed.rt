//! The value at the last of some positions.

ghost use Rattle.std.specs.Prelude.{◌≡◌};
ghost use Rattle.std.specs.Ordering.{is_gt};
ghost use Rattle.reduction_tree.specs.LastOrder.{last_order};

use crate::fold::Fold;

/// A value at a position.
#[derive(Clone, Copy, PartialEq, Eq)]
pub struct Placed {
    /// The position.
    pub position: u64,
    /// The value there.
    pub value: i64,
}

impl Placed {
    /// Another value stands at a later position, or is the greater one at this position.
    fn is_overtaken(&self, other: &Placed) -> bool
        ensures { result ≡ is_gt (last_order self.now other.now) }
    {
        if self.position != other.position {
            self.position < other.position
        } else {
            self.value < other.value
        }
    }
}

/// The value at the last position, if there is any. Of two at one position it is the greater.
pub struct LastValue;

impl Fold for LastValue {
    ghost use Rattle.std.specs.Prelude.{None};
    ghost use Rattle.reduction_tree.specs.FirstOf.{first_of};
    ghost use Rattle.reduction_tree.specs.LastOrder.{last_order};
    ghost use Rattle.reduction_tree.specs.LastJoins.{values_join};

    type Item = Option<Placed>;

    ghost is_value = { λ _. Unit {0} };

    ghost neutral = { None };

    ghost joined = { first_of last_order };

    ghost laws = { values_join };

    fn unit() -> Option<Placed> {
        None
    }

    fn join(a: Option<Placed>, b: Option<Placed>) -> Option<Placed> {
        match a {
            None => b,
            Some(first) => match b {
                None => a,
                Some(second) => Some(if first.is_overtaken(&second) {
                    second
                } else {
                    first
                }),
            },
        }
    }

    fn tell(_a: Option<Placed>) {}
}

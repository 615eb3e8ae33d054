//! The first of the faults that the nodes keep.

ghost use Rattle.std.specs.Prelude.{◌≡◌};
ghost use Rattle.std.specs.Ordering.{is_gt};
ghost use Rattle.reduction_tree.specs.FaultOrder.{fault_order};

use crate::fold::Fold;

/// A fault that is kept with its key: the number of its tuple, then the place of its part, and then its own number.
#[derive(Clone, Copy, PartialEq, Eq)]
pub struct KeptFault {
    /// The number of the tuple at which it happened.
    pub tuple: u64,
    /// The place of the part in which it happened, among the parts since the faults were last taken.
    pub place: u64,
    /// The fault.
    pub fault: u64,
}

impl KeptFault {
    /// Another fault comes before this one, by tuple, then by place and then by fault.
    fn is_after(&self, other: &KeptFault) -> bool
        ensures { result ≡ is_gt (fault_order self.now other.now) }
    {
        if self.tuple != other.tuple {
            self.tuple > other.tuple
        } else if self.place != other.place {
            self.place > other.place
        } else {
            self.fault > other.fault
        }
    }
}

/// The first kept fault, if any is kept.
pub struct LeastFault;

impl Fold for LeastFault {
    ghost use Rattle.std.specs.Prelude.{None};
    ghost use Rattle.reduction_tree.specs.FirstOf.{first_of};
    ghost use Rattle.reduction_tree.specs.FaultOrder.{fault_order};
    ghost use Rattle.reduction_tree.specs.FaultJoins.{faults_join};

    type Item = Option<KeptFault>;

    ghost is_value = { λ _. Unit {0} };

    ghost neutral = { None };

    ghost joined = { first_of fault_order };

    ghost laws = { faults_join };

    fn unit() -> Option<KeptFault> {
        None
    }

    fn join(a: Option<KeptFault>, b: Option<KeptFault>) -> Option<KeptFault> {
        match a {
            None => b,
            Some(first) => match b {
                None => a,
                Some(second) => Some(if first.is_after(&second) {
                    second
                } else {
                    first
                }),
            },
        }
    }

    fn tell(_a: Option<KeptFault>) {}
}

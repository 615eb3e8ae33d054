//! The common members of two progressions of natural numbers.
//!
//! The n-th member of one is a member of the other exactly where n solves a congruence, so the common members are those
//! of one class of n that both progressions reach.

ghost use Rattle.std.specs.Prelude.{◌≡◌, ◌+◌, ◌-◌, ◌*◌, ◌/◌, ◌%◌, ◌≤◌, ◌<◌, IfSome, IfNone};
ghost use Rattle.congruences.specs.Naturals.{AreCongruentNaturals, IsInverse};
ghost use Rattle.congruences.specs.NaturalProgressions.{AreCommonNaturals, IsNaturalProgression};

use crate::inverse::{Inverse, inverse_of};

/// The numbers `first + stride * n` for n below count, ascending.
#[derive(Clone, Copy)]
pub(crate) struct NaturalProgression {
    pub(crate) first: u128,
    pub(crate) stride: u128,
    pub(crate) count: u128,
}

/// The common members of two progressions, ascending; None exactly where there is none.
pub(crate) fn common_members(
    p: NaturalProgression,
    q: NaturalProgression,
) -> Option<NaturalProgression>
    requires p { IsNaturalProgression p }
    requires q { IsNaturalProgression q }
    ensures { AreCommonNaturals p q result }
{
    let Inverse {
        divisor,
        period,
        number,
    } = inverse_of(p.stride % q.stride, q.stride);
    let far = q.first + q.stride * p.first - p.first;
    if far % divisor != 0 {
        return None;
    }
    let turn = far / divisor % period * number % period;
    let start = p.first + p.stride * turn;
    let stride = p.stride * period;
    let first = start + q.first.saturating_sub(start).div_ceil(stride) * stride;
    let last = (p.first + p.stride * (p.count - 1)).min(q.first + q.stride * (q.count - 1));
    if first > last {
        return None;
    }
    Some(NaturalProgression {
        first,
        stride,
        count: (last - first) / stride + 1,
    })
}

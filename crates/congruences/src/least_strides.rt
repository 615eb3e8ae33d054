//! The common members of two progressions, with a stride that is no greater than they ask for.

ghost use Rattle.std.specs.Prelude.{◌≡◌, ◌+◌, ◌-◌, ◌*◌, ◌≤◌, ◌<◌, IfSome, IfNone};
ghost use Rattle.congruences.specs.NaturalProgressions.{AreCommonNaturals, IsNaturalProgression};
ghost use Rattle.congruences.specs.Shifts.{IsNarrow, last_of};

use crate::natural_meeting::{NaturalProgression, common_members};

/// The common members of two progressions, ascending; None exactly where there is none. Where there is one, the stride
/// is 1, as the period of both may be greater than any member.
pub(crate) fn least_common_members(
    p: NaturalProgression,
    q: NaturalProgression,
) -> Option<NaturalProgression>
    requires p { IsNaturalProgression p }
    requires q { IsNaturalProgression q }
    requires reach { last_of p ≤ 9223372036854775808 }
    ensures common { AreCommonNaturals p q result }
    ensures narrow { IfSome result IsNarrow }
{
    match common_members(p, q) {
        Some(common) => Some(with_least_stride(common)),
        None => None,
    }
}

/// The same members, with stride 1 where there is one.
fn with_least_stride(r: NaturalProgression) -> NaturalProgression
    ensures first { result.first ≡ r.first }
    ensures count { result.count ≡ r.count }
    ensures one { result.count ≡ 1 → result.stride ≡ 1 }
    ensures more { (result.count ≡ 1 → ⊥) → result.stride ≡ r.stride }
{
    NaturalProgression {
        first: r.first,
        stride: if r.count == 1 { 1 } else { r.stride },
        count: r.count,
    }
}

//! Arithmetic progressions of integers, and their common members.
//!
//! Both progressions are seen from the lesser of their first members, so no number is negative; their common members
//! are those of natural numbers, moved back.

ghost use Rattle.std.specs.Prelude.{◌≡◌, ◌+◌, ◌-◌, ◌*◌, ◌≤◌, ◌<◌, ◌≤ℤ◌, ◌+ℤ◌, pos, neg_ℤ, IfSome, IfNone};
ghost use Rattle.congruences.specs.NaturalProgressions.{IsNaturalProgression, AreCommonNaturals};
ghost use Rattle.congruences.specs.Progressions.{AreCommon, IsProgression};
ghost use Rattle.congruences.specs.Shifts.{IsNarrow, IsShifted, last_of};

use crate::least_strides::least_common_members;
use crate::natural_meeting::NaturalProgression;

/// The numbers `first + stride * n` for n from 0 to `count - 1`, ascending.
#[derive(Clone, Copy, PartialEq, Eq)]
pub struct Progression {
    pub first: i128,
    pub stride: i128,
    pub count: u64,
}

/// The common members of two progressions, in ascending order; None exactly where there is none.
///
/// Strides and counts are at least 1, members are at most 2^62 in magnitude, and strides at most 2^63. The answer is
/// such a progression too: where there is one common member, its stride is 1.
pub fn meet(p: Progression, q: Progression) -> Option<Progression>
    requires p { IsProgression p }
    requires q { IsProgression q }
    ensures { AreCommon p q result }
{
    let base = base_of(p, q);
    match least_common_members(shifted(p, base), shifted(q, base)) {
        Some(common) => Some(shifted_back(common, base)),
        None => None,
    }
}

/// The lesser of two first members.
fn base_of(p: Progression, q: Progression) -> i128
    requires p { IsProgression p }
    requires q { IsProgression q }
    ensures low { neg_ℤ (pos 4611686018427387904) ≤ℤ result }
    ensures high { result ≤ℤ pos 4611686018427387904 }
    ensures first { result ≤ℤ p.first }
    ensures second { result ≤ℤ q.first }
{
    if p.first < q.first { p.first } else { q.first }
}

/// A progression as it is seen from a base.
fn shifted(p: Progression, base: i128) -> NaturalProgression
    requires progression { IsProgression p }
    requires base { base ≤ℤ p.first }
    requires low { neg_ℤ (pos 4611686018427387904) ≤ℤ base }
    ensures shifted { IsShifted p base result }
    ensures progression { IsNaturalProgression result }
    ensures reach { last_of result ≤ 9223372036854775808 }
{
    NaturalProgression {
        first: distance(p.first, base),
        stride: p.stride as u128,
        count: p.count as u128,
    }
}

/// How far a number stands behind a base.
fn distance(number: i128, base: i128) -> u128
    requires base { base ≤ℤ number }
    requires low { neg_ℤ (pos 4611686018427387904) ≤ℤ base }
    requires high { number ≤ℤ pos 4611686018427387904 }
    ensures { number ≡ base +ℤ pos result }
{
    (number - base) as u128
}

/// A progression as it was before it was seen from a base.
fn shifted_back(r: NaturalProgression, base: i128) -> Progression
    requires narrow { IsNarrow r }
    requires low { neg_ℤ (pos 4611686018427387904) ≤ℤ base }
    requires high { base ≤ℤ pos 4611686018427387904 }
    ensures { IsShifted result base r }
{
    Progression {
        first: moved(r.first, base),
        stride: r.stride as i128,
        count: r.count as u64,
    }
}

/// The number so far behind a base.
fn moved(distance: u128, base: i128) -> i128
    requires distance { distance ≤ 9223372036854775808 }
    requires low { neg_ℤ (pos 4611686018427387904) ≤ℤ base }
    requires high { base ≤ℤ pos 4611686018427387904 }
    ensures { result ≡ base +ℤ pos distance }
{
    base + distance as i128
}

//! Places of an axis that follow one another by one step.

ghost use Rattle.std.specs.Prelude.{◌≡◌, ◌^◌, ℕ, ◌<◌, ◌≤◌, ◌≤ℤ◌, Bool, pos};
ghost use Rattle.congruences.specs.declared.progressions.Progression.{Progression as ProgressionSpec};
ghost use Rattle.owned_places.specs.Candidates.{AreCandidates, classes_of, period_of};
ghost use Rattle.pair_messages.specs.Classes.{AreCommonPlaces, IsClassOf, IsShort};

use congruences::{Progression, meet};
use owned_places::Candidates;

/// The longest period of places that are met class by class.
pub(crate) const MAX_PERIOD: u64 = 65_536;

/// The places `first + stride * n`, for n below count.
#[derive(Clone, Copy)]
pub(crate) struct Class {
    pub(crate) first: u64,
    pub(crate) stride: u64,
    pub(crate) count: u64,
}

/// A class of candidates, by its number from 0.
pub(crate) fn class_of(places: &Candidates, class: u64) -> Class
    requires few { (passes : ℕ → Bool) × ((extent : ℕ) × (AreCandidates passes extent places.now × (extent ≤ 2 ^ 32))) }
    requires class { class < classes_of places.now }
    ensures value { IsClassOf places.now class result }
    ensures stride { result.stride ≡ period_of places.now }
{
    let classes = places.classes();
    Class {
        first: places.place(class) as u64,
        stride: places.period(),
        count: (places.len() - class - 1) / classes + 1,
    }
}

/// The places that two classes have in common; None where there is none.
pub(crate) fn meet_classes(a: Class, b: Class) -> Option<Class>
    requires one { IsShort a }
    requires other { IsShort b }
    ensures { AreCommonPlaces a b result }
{
    match meet(progression_of(a), progression_of(b)) {
        Some(common) => Some(class_from(common)),
        None => None,
    }
}

/// The class as a progression of integers.
fn progression_of(class: Class) -> Progression
    ensures { result ≡ record { first = pos class.first; stride = pos class.stride; count = class.count } }
{
    Progression {
        first: class.first as i128,
        stride: class.stride as i128,
        count: class.count,
    }
}

/// A progression of natural numbers as a class.
fn class_from(progression: Progression) -> Class
    requires first { pos 0 ≤ℤ progression.first }
    requires small { progression.first ≤ℤ pos 4611686018427387904 }
    requires ascends { pos 1 ≤ℤ progression.stride }
    requires steps { progression.stride ≤ℤ pos 9223372036854775808 }
    ensures { progression ≡ record { first = pos result.first; stride = pos result.stride; count = result.count } }
{
    Class {
        first: progression.first as u64,
        stride: progression.stride as u64,
        count: progression.count,
    }
}

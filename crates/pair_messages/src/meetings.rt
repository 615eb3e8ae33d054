//! Classes of places that two lists of candidates have in common.

ghost use Rattle.std.specs.Prelude.{◌≡◌, ◌^◌, ℕ, ◌<◌, ◌≤◌, All, Bool, IfOk, IsTrue};
ghost use Rattle.owned_places.specs.Candidates.{AreCandidates, classes_of, period_of};
ghost use Rattle.owned_places.specs.Holdings.{test_of};
ghost use Rattle.pair_messages.specs.declared.classes.TheConstants.{MAX_PERIOD};
ghost use Rattle.pair_messages.specs.Classes.{AreCommonOn, InClass, InSome, IsBelow, IsPlaceOf, IsShort};

use crate::classes::{Class, MAX_PERIOD, class_of, meet_classes};
use hpf_base::OutOfMemory;
use owned_places::{Candidates, Holding};
use std::alloc::Global;

/// Classes of places of an axis, among them all at which both own what is named: those that are in a class of each, or, where there are more pairs
/// of classes than places, the classes of the one with fewer places.
pub(crate) fn common_classes(
    alloc: Global,
    one: &Holding,
    other: &Holding,
    axis: usize,
    extent: u64,
) -> Result<Vec<Class>, OutOfMemory>
    requires { extent ≤ 2 ^ 32 }
    ensures { IfOk result (λ classes. AreCommonOn extent axis (test_of one.now) (test_of other.now) classes.items) }
{
    let a = one.candidates(alloc, axis, extent)?;
    let b = other.candidates(alloc, axis, extent)?;
    let classes = classes_in_both(alloc, &a, &b)?;
    Ok(classes)
}

/// Classes of places, among them all that are in both lists.
fn classes_in_both(alloc: Global, a: &Candidates, b: &Candidates) -> Result<Vec<Class>, OutOfMemory>
    requires one { (passes : ℕ → Bool) × ((extent : ℕ) × (AreCandidates passes extent a.now × (extent ≤ 2 ^ 32))) }
    requires other { (passes : ℕ → Bool) × ((extent : ℕ) × (AreCandidates passes extent b.now × (extent ≤ 2 ^ 32))) }
    ensures below { (p q : ℕ → Bool) (extent : ℕ) → AreCandidates p extent a.now → AreCandidates q extent b.now
        → IfOk result (λ classes. All (IsBelow extent) classes.items) }
    ensures every { IfOk result (λ classes. (x : ℕ) → IsPlaceOf a.now x → IsPlaceOf b.now x → InSome classes.items x) }
{
    if are_met(a, b) {
        let classes = meetings(alloc, a, b)?;
        return Ok(classes);
    }
    let fewer = if b.len() < a.len() { b } else { a };
    let classes = all_classes(alloc, fewer)?;
    Ok(classes)
}

/// Whether the classes of two lists are met: where their periods aren't long, and there are no more pairs of classes than places.
fn are_met(a: &Candidates, b: &Candidates) -> bool
    ensures one { IsTrue result → period_of a.now ≤ MAX_PERIOD }
    ensures other { IsTrue result → period_of b.now ≤ MAX_PERIOD }
{
    let pairs = a.classes().saturating_mul(b.classes());
    a.period() <= MAX_PERIOD && b.period() <= MAX_PERIOD && pairs <= a.len().min(b.len())
}

/// The places that are in both, by classes.
fn meetings(alloc: Global, a: &Candidates, b: &Candidates) -> Result<Vec<Class>, OutOfMemory>
    requires one { (passes : ℕ → Bool) × ((extent : ℕ) × (AreCandidates passes extent a.now × (extent ≤ 2 ^ 32))) }
    requires other { (passes : ℕ → Bool) × ((extent : ℕ) × (AreCandidates passes extent b.now × (extent ≤ 2 ^ 32))) }
    requires short_one { period_of a.now ≤ MAX_PERIOD }
    requires short_other { period_of b.now ≤ MAX_PERIOD }
    ensures below { (passes : ℕ → Bool) (extent : ℕ) → AreCandidates passes extent a.now → IfOk result (λ classes. All (IsBelow extent) classes.items) }
    ensures every { IfOk result (λ classes. (x : ℕ) → IsPlaceOf a.now x → IsPlaceOf b.now x → InSome classes.items x) }
{
    let mut classes = Vec::new(alloc);
    for class in 0..a.classes() {
        add_meetings(&mut classes, class_of(a, class), b)?;
    }
    Ok(classes)
}

/// Adds the places of a class that are among candidates.
fn add_meetings(
    classes: &mut Vec<Class>,
    class: Class,
    places: &Candidates,
) -> Result<(), OutOfMemory>
    requires few { (passes : ℕ → Bool) × ((extent : ℕ) × (AreCandidates passes extent places.now × (extent ≤ 2 ^ 32))) }
    requires short { period_of places.now ≤ MAX_PERIOD }
    requires class { IsShort class }
    ensures kept { IfOk result (λ _. (x : ℕ) → InSome classes.old.items x → InSome classes.new.items x) }
    ensures every { IfOk result (λ _. (x : ℕ) → InClass class x → IsPlaceOf places.now x → InSome classes.new.items x) }
    ensures below { (extent : ℕ) → IsBelow extent class → All (IsBelow extent) classes.old.items → IfOk result (λ _. All (IsBelow extent) classes.new.items) }
{
    for other in 0..places.classes() {
        add_meeting(classes, class, class_of(places, other))?;
    }
    Ok(())
}

/// Adds the places that are in both classes.
fn add_meeting(classes: &mut Vec<Class>, a: Class, b: Class) -> Result<(), OutOfMemory>
    requires one { IsShort a }
    requires other { IsShort b }
    ensures kept { IfOk result (λ _. (x : ℕ) → InSome classes.old.items x → InSome classes.new.items x) }
    ensures every { IfOk result (λ _. (x : ℕ) → InClass a x → InClass b x → InSome classes.new.items x) }
    ensures below { (extent : ℕ) → IsBelow extent a → All (IsBelow extent) classes.old.items → IfOk result (λ _. All (IsBelow extent) classes.new.items) }
{
    if let Some(common) = meet_classes(a, b) {
        classes.push(common)?;
    }
    Ok(())
}

/// The classes of candidates.
fn all_classes(alloc: Global, places: &Candidates) -> Result<Vec<Class>, OutOfMemory>
    requires few { (passes : ℕ → Bool) × ((extent : ℕ) × (AreCandidates passes extent places.now × (extent ≤ 2 ^ 32))) }
    ensures below { (passes : ℕ → Bool) (extent : ℕ) → AreCandidates passes extent places.now → IfOk result (λ classes. All (IsBelow extent) classes.items) }
    ensures every { IfOk result (λ classes. (x : ℕ) → IsPlaceOf places.now x → InSome classes.items x) }
{
    let mut classes = Vec::new(alloc);
    for class in 0..places.classes() {
        classes.push(class_of(places, class))?;
    }
    Ok(classes)
}

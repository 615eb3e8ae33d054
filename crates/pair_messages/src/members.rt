//! The places of classes.

ghost use Rattle.std.specs.Prelude.{◌≡◌, ◌^◌, ℕ, ◌+◌, ◌*◌, ◌<◌, ◌≤◌, ◌&&◌, ◌++◌, [], ◌∷◌, All, false, true, IfNone, IfOk, IfSome, cond, filter, map};
ghost use Rattle.std.specs.List.{Contains, range_with_len};
ghost use Rattle.std.specs.List.Sorted.{IsStrictlyIncreasing};
ghost use Rattle.owned_places.specs.Holdings.{test_of};
ghost use Rattle.pair_messages.specs.Classes.{AreCommonOn, InClass, InSome, IsBelow};
ghost use Rattle.pair_messages.specs.Enough.{IsOne};

use crate::classes::Class;
use hpf_base::OutOfMemory;
use owned_places::Holding;
use std::alloc::Global;

/// The places of an axis at which both own what is named, ascending, by classes of places with all of them.
pub(crate) fn common_places(
    alloc: Global,
    classes: &[Class],
    one: &Holding,
    other: &Holding,
    axis: usize,
    extent: u64,
) -> Result<Vec<u32>, OutOfMemory>
    requires few { extent ≤ 2 ^ 32 }
    requires classes { AreCommonOn extent axis (test_of one.now) (test_of other.now) classes.now }
    ensures { IfOk result (λ places. places.items ≡ filter (λ x. (test_of one.now).at axis x && (test_of other.now).at axis x) (range_with_len 0 extent)) }
{
    let members = members_of(alloc, classes)?;
    let places = passing(alloc, &members, one, other, axis)?;
    Ok(places)
}

/// One place of an axis at which both own what is named, by such classes; none where there is none.
pub(crate) fn one_place(
    alloc: Global,
    classes: &[Class],
    one: &Holding,
    other: &Holding,
    axis: usize,
    extent: u64,
) -> Result<Vec<u32>, OutOfMemory>
    requires few { extent ≤ 2 ^ 32 }
    requires classes { AreCommonOn extent axis (test_of one.now) (test_of other.now) classes.now }
    ensures { IfOk result (λ places. IsOne (λ x. (test_of one.now).at axis x && (test_of other.now).at axis x) extent places.items) }
{
    let mut places = Vec::new(alloc);
    let Some(place) = first_passing(classes, one, other, axis) else {
        return Ok(places);
    };
    places.push(place)?;
    Ok(places)
}

/// A place of classes at which both own what is named.
fn first_passing(classes: &[Class], one: &Holding, other: &Holding, axis: usize) -> Option<u32>
    requires { All (IsBelow 4294967296) classes.now }
    ensures some { IfSome result (λ x. InSome classes.now x × (((test_of one.now).at axis x && (test_of other.now).at axis x) ≡ true)) }
    ensures none { IfNone result ((x : ℕ) → InSome classes.now x → ((test_of one.now).at axis x && (test_of other.now).at axis x) ≡ false) }
{
    for class in classes {
        if let Some(place) = first_in(class, one, other, axis) {
            return Some(place);
        }
    }
    None
}

/// A place of a class at which both do.
fn first_in(class: &Class, one: &Holding, other: &Holding, axis: usize) -> Option<u32>
    requires { IsBelow 4294967296 class.now }
    ensures some { IfSome result (λ x. InClass class.now x × (((test_of one.now).at axis x && (test_of other.now).at axis x) ≡ true)) }
    ensures none { IfNone result ((x : ℕ) → InClass class.now x → ((test_of one.now).at axis x && (test_of other.now).at axis x) ≡ false) }
{
    for n in 0..class.count {
        let place = (class.first + class.stride * n) as u32;
        if one.owns_at(axis, place) && other.owns_at(axis, place) {
            return Some(place);
        }
    }
    None
}

/// The places of classes, ascending, each once.
fn members_of(alloc: Global, classes: &[Class]) -> Result<Vec<u32>, OutOfMemory>
    requires { All (IsBelow 4294967296) classes.now }
    ensures ascend { IfOk result (λ places. IsStrictlyIncreasing places.items) }
    ensures within { IfOk result (λ places. (x : ℕ) → Contains places.items x → InSome classes.now x) }
    ensures every { IfOk result (λ places. (x : ℕ) → InSome classes.now x → Contains places.items x) }
{
    let mut places = Vec::new(alloc);
    for class in classes {
        add_members(&mut places, class)?;
    }
    places.sort_unstable();
    places.dedup();
    Ok(places)
}

/// Adds the places of a class.
fn add_members(places: &mut Vec<u32>, class: &Class) -> Result<(), OutOfMemory>
    requires { IsBelow 4294967296 class.now }
    ensures { IfOk result (λ _. places.new.items ≡ places.old.items ++ map (λ n. class.now.first + class.now.stride * n) (range_with_len 0 class.now.count)) }
{
    for n in 0..class.count {
        places.push((class.first + class.stride * n) as u32)?;
    }
    Ok(())
}

/// Of places of an axis those at which both own what is named.
fn passing(
    alloc: Global,
    members: &[u32],
    one: &Holding,
    other: &Holding,
    axis: usize,
) -> Result<Vec<u32>, OutOfMemory>
    ensures { IfOk result (λ places. places.items ≡ filter (λ x. (test_of one.now).at axis x && (test_of other.now).at axis x) members.now) }
{
    let mut places = Vec::new(alloc);
    for place in members {
        push_if(
            &mut places,
            one.owns_at(axis, *place) && other.owns_at(axis, *place),
            *place,
        )?;
    }
    Ok(places)
}

/// One place more, if it is kept.
fn push_if(places: &mut Vec<u32>, is_kept: bool, place: u32) -> Result<(), OutOfMemory>
    ensures { IfOk result (λ _. places.new.items ≡ places.old.items ++ cond is_kept (place ∷ []) []) }
{
    if is_kept {
        places.push(place)?;
    }
    Ok(())
}

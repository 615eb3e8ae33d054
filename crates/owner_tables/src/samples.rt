//! Elements among which each one has a like.

ghost use Rattle.std.specs.Prelude.{◌≡◌, ℕ, ◌+◌, ◌*◌, ◌<◌, ◌≤◌, ◌++◌, ◌∷◌, [], All, IfOk, OnOk, false, if◌then◌else◌, length, replicate, slice_index_or, slice_set, true};
ghost use Rattle.hpf_base.specs.declared.limits.TheConstants.{MAX_ELEMENTS};
ghost use Rattle.hpf_base.specs.ElementOrder.{product};
ghost use Rattle.owner_tables.specs.Columns.{IsFilled, extents_along, part_in, parts_at};
ghost use Rattle.owner_tables.specs.Samples.{AreSamples};

use crate::columns::Column;
use crate::positions::with_places;
use hpf_base::OutOfMemory;
use std::alloc::Global;

/// Positions of elements of two arrays with the same extents. Each element is like one of them in what its places add to the numbers of its
/// least owners. It goes over the places of each dimension, and over the pairs of what is added.
pub(crate) fn samples(
    alloc: Global,
    one: &[Column],
    other: &[Column],
) -> Result<Vec<u32>, OutOfMemory>
    requires one { (nodes : ℕ) × All (IsFilled nodes) one.now }
    requires other { (nodes : ℕ) × All (IsFilled nodes) other.now }
    requires extents { extents_along one.now ≡ extents_along other.now }
    requires size { product (extents_along one.now) ≤ MAX_ELEMENTS }
    requires few { (at : ℕ) → at < product (extents_along one.now) → parts_at one.now at < 64 }
    requires few_others { (at : ℕ) → at < product (extents_along one.now) → parts_at other.now at < 64 }
    ensures { IfOk result (λ ps. AreSamples (product (extents_along one.now)) (parts_at one.now) (parts_at other.now) ps.items) }
{
    let mut positions = Vec::new(alloc);
    positions.push(0)?;
    for done in 0..one.len() {
        let dim = one.len() - 1 - done;
        let places = sample_places(alloc, &one[dim], &other[dim])?;
        positions = with_places(alloc, &positions, &places, one[dim].extent())?;
    }
    Ok(positions)
}

/// Places of a dimension. Each of its places is like one of them in what it adds by the two columns.
fn sample_places(alloc: Global, one: &Column, other: &Column) -> Result<Vec<u32>, OutOfMemory>
    requires one { length one.now.places ≡ one.now.extent }
    requires other { length other.now.places ≡ one.now.extent }
    requires few { (place : ℕ) → place < one.now.extent → part_in one.now place < 64 }
    requires few_others { (place : ℕ) → place < one.now.extent → part_in other.now place < 64 }
    ensures { IfOk result (λ ps. AreSamples one.now.extent (part_in one.now) (part_in other.now) ps.items) }
{
    let mut met = none_met(alloc)?;
    let mut places = Vec::new(alloc);
    for place in 0..one.extent() {
        meet(
            &mut met,
            &mut places,
            place,
            one.place(place).part,
            other.place(place).part,
        )?;
    }
    Ok(places)
}

/// No pair of two numbers below 64. That of a pair stands at 64 times the one and the other.
fn none_met(alloc: Global) -> Result<Vec<bool>, OutOfMemory>
    ensures { IfOk result (λ met. met.items ≡ replicate 4096 false) }
{
    Ok(vec![in alloc; false; 4096]?)
}

/// Puts the place after the others, unless its pair was met before. From now on it has been met.
fn meet(
    met: &mut Vec<bool>,
    places: &mut Vec<u32>,
    place: u32,
    one: u32,
    other: u32,
) -> Result<(), OutOfMemory>
    requires long { length met.old.items ≡ 4096 }
    requires one { one < 64 }
    requires other { other < 64 }
    ensures met { OnOk result (met.new.items ≡ slice_set met.old.items (one * 64 + other) true) }
    ensures places { OnOk result (places.new.items
        ≡ places.old.items ++ (if slice_index_or met.old.items (one * 64 + other) false then [] else place ∷ [])) }
{
    let number = one as usize * 64 + other as usize;
    let known = met[number];
    met[number] = true;
    if known {
        return Ok(());
    }
    places.push(place)?;
    Ok(())
}

//! Lists of places, one an axis.

ghost use Rattle.std.specs.Prelude.{◌≡◌, ℕ, ◌<◌, ◌≤◌, ◌^◌, ◌&&◌, Bool, true, All, IfOk, List, length, map};
ghost use Rattle.std.specs.List.{range_with_len};
ghost use Rattle.axis_products.specs.Products.{passing};

use axis_walks::common_places;
use hpf_base::OutOfMemory;
use std::alloc::Global;

/// All places of each axis.
pub(crate) fn all_places(alloc: Global, extents: &[u64]) -> Result<Vec<Vec<u32>>, OutOfMemory>
    requires { All (λ extent. extent ≤ 2 ^ 32) extents.now }
    ensures { IfOk result (λ lists. map (λ v. v.items) lists.items ≡ passing (λ axis place. true) 0 extents.now) }
{
    let mut lists = Vec::new(alloc);
    for extent in extents {
        let places = places_below(alloc, *extent)?;
        lists.push(places)?;
    }
    Ok(lists)
}

/// The places of an axis.
fn places_below(alloc: Global, extent: u64) -> Result<Vec<u32>, OutOfMemory>
    requires { extent ≤ 2 ^ 32 }
    ensures { IfOk result (λ places. places.items ≡ range_with_len 0 extent) }
{
    let mut places = Vec::new(alloc);
    for place in 0..extent {
        places.push(place as u32)?;
    }
    Ok(places)
}

/// Of each axis the places that are in both lists, which ascend.
pub(crate) fn common_lists(
    alloc: Global,
    one: &[Vec<u32>],
    other: &[Vec<u32>],
) -> Result<Vec<Vec<u32>>, OutOfMemory>
    requires { length one.now ≡ length other.now }
    ensures { (a b : ℕ → ℕ → Bool) (extents : List ℕ) → map (λ v. v.items) one.now ≡ passing a 0 extents → map (λ v. v.items) other.now ≡ passing b 0 extents
        → IfOk result (λ lists. map (λ v. v.items) lists.items ≡ passing (λ axis place. a axis place && b axis place) 0 extents) }
{
    let mut lists = Vec::new(alloc);
    for axis in 0..one.len() {
        let places = common_places(alloc, &one[axis], &other[axis])?;
        lists.push(places)?;
    }
    Ok(lists)
}

/// The same lists once more.
pub(crate) fn copies(alloc: Global, lists: &[Vec<u32>]) -> Result<Vec<Vec<u32>>, OutOfMemory>
    ensures { IfOk result (λ copies. map (λ v. v.items) copies.items ≡ map (λ v. v.items) lists.now) }
{
    let mut copies = Vec::new(alloc);
    for list in lists {
        let copy = list.to_vec(alloc)?;
        copies.push(copy)?;
    }
    Ok(copies)
}

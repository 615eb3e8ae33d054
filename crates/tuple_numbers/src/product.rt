//! Tuples by the places of each axis.

ghost use Rattle.std.specs.Prelude.{◌≡◌, ℕ, ◌+◌, ◌*◌, ◌<◌, ◌≤◌, ◌==◌, ◌^◌, ◌∷◌, [], All, Bool, IfOk, drop, length, map, slice_index, true};
ghost use Rattle.std.specs.List.{list_any, range_with_len};
ghost use Rattle.hpf_base.specs.ElementOrder.{product};
ghost use Rattle.axis_products.specs.Products.{combined, number_at, passing};
ghost use Rattle.tuple_numbers.specs.Sums.{AreRoom, scaled};

use crate::kept::Tuples;
use hpf_base::OutOfMemory;
use std::alloc::Global;

/// The numbers of the tuples with a place of each list, in tuple order. There is a list an axis, of the places that pass a test, ascending, and the first axis is
/// the fastest. The memory goes with the places of all axes together.
pub fn tuples_of_places(
    alloc: Global,
    extents: &[u64],
    lists: &[Vec<u32>],
) -> Result<Tuples, OutOfMemory>
    requires few { product extents.now ≤ 2 ^ 32 }
    requires places { (test : ℕ → ℕ → Bool) × (map (λ v. v.items) lists.now ≡ passing test 0 extents.now) }
    ensures { IfOk result (λ tuples. tuples ≡ map (number_at extents.now) (combined (map (λ v. v.items) lists.now))) }
{
    if has_empty(lists) {
        return Ok(Tuples::below(alloc, 0));
    }
    if lists.len() == 0 {
        return Ok(Tuples::below(alloc, 1));
    }
    let far = far_lists(alloc, extents, lists)?;
    let near = &lists[0];
    if is_row(near) {
        return Ok(Tuples::summed(None, near[0] as usize, near.len(), far));
    }
    let copy = copy_of(alloc, near)?;
    Ok(Tuples::summed(Some(copy), 0, near.len(), far))
}

/// Whether each place is one more than the one before it.
fn is_row(places: &[u32]) -> bool
    ensures { result ≡ true → places.now ≡ range_with_len (slice_index places.now 0) (length places.now) }
{
    for index in 0..places.len() {
        if places[index] as u64 != places[0] as u64 + index as u64 {
            return false;
        }
    }
    true
}

/// Whether a list of places is empty.
fn has_empty(lists: &[Vec<u32>]) -> bool
    ensures { result ≡ list_any (λ v. length v.items == 0) lists.now }
{
    lists.iter().any(|list| list.len() == 0)
}

/// The numbers of a list.
fn copy_of(alloc: Global, list: &[u32]) -> Result<Vec<u32>, OutOfMemory>
    ensures { IfOk result (λ copy. copy.items ≡ list.now) }
{
    Ok(list.to_vec(alloc)?)
}

/// What the places of each axis but the first add to the number of a tuple.
fn far_lists(
    alloc: Global,
    extents: &[u64],
    lists: &[Vec<u32>],
) -> Result<Vec<Vec<u32>>, OutOfMemory>
    requires some { 0 < length extents.now }
    requires axes { length lists.now ≡ length extents.now }
    requires room { AreRoom 1 extents.now (map (λ v. v.items) lists.now) }
    ensures { IfOk result (λ far. map (λ v. v.items) far.items ≡ scaled (slice_index extents.now 0) (drop 1 extents.now) (drop 1 (map (λ v. v.items) lists.now))) }
{
    let mut far = Vec::new(alloc);
    let mut factor = extents[0];
    for axis in 1..extents.len() {
        let list = scaled(alloc, &lists[axis], factor)?;
        far.push(list)?;
        factor *= extents[axis];
    }
    Ok(far)
}

/// So many times each number of a list.
fn scaled(alloc: Global, list: &[u32], factor: u64) -> Result<Vec<u32>, OutOfMemory>
    requires { All (λ p. factor * p < 2 ^ 32) list.now }
    ensures { IfOk result (λ scaled. scaled.items ≡ map (λ p. factor * p) list.now) }
{
    let mut scaled = Vec::new(alloc);
    for place in list {
        scaled.push((factor * *place as u64) as u32)?;
    }
    Ok(scaled)
}

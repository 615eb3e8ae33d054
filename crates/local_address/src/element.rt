//! The elements of a shape by their number in array-element order.

ghost use Rattle.std.specs.Prelude.{◌≡◌, ◌<◌, ◌≤◌, ◌^◌, ℤ, pos, ◌+ℤ◌, ◌≤ℤ◌, neg_ℤ, Some, All, length, map, slice_get, slice_index, slice_index_or, unsigned_abs};
ghost use Rattle.hpf_base.specs.ElementOrder.{elements, extents_of, product};
ghost use Rattle.hpf_base.specs.Shape.{IsShape};

use hpf_base::{Index, Shape};
use std::alloc::Global;

/// The number of elements.
pub fn element_count(shape: &Shape) -> u64
    requires { IsShape shape.now }
    ensures value { result ≡ product (extents_of shape.now) }
    ensures most { result ≤ 2 ^ 20 }
{
    let extents = shape.extent.numbers();
    if extents.contains(&0) {
        0
    } else {
        product_of(extents)
    }
}

/// The product of extents that aren't 0.
fn product_of(extents: &[i64]) -> u64
    requires some { All (λ extent. pos 1 ≤ℤ extent) extents.now }
    requires most { product (map unsigned_abs extents.now) ≤ 2 ^ 20 }
    ensures { result ≡ product (map unsigned_abs extents.now) }
{
    let mut count = 1;
    for dim in 0..extents.len() {
        count *= extent_of(extents, dim);
    }
    count
}

/// The element with this number, from 0, in array-element order (Fortran 95, 6.2.2.2).
pub fn nth_element(alloc: Global, shape: &Shape, number: u64) -> Index
    requires shape { IsShape shape.now }
    requires number { number < product (extents_of shape.now) }
    ensures value { slice_get (elements shape.now) number ≡ Some result }
    ensures rank { length result ≡ length shape.now.lower }
{
    let lower = shape.lower.numbers();
    let extent = shape.extent.numbers();
    let mut index = [0; 7];
    let mut rest = number;
    for dim in 0..lower.len() {
        let count = extent_of(extent, dim);
        index[dim] = subscript(lower, dim, rest % count);
        rest /= count;
    }
    match Index::new(alloc, &index[..lower.len()]) {
        Some(index) => index,
        None => unreachable!(),
    }
}

/// The subscript at a place, from 0, of a dimension, counted from 0.
fn subscript(lower: &[i64], dim: usize, place: u64) -> i64
    requires dim { dim < length lower.now }
    requires lower { unsigned_abs (slice_index_or lower.now dim (pos 0)) ≤ 2 ^ 41 }
    requires place { place ≤ 2 ^ 43 }
    ensures { result ≡ slice_index_or lower.now dim (pos 0) +ℤ pos place }
{
    lower[dim] + place as i64
}

/// The extent of a dimension, counted from 0.
pub fn extent_of(extents: &[i64], dim: usize) -> u64
    requires dim { dim < length extents.now }
    requires extent { pos 0 ≤ℤ slice_index_or extents.now dim (pos 0) }
    ensures { result ≡ slice_index (map unsigned_abs extents.now) dim }
{
    extents[dim] as u64
}

//! The tuples of one subscript of each dimension, by their numbers: the first subscript fastest.

ghost use Rattle.std.specs.Prelude.{◌≡◌, ◌≢◌, ◌↔◌, ℕ, ◌<◌, ◌≤◌, AllPairs, Some, length, map, slice_get, take};
ghost use Rattle.hpf_base.specs.declared.limits.TheConstants.{MAX_ELEMENTS, MAX_RANK};
ghost use Rattle.hpf_base.specs.ElementOrder.{product};
ghost use Rattle.local_address.specs.Pieces.{AreDimensions};
ghost use Rattle.local_address.specs.Runs.{tuples};

use crate::owned::OwnedSubscripts;
use hpf_base::Index;
use std::alloc::Global;

/// How many tuples there are.
pub(crate) fn tuple_number(dims: &[OwnedSubscripts]) -> u64
    requires { (k : ℕ) → product (map length (take k dims.now)) ≤ MAX_ELEMENTS }
    ensures { result ≡ length (tuples dims.now) }
{
    let mut count = 1;
    for dim in 0..dims.len() {
        count *= dims[dim].len();
    }
    count
}

/// The number of a tuple, from 0; None exactly where it isn't one of them.
pub fn number_of(dims: &[OwnedSubscripts], tuple: &[i64]) -> Option<u64>
    requires { AreDimensions dims.now }
    ensures { (number : ℕ) → (result ≡ Some number) ↔ (slice_get (tuples dims.now) number ≡ Some tuple.now) }
{
    if tuple.len() != dims.len() {
        return None;
    }
    let mut number = 0;
    let mut stride = 1;
    for dim in 0..dims.len() {
        number += stride * dims[dim].number_of(tuple[dim])?;
        stride *= dims[dim].len();
    }
    Some(number)
}

/// The tuple with this number, from 0.
pub(crate) fn nth_tuple(alloc: Global, dims: &[OwnedSubscripts], number: u64) -> Index
    requires rank { length dims.now ≤ MAX_RANK }
    requires number { number < length (tuples dims.now) }
    ensures { slice_get (tuples dims.now) number ≡ Some result }
{
    let mut tuple = [0; 7];
    let mut rest = number;
    for dim in 0..dims.len() {
        let count = dims[dim].len();
        tuple[dim] = dims[dim].nth(rest % count);
        rest /= count;
    }
    match Index::new(alloc, &tuple[..dims.len()]) {
        Some(tuple) => tuple,
        None => unreachable!(),
    }
}

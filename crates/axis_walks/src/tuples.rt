//! The tuples with a place of each list.

ghost use Rattle.std.specs.Prelude.{◌≡◌, ◌^◌, ◌≤◌, IfOk, length, map};
ghost use Rattle.hpf_base.specs.ElementOrder.{product};
ghost use Rattle.axis_products.specs.Products.{combined, number_at};
ghost use Rattle.axis_walks.specs.Lists.{AreBelow};

use crate::rows::{has_empty, rows};
use hpf_base::OutOfMemory;
use std::alloc::Global;

/// The numbers of the tuples with a place of each list, in tuple order where the lists ascend. There is a list an axis, each place is below the extent of its
/// axis, and the first axis is the fastest.
pub fn tuples_of(
    alloc: Global,
    extents: &[u64],
    lists: &[Vec<u32>],
) -> Result<Vec<u32>, OutOfMemory>
    requires axes { length lists.now ≡ length extents.now }
    requires few { product extents.now ≤ 2 ^ 32 }
    requires places { AreBelow extents.now (map (λ v. v.items) lists.now) }
    ensures { IfOk result (λ tuples. tuples.items ≡ map (number_at extents.now) (combined (map (λ v. v.items) lists.now))) }
{
    let mut tuples = Vec::new(alloc);
    if has_empty(lists) {
        return Ok(tuples);
    }
    tuples.push(0)?;
    for axis in (0..extents.len()).rev() {
        tuples = rows(alloc, &tuples, extents[axis], &lists[axis])?;
    }
    Ok(tuples)
}

//! The dimensions of an array, by its bounds.

ghost use Rattle.std.specs.Prelude.{◌≤◌, All, IsTrue};
ghost use Rattle.hpf_base.specs.declared.limits.TheConstants.{MAX_ELEMENTS};
ghost use Rattle.expression_rules.specs.Dims.{AreDims, IsDim, elements};

use expression_rules::{Dim, Dims, extent};
use hpf_base::{MAX_BOUND, MAX_ELEMENTS, Shape};
use std::alloc::Global;

/// The dimensions of an array of this shape; None where they aren't within the limits.
pub fn dims_of(alloc: Global, shape: &Shape) -> Option<Dims> {
    let mut dims = Vec::new(alloc);
    let extents = shape.extent.numbers();
    for (k, lower) in shape.lower.numbers().iter().enumerate() {
        let upper = lower.wrapping_add(*extents.get(k)?).wrapping_sub(1);
        dims.push(Dim {
            lower: *lower,
            upper,
        })
        .ok()?;
    }
    if are_bounds(&dims) && are_few(&dims) {
        Some(Dims::new(dims))
    } else {
        None
    }
}

/// Whether the bounds are within the limits.
fn are_bounds(dims: &[Dim]) -> bool
    ensures { IsTrue result → All IsDim dims.now }
{
    for dim in dims {
        if !is_dim(dim) {
            return false;
        }
    }
    true
}

/// Whether those of a dimension are.
fn is_dim(dim: &Dim) -> bool
    ensures { IsTrue result → IsDim dim.now }
{
    dim.lower.unsigned_abs() <= MAX_BOUND && dim.upper.unsigned_abs() <= MAX_BOUND
}

/// Whether there are no more elements than the limit.
fn are_few(dims: &[Dim]) -> bool
    requires { All IsDim dims.now }
    ensures { IsTrue result → elements dims.now ≤ MAX_ELEMENTS }
{
    let mut count: u64 = 1;
    for dim in dims {
        let extent = extent(*dim);
        if extent > MAX_ELEMENTS {
            return false;
        }
        count *= extent;
        if count > MAX_ELEMENTS {
            return false;
        }
    }
    true
}

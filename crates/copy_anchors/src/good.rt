//! Whether the subscripts of an anchor are good, and the alignments that they are then.

ghost use Rattle.std.specs.Prelude.{◌≡◌, ◌==◌, ◌<◌, ◌≤◌, ◌*◌, ◌+◌, pos, ◌≤ℤ◌, All, IfOk, length, map, option_map, slice_index_or, unsigned_abs};
ghost use Rattle.hpf_base.specs.declared.limits.TheConstants.{MAX_BOUND, MAX_ELEMENTS};
ghost use Rattle.hpf_base.specs.ElementOrder.{product};
ghost use Rattle.hpf_base.specs.Shape.{IsShape};
ghost use Rattle.machine_steps.specs.Space.{space_count};
ghost use Rattle.copy_anchors.specs.Anchors.{align_of};
ghost use Rattle.copy_anchors.specs.Settled.{good_subscripts, inside_at, inside_subscript, inside_subscripts};

use crate::anchor::Subscript;
use crate::axes::are_apart;
use crate::bounds::{inside_along, is_in, narrow};
use hpf_base::{OutOfMemory, Shape};
use mappings::AlignDim;
use std::alloc::Global;

/// The alignments by which a copy with these extents lies beside an array of this shape; None exactly where the subscripts aren't good: the
/// space is empty, one of them is out of bounds at a position, or two move along one axis.
pub fn good_subscripts(
    alloc: Global,
    shape: &Shape,
    extents: &[u32],
    subscripts: &[Subscript],
) -> Result<Option<Vec<AlignDim>>, OutOfMemory>
    requires shape { IsShape shape.now }
    requires size { product extents.now ≤ MAX_ELEMENTS }
    ensures { IfOk result (λ good. option_map (λ v. v.items) good ≡ good_subscripts shape.now extents.now (map align_of subscripts.now)) }
{
    if is_empty(extents) || !are_apart(subscripts) {
        return Ok(None);
    }
    inside_subscripts(alloc, shape, extents, subscripts)
}

/// Whether a space of these extents has no tuple.
fn is_empty(extents: &[u32]) -> bool
    requires { product extents.now ≤ MAX_ELEMENTS }
    ensures { result ≡ (space_count extents.now == 0) }
{
    for extent in extents {
        if *extent == 0 {
            return true;
        }
    }
    false
}

/// The same where the space isn't empty and no axis moves two of them.
fn inside_subscripts(
    alloc: Global,
    shape: &Shape,
    extents: &[u32],
    subscripts: &[Subscript],
) -> Result<Option<Vec<AlignDim>>, OutOfMemory>
    requires shape { IsShape shape.now }
    requires some { All (λ n. 1 ≤ n) extents.now }
    ensures { IfOk result (λ good. option_map (λ v. v.items) good ≡ inside_subscripts extents.now shape.now.lower shape.now.extent (map align_of subscripts.now)) }
{
    if shape.lower.numbers().len() != subscripts.len() {
        return Ok(None);
    }
    let mut settled = Vec::new(alloc);
    for k in 0..subscripts.len() {
        match inside_dim(extents, shape, k, &subscripts[k]) {
            Some(align) => settled.push(align)?,
            None => return Ok(None),
        }
    }
    Ok(Some(settled))
}

/// The alignment of the subscript of one dimension, from 0; None where it is out of bounds at a position.
fn inside_dim(extents: &[u32], shape: &Shape, dim: usize, subscript: &Subscript) -> Option<AlignDim>
    requires some { All (λ n. 1 ≤ n) extents.now }
    requires shape { IsShape shape.now }
    requires dim { dim < length shape.now.lower }
    ensures { result ≡ inside_subscript extents.now (slice_index_or shape.now.lower dim (pos 0)) (slice_index_or shape.now.extent dim (pos 0)) (align_of subscript.now) }
{
    let lower = shape.lower.numbers()[dim];
    let extent = shape.extent.numbers()[dim];
    inside_subscript(extents, lower, extent, subscript)
}

/// The same by the lower bound and the extent of the dimension.
fn inside_subscript(
    extents: &[u32],
    lower: i64,
    extent: i64,
    subscript: &Subscript,
) -> Option<AlignDim>
    requires some { All (λ n. 1 ≤ n) extents.now }
    requires lower { unsigned_abs lower ≤ MAX_BOUND }
    requires none { pos 0 ≤ℤ extent }
    requires extent { extent ≤ℤ pos (2 * MAX_BOUND + 1) }
    ensures { result ≡ inside_subscript extents.now lower extent (align_of subscript.now) }
{
    match subscript.axis {
        None => inside_at(lower, extent, subscript.first),
        Some(axis) => {
            if (axis as usize) < extents.len() {
                let count = extents[axis as usize];
                inside_along(axis, count, lower, extent, subscript.first, subscript.step)
            } else {
                None
            }
        }
    }
}

/// The alignment of one that is the same everywhere.
fn inside_at(lower: i64, extent: i64, first: i128) -> Option<AlignDim>
    requires lower { unsigned_abs lower ≤ MAX_BOUND }
    requires none { pos 0 ≤ℤ extent }
    requires extent { extent ≤ℤ pos (2 * MAX_BOUND + 1) }
    ensures { result ≡ inside_at lower extent first }
{
    if is_in(lower, extent, first) {
        Some(AlignDim::At(narrow(first)))
    } else {
        None
    }
}

//! The elements of a row as what is named over a space of its own extents.

ghost use Rattle.std.specs.Prelude.{◌≡◌, ◌≤◌, ◌^◌, All, IfOk, IfSome, map, pos};
ghost use Rattle.hpf_base.specs.ElementOrder.{product};
ghost use Rattle.expression_rules.specs.Dims.{IsDim, extent};
ghost use Rattle.courses.specs.Courses.{Moving};
ghost use Rattle.course_forms.specs.Views.{course_of, courses_of, named_of};
ghost use Rattle.pair_messages.specs.Moved.{named_row, row_courses};

use crate::walk::count_of;
use course_forms::{Course, Reference};
use expression_rules::{Dim, Dims, extent};
use hpf_base::{MAX_BOUND, MAX_ELEMENTS, OutOfMemory, Shape};
use std::alloc::Global;

/// The elements of a row with this shape, each at the tuple with its number; None where its bounds are past the limits.
pub(crate) fn row_reference(
    alloc: Global,
    shape: &Shape,
    row: usize,
) -> Result<Option<Reference>, OutOfMemory>
    ensures { IfOk result (λ r. IfSome r (λ own. named_of own ≡ named_row own.dims row)) }
{
    let Some(dims) = dims_of(alloc, shape)? else {
        return Ok(None);
    };
    let courses = row_courses(alloc, dims.as_slice())?;
    Ok(Some(Reference { row, dims, courses }))
}

/// The extents of dimensions.
pub(crate) fn extents_of(alloc: Global, dims: &Dims) -> Result<Vec<u64>, OutOfMemory>
    ensures extents { IfOk result (λ extents. extents.items ≡ map extent dims.now) }
    ensures few { IfOk result (λ extents. product extents.items ≤ 2 ^ 32) }
{
    let extents = extents_each(alloc, dims.as_slice())?;
    Ok(extents)
}

/// The same of a list of them.
fn extents_each(alloc: Global, dims: &[Dim]) -> Result<Vec<u64>, OutOfMemory>
    requires { All IsDim dims.now }
    ensures { IfOk result (λ extents. extents.items ≡ map extent dims.now) }
{
    let mut extents = Vec::new(alloc);
    for dim in dims {
        extents.push(extent(*dim))?;
    }
    Ok(extents)
}

/// The dimensions of a shape; None where they are past the limits of an array.
fn dims_of(alloc: Global, shape: &Shape) -> Result<Option<Dims>, OutOfMemory> {
    let Some(dims) = dims_each(alloc, shape.lower.numbers(), shape.extent.numbers())? else {
        return Ok(None);
    };
    limited(alloc, dims)
}

/// The same dimensions; None where an array may not have as many elements.
fn limited(alloc: Global, dims: Vec<Dim>) -> Result<Option<Dims>, OutOfMemory>
    requires { All IsDim dims.items }
{
    let extents = extents_each(alloc, &dims)?;
    if count_of(&extents) > MAX_ELEMENTS {
        return Ok(None);
    }
    Ok(Some(Dims::new(dims)))
}

/// Dimensions by their lower bounds and extents; None where a bound is past the limits.
fn dims_each(
    alloc: Global,
    lowers: &[i64],
    extents: &[i64],
) -> Result<Option<Vec<Dim>>, OutOfMemory>
    ensures { IfOk result (λ r. IfSome r (λ dims. All IsDim dims.items)) }
{
    let mut dims = Vec::new(alloc);
    if lowers.len() != extents.len() {
        return Ok(None);
    }
    for k in 0..lowers.len() {
        let Some(dim) = dim_of(lowers[k], extents[k]) else {
            return Ok(None);
        };
        dims.push(dim)?;
    }
    Ok(Some(dims))
}

/// One dimension.
fn dim_of(lower: i64, extent: i64) -> Option<Dim>
    ensures { IfSome result IsDim }
{
    let past = lower.checked_add(extent)?;
    let upper = past.checked_sub(1)?;
    if lower.unsigned_abs() > MAX_BOUND || upper.unsigned_abs() > MAX_BOUND {
        return None;
    }
    Some(Dim { lower, upper })
}

/// The subscripts of the elements of a row.
fn row_courses(alloc: Global, dims: &[Dim]) -> Result<Vec<Course>, OutOfMemory>
    ensures { IfOk result (λ courses. courses_of courses.items ≡ row_courses 0 dims.now) }
{
    let mut courses = Vec::new(alloc);
    for axis in 0..dims.len() {
        courses.push(row_course(&dims[axis], axis))?;
    }
    Ok(courses)
}

/// The subscript of one dimension, from its lower bound on.
fn row_course(dim: &Dim, axis: usize) -> Course
    ensures { course_of result ≡ Moving axis dim.now.lower (pos 1) }
{
    Course::Moving {
        axis,
        first: dim.lower,
        step: 1,
    }
}

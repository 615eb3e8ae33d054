//! Whether a reference is in bounds at all tuples.

ghost use Rattle.std.specs.Prelude.{◌≡◌, ℕ, ◌<◌, ◌≤◌, ◌^◌, [], ◌∷◌, All, length, slice_index_or, true};
ghost use Rattle.hpf_base.specs.ElementOrder.{product};
ghost use Rattle.axis_products.specs.Products.{places_at};
ghost use Rattle.axis_products.specs.Tests.{holds};
ghost use Rattle.courses.specs.AxisTables.{subscript_on};
ghost use Rattle.courses.specs.Owners.{bounds_test};
ghost use Rattle.courses.specs.References.{IsAlongAxes};
ghost use Rattle.courses.specs.Subscripts.{axis_pass, in_dim};
ghost use Rattle.course_forms.specs.Views.{course_of, courses_of, named_of};
ghost use Rattle.owned_places.specs.Dims.{AreInsideFrom, IsInsideDim};

use crate::dims::{in_dim, subscript_on};
use course_forms::{Course, Reference};
use expression_rules::Dim;

/// Whether the reference is found in bounds at every tuple of the space, by the first and the last place of each axis.
pub fn is_inside(reference: &Reference, extents: &[u64]) -> bool
    requires along { IsAlongAxes (length extents.now) (named_of reference.now) }
    requires few { All (λ n. n ≤ 2 ^ 32) extents.now }
    ensures { result ≡ true → (t : ℕ) → t < product extents.now
        → holds (bounds_test (named_of reference.now).dims (named_of reference.now).courses) (places_at extents.now t) ≡ true }
{
    are_inside(
        reference.dims.as_slice(),
        reference.courses.as_slice(),
        extents,
    )
}

/// Whether the subscripts that move along an axis are in bounds at a place of it.
pub fn is_inside_at(reference: &Reference, axis: usize, place: u32) -> bool
    requires rank { length (named_of reference.now).courses ≡ length (named_of reference.now).dims }
    ensures { result ≡ (bounds_test (named_of reference.now).dims (named_of reference.now).courses).at axis place }
{
    are_inside_at(
        reference.dims.as_slice(),
        reference.courses.as_slice(),
        axis,
        place,
    )
}

/// The same of courses.
fn are_inside_at(dims: &[Dim], courses: &[Course], axis: usize, place: u32) -> bool
    requires rank { length courses.now ≡ length dims.now }
    ensures { result ≡ axis_pass (in_dim dims.now) 0 (courses_of courses.now) axis place }
{
    for k in 0..courses.len() {
        if !is_moving_inside_at(dims, &courses[k], k, axis, place) {
            return false;
        }
    }
    true
}

/// The same of one dimension.
fn is_moving_inside_at(dims: &[Dim], course: &Course, k: usize, axis: usize, place: u32) -> bool
    requires dim { k < length dims.now }
    ensures { result ≡ axis_pass (in_dim dims.now) k (course_of course.now ∷ []) axis place }
{
    match course {
        Course::Moving {
            axis: along,
            first,
            step,
        } if *along == axis => in_dim(dims, k, subscript_on(*first, *step, place)),
        _ => true,
    }
}

/// The same of courses.
fn are_inside(dims: &[Dim], courses: &[Course], extents: &[u64]) -> bool
    requires rank { length courses.now ≡ length dims.now }
    requires few { All (λ n. n ≤ 2 ^ 32) extents.now }
    ensures { result ≡ true → AreInsideFrom dims.now extents.now 0 (courses_of courses.now) }
{
    for k in 0..courses.len() {
        if !is_course_inside(dims, &courses[k], extents, k) {
            return false;
        }
    }
    true
}

/// The same of one dimension.
fn is_course_inside(dims: &[Dim], course: &Course, extents: &[u64], k: usize) -> bool
    requires dim { k < length dims.now }
    requires few { All (λ n. n ≤ 2 ^ 32) extents.now }
    ensures { result ≡ true → IsInsideDim dims.now extents.now k (course_of course.now) }
{
    match course {
        Course::Fixed(i) => in_dim(dims, k, *i as i128),
        Course::Moving { axis, first, step } => {
            is_moving_inside(dims, k, *first, *step, extent_of(extents, *axis))
        }
    }
}

/// Whether a subscript that moves along an axis of this extent is in bounds at all its places.
fn is_moving_inside(dims: &[Dim], k: usize, first: i64, step: i64, extent: u64) -> bool
    requires dim { k < length dims.now }
    requires few { extent ≤ 2 ^ 32 }
    ensures { result ≡ true → (place : ℕ) → place < extent → in_dim dims.now k (subscript_on first step place) ≡ true }
{
    if extent == 0 {
        return true;
    }
    let last = (extent - 1) as u32;
    in_dim(dims, k, subscript_on(first, step, 0)) & in_dim(dims, k, subscript_on(first, step, last))
}

/// The extent of an axis; 0 where there is none.
fn extent_of(extents: &[u64], axis: usize) -> u64
    requires { All (λ n. n ≤ 2 ^ 32) extents.now }
    ensures value { result ≡ slice_index_or extents.now axis 0 }
    ensures few { result ≤ 2 ^ 32 }
{
    if axis < extents.len() {
        extents[axis]
    } else {
        0
    }
}

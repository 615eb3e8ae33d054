//! Whether a space and what is named at its tuples are as the message takes them.

ghost use Rattle.std.specs.Prelude.{◌≡◌, ◌≤◌, ◌^◌, All, true};
ghost use Rattle.hpf_base.specs.ElementOrder.{product};
ghost use Rattle.courses.specs.References.{IsAlongAxes};
ghost use Rattle.courses.specs.Subscripts.{AxesBelow, AxisBelow};
ghost use Rattle.course_forms.specs.Views.{course_of, courses_of, named_of, names_of};

use array_meaning::MAX_TUPLES;
use course_forms::{Course, Reference};

/// Whether a space of these extents has no more tuples than the limit.
pub fn are_few(extents: &[u64]) -> bool
    ensures { result ≡ true → product extents.now ≤ 2 ^ 32 }
{
    let mut count: u64 = 1;
    for extent in extents {
        if *extent > MAX_TUPLES {
            return false;
        }
        count *= *extent;
        if count > MAX_TUPLES {
            return false;
        }
    }
    true
}

/// Whether each of these references is along axes of a space that has so many.
pub fn all_along(references: &[Reference], axes: usize) -> bool
    ensures { result ≡ true → All (IsAlongAxes axes) (names_of references.now) }
{
    for reference in references {
        if !is_along(reference, axes) {
            return false;
        }
    }
    true
}

/// Whether a reference has a course for each dimension, along axes of a space that has so many.
pub fn is_along(reference: &Reference, axes: usize) -> bool
    ensures { result ≡ true → IsAlongAxes axes (named_of reference.now) }
{
    let courses = reference.courses.as_slice();
    courses.len() == reference.dims.as_slice().len() && are_below(courses, axes)
}

/// Whether the axes of courses are among the first so many.
fn are_below(courses: &[Course], axes: usize) -> bool
    ensures { result ≡ true → AxesBelow axes (courses_of courses.now) }
{
    for course in courses {
        if !is_below(course, axes) {
            return false;
        }
    }
    true
}

/// Whether the axis of a course is, if it has one.
fn is_below(course: &Course, axes: usize) -> bool
    ensures { result ≡ true → AxisBelow axes (course_of course.now) }
{
    match course {
        Course::Fixed(_) => true,
        Course::Moving { axis, .. } => *axis < axes,
    }
}

//! References by the courses of their subscripts.

ghost use Rattle.std.specs.Prelude.{◌≡◌, ◌≤◌, ◌<◌, ◌++◌, IfOk, IfSome, Some, map};
ghost use Rattle.array_meaning.specs.declared.limits.TheConstants.{MAX_TUPLES};
ghost use Rattle.hpf_base.specs.ElementOrder.{product};
ghost use Rattle.courses.specs.References.{Named, copy_dims, named_copy, named_element, own_courses};
ghost use Rattle.course_forms.specs.Views.{courses_of, named_of};

use crate::course::Course;
use expression_rules::{Dim, Dims};
use hpf_base::OutOfMemory;
use std::alloc::Global;

/// What a parallel statement names at the tuples of a space: elements of one row, by its dimensions and the courses of their subscripts.
/// Contracts see it as `Named`.
#[derive(Drop)]
pub struct Reference {
    pub row: usize,
    pub dims: Dims,
    pub courses: Vec<Course>,
}

/// Elements of an array by the courses of their subscripts; None where these aren't as many as its dimensions. None is no answer.
pub fn named_element(
    alloc: Global,
    shapes: &[Dims],
    array: usize,
    courses: Vec<Course>,
) -> Result<Option<Reference>, OutOfMemory>
    ensures { IfOk result (λ r. IfSome r (λ r. named_element shapes.now array (Some (courses_of courses.items)) ≡ Some (named_of r))) }
{
    if array >= shapes.len() {
        return Ok(None);
    }
    let dims = shapes[array].copy(alloc)?;
    if courses.len() != dims.as_slice().len() {
        return Ok(None);
    }
    Ok(Some(Reference {
        row: array,
        dims,
        courses,
    }))
}

/// The elements of a copy over a space of these extents, each at the tuple with its number.
pub fn named_copy(alloc: Global, ns: &[u64], row: usize) -> Result<Reference, OutOfMemory>
    requires some { 0 < product ns.now }
    requires few { product ns.now ≤ MAX_TUPLES }
    ensures { IfOk result (λ r. named_of r ≡ named_copy ns.now row) }
{
    let dims = Dims::new(copy_dims(alloc, ns)?);
    let courses = own_courses(alloc, ns)?;
    Ok(Reference { row, dims, courses })
}

/// The dimensions of a copy.
#[tactic(auto, using(crate::proofs::CopyDims::extent_fits, crate::proofs::CopyDims::dims_next))]
fn copy_dims(alloc: Global, ns: &[u64]) -> Result<Vec<Dim>, OutOfMemory>
    requires some { 0 < product ns.now }
    requires few { product ns.now ≤ MAX_TUPLES }
    ensures { IfOk result (λ dims. dims.items ≡ copy_dims ns.now) }
{
    let mut dims = Vec::new(alloc);
    for n in ns {
        dims.push(Dim {
            lower: 1,
            upper: *n as i64,
        })?;
    }
    Ok(dims)
}

/// The courses of the positions of a tuple.
#[tactic(auto, using(crate::proofs::CopyDims::own_step))]
fn own_courses(alloc: Global, ns: &[u64]) -> Result<Vec<Course>, OutOfMemory>
    ensures { IfOk result (λ cs. courses_of cs.items ≡ own_courses 0 ns.now) }
{
    let mut cs = Vec::new(alloc);
    for axis in 0..ns.len() {
        cs.push(Course::Moving {
            axis,
            first: 1,
            step: 1,
        })?;
    }
    Ok(cs)
}

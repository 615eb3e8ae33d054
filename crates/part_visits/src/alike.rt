//! References that name elements which lie alike.

ghost use Rattle.std.specs.Prelude.{◌≡◌, All, IfOk, IsTrue, length};
ghost use Rattle.machine_steps.specs.Layout.{in_bounds};
ghost use Rattle.machine_steps.specs.Message.{computes_left};
ghost use Rattle.courses.specs.References.{IsAlongAxes, named_spot};
ghost use Rattle.course_forms.specs.Views.{named_of, names_of};
ghost use Rattle.visited_tuples.specs.Owned.{Lies};
ghost use Rattle.visited_tuples.specs.Visited.{AreAlike, Suffice};

use crate::visitor::Visitor;
use course_forms::{Course, Reference};
use expression_rules::Dim;
use hpf_base::OutOfMemory;
use std::alloc::Global;

impl<'a> Visitor<'a> {
    /// The references of these that don't lie as what is assigned, or have other subscripts than that: the others name nothing that the node which computes
    /// a tuple lacks there.
    pub(crate) fn apart(
        &self,
        alloc: Global,
        l: &Reference,
        reads: &[Reference],
    ) -> Result<Vec<Reference>, OutOfMemory>
        requires lies { Lies self.now.extents.now self.now.owners.now.layouts (named_of l.now) }
        requires reads { All (IsAlongAxes (length self.now.extents.now)) (names_of reads.now) }
        ensures along { IfOk result (λ few. All (IsAlongAxes (length self.now.extents.now)) (names_of few.items)) }
        ensures few { IfOk result (λ few. Suffice
            (λ node t. computes_left self.now.owners.now.layouts node (in_bounds self.now.owners.now.layouts (named_spot self.now.extents.now t (named_of l.now))))
            self.now.owners.now.layouts self.now.extents.now (names_of reads.now) (names_of few.items)) }
    {
        let mut few = Vec::new(alloc);
        for read in reads {
            if self.are_alike(l, read) {
                continue;
            }
            let copy = copy_of(alloc, read)?;
            few.push(copy)?;
        }
        Ok(few)
    }

    /// Whether the rows of two references lie alike, and their subscripts are the same at each tuple.
    fn are_alike(&self, l: &Reference, r: &Reference) -> bool
        ensures { IsTrue result → AreAlike self.now.owners.now.layouts (named_of l.now) (named_of r.now) }
    {
        let Some(table) = self.owners.table(l.row) else {
            return false;
        };
        let Some(other) = self.owners.table(r.row) else {
            return false;
        };
        if !table.lies_as(other) {
            return false;
        }
        if !same_dims(l.dims.as_slice(), r.dims.as_slice()) {
            return false;
        }
        same_courses(&l.courses, &r.courses)
    }
}

/// The same reference once more.
fn copy_of(alloc: Global, r: &Reference) -> Result<Reference, OutOfMemory>
    ensures { IfOk result (λ copy. named_of copy ≡ named_of r.now) }
{
    let dims = r.dims.copy(alloc)?;
    let courses = r.courses.to_vec(alloc)?;
    Ok(Reference {
        row: r.row,
        dims,
        courses,
    })
}

/// Whether the dimensions have the same bounds.
fn same_dims(one: &[Dim], other: &[Dim]) -> bool
    ensures { IsTrue result → one.now ≡ other.now }
{
    if one.len() != other.len() {
        return false;
    }
    for k in 0..one.len() {
        if !same_dim(one[k], other[k]) {
            return false;
        }
    }
    true
}

/// Whether two dimensions have the same bounds.
fn same_dim(one: Dim, other: Dim) -> bool
    ensures { IsTrue result → one ≡ other }
{
    one.lower == other.lower && one.upper == other.upper
}

/// Whether the courses are the same, one by one.
fn same_courses(one: &[Course], other: &[Course]) -> bool
    ensures { IsTrue result → one.now ≡ other.now }
{
    if one.len() != other.len() {
        return false;
    }
    for k in 0..one.len() {
        if !same_course(one[k], other[k]) {
            return false;
        }
    }
    true
}

/// Whether two courses are the same.
fn same_course(one: Course, other: Course) -> bool
    ensures { IsTrue result → one ≡ other }
{
    match (one, other) {
        (Course::Fixed(i), Course::Fixed(j)) => i == j,
        (
            Course::Moving { axis, first, step },
            Course::Moving {
                axis: axis_too,
                first: first_too,
                step: step_too,
            },
        ) => axis == axis_too && first == first_too && step == step_too,
        _ => false,
    }
}

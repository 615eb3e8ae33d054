//! The two references of an element whose first subscript goes round a dimension.

ghost use Rattle.std.specs.Prelude.{◌≡◌, ◌∷◌, ℕ, List, IfOk, IfSome, Some};
ghost use Rattle.expression_rules.specs.declared.dims.Dim.{Dim as DimSpec};
ghost use Rattle.expression_rules.specs.Dims.{AreDims};
ghost use Rattle.node_code.specs.Forms.{SectionForm, Sub as SubSpec};
ghost use Rattle.node_code.specs.Texts.{sub, subs};
ghost use Rattle.code_meaning.specs.Parallel.{shape_of};
ghost use Rattle.courses.specs.References.{indexed_courses};
ghost use Rattle.courses.specs.TurnedNames.{both_named, turned_names};
ghost use Rattle.course_forms.specs.Views.{course_of, courses_of, named_of};

use crate::course::Course;
use crate::indexed::indexed_courses;
use crate::reference::{Reference, named_element};
use crate::turned::{BothCourses, first_courses};
use expression_rules::{Dim, Dims};
use hpf_base::OutOfMemory;
use node_code::Sub;
use std::alloc::Global;

/// Two references, of which at each tuple one at most names an element.
#[derive(Drop)]
pub struct BothReferences {
    pub low: Reference,
    pub high: Reference,
}

/// The references of an element of an array whose first subscript goes round its first dimension, by the courses of the indices over a space
/// of these extents. None is no answer.
pub fn both_references(
    alloc: Global,
    shapes: &[Dims],
    slots: &[i64],
    ns: &[u64],
    is: &[Course],
    array: usize,
    section: &[Sub],
) -> Result<Option<BothReferences>, OutOfMemory>
    ensures { IfOk result (λ r. IfSome r (λ p. turned_names shapes.now slots.now ns.now (courses_of is.now) (SectionForm array (subs section.now))
        ≡ Some (named_of p.low, named_of p.high))) }
{
    if section.is_empty() || array >= shapes.len() {
        return Ok(None);
    }
    let dims = shapes[array].as_slice();
    let Some(first) = sub_courses(slots, ns, is, dims, &section[0]) else {
        return Ok(None);
    };
    match indexed_courses(alloc, slots, ns, is, &section[1..])? {
        None => Ok(None),
        Some(others) => both_elements(alloc, shapes, array, first, &others),
    }
}

/// Both courses of the first subscript of an array with these dimensions.
#[tactic(auto, using(crate::proofs::TurnedForms::first_named))]
fn sub_courses(
    slots: &[i64],
    ns: &[u64],
    is: &[Course],
    dims: &[Dim],
    d: &Sub,
) -> Option<BothCourses>
    requires { AreDims dims.now }
    ensures { IfSome result (λ b. (shapes : List (List DimSpec)) (a : ℕ) (ss : List SubSpec) → dims.now ≡ shape_of shapes a
        → turned_names shapes slots.now ns.now (courses_of is.now) (SectionForm a (sub d.now ∷ ss))
        ≡ both_named shapes a (Some (course_of b.low, course_of b.high)) (indexed_courses slots.now ns.now (courses_of is.now) ss)) }
{
    match d {
        Sub::At(f) => first_courses(slots, ns, is, dims, f),
        Sub::Along(_) => None,
    }
}

/// The references by both courses of the first subscript and those of the others.
fn both_elements(
    alloc: Global,
    shapes: &[Dims],
    array: usize,
    first: BothCourses,
    others: &[Course],
) -> Result<Option<BothReferences>, OutOfMemory>
    ensures { IfOk result (λ r. IfSome r (λ p. both_named shapes.now array (Some (course_of first.low, course_of first.high)) (Some (courses_of others.now))
        ≡ Some (named_of p.low, named_of p.high))) }
{
    let low = courses_after(alloc, first.low, others)?;
    let Some(low) = named_element(alloc, shapes, array, low)? else {
        return Ok(None);
    };
    let high = courses_after(alloc, first.high, others)?;
    match named_element(alloc, shapes, array, high)? {
        None => Ok(None),
        Some(high) => Ok(Some(BothReferences { low, high })),
    }
}

/// A course, and others after it.
fn courses_after(
    alloc: Global,
    first: Course,
    others: &[Course],
) -> Result<Vec<Course>, OutOfMemory>
    ensures { IfOk result (λ cs. courses_of cs.items ≡ course_of first ∷ courses_of others.now) }
{
    let mut cs = Vec::new(alloc);
    cs.push(first)?;
    cs.extend_from_slice(others)?;
    Ok(cs)
}

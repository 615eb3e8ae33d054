//! The courses of subscripts that are expressions of indices.

ghost use Rattle.std.specs.Prelude.{◌≡◌, ◌∷◌, List, IfOk, IfSome, Some};
ghost use Rattle.node_code.specs.Forms.{Sub as SubSpec};
ghost use Rattle.node_code.specs.Texts.{sub, subs};
ghost use Rattle.courses.specs.References.{and_course, indexed_courses};
ghost use Rattle.course_forms.specs.Views.{course_of, courses_of};

use crate::course::{Course, flat_course};
use hpf_base::OutOfMemory;
use node_code::Sub;
use std::alloc::Global;

/// The courses of the subscripts of a FORALL or a nest, by those of its indices over a space of these extents. None is no answer.
pub fn indexed_courses(
    alloc: Global,
    slots: &[i64],
    ns: &[u64],
    is: &[Course],
    section: &[Sub],
) -> Result<Option<Vec<Course>>, OutOfMemory>
    ensures { IfOk result (λ r. IfSome r (λ cs. indexed_courses slots.now ns.now (courses_of is.now) (subs section.now) ≡ Some (courses_of cs.items))) }
{
    let mut cs = Vec::new(alloc);
    for d in section {
        match sub_course(slots, ns, is, d) {
            None => return Ok(None),
            Some(c) => cs.push(c)?,
        }
    }
    Ok(Some(cs))
}

/// The course of one of them; a triplet has none.
fn sub_course(slots: &[i64], ns: &[u64], is: &[Course], d: &Sub) -> Option<Course>
    ensures { IfSome result (λ c. (ds : List SubSpec) → indexed_courses slots.now ns.now (courses_of is.now) (sub d.now ∷ ds)
        ≡ and_course (Some (course_of c)) (indexed_courses slots.now ns.now (courses_of is.now) ds)) }
{
    match d {
        Sub::At(f) => flat_course(slots, ns, is, f),
        Sub::Along(_) => None,
    }
}

//! The courses of sections.

ghost use Rattle.std.specs.Prelude.{◌≡◌, ◌≤◌, ◌∷◌, List, drop, IfOk, IfSome, Some, length, true};
ghost use Rattle.array_meaning.specs.declared.sections.Selection.{Selection as SelectionSpec};
ghost use Rattle.courses.specs.Courses.{is_section_small, section_courses};
ghost use Rattle.courses.specs.References.{selected_courses};
ghost use Rattle.course_forms.specs.Views.{course_of, courses_of};

use crate::course::{Course, moving, small, wide};
use array_meaning::Selection;
use hpf_base::OutOfMemory;
use std::alloc::Global;

/// The course of a section's subscript, and how many axes are used behind it.
#[derive(Clone, Copy)]
struct Step {
    course: Course,
    used: usize,
}

/// The course of the subscript at which so many axes are used. None is no answer.
#[tactic(auto, using(crate::proofs::Drops::along_next))]
fn section_step(ns: &[u64], used: usize, d: &Selection) -> Option<Step>
    requires { used ≤ length ns.now }
    ensures few { IfSome result (λ s. s.used ≤ length ns.now) }
    ensures small { IfSome result (λ s. (ds : List SelectionSpec) → is_section_small (drop used ns.now) (d.now ∷ ds) ≡ is_section_small (drop s.used ns.now) ds) }
    ensures courses { IfSome result (λ s. (ds : List SelectionSpec) → section_courses used (drop used ns.now) (d.now ∷ ds)
        ≡ course_of s.course ∷ section_courses s.used (drop s.used ns.now) ds) }
{
    match d {
        Selection::At(i) => {
            let at = small(&(*i as i128))?;
            Some(Step {
                course: Course::Fixed(at),
                used,
            })
        }
        Selection::Along(p) => {
            if used == ns.len() {
                let first = small(&(p.first as i128))?;
                return Some(Step {
                    course: Course::Fixed(first),
                    used,
                });
            }
            let first = wide(&p.first);
            let step = wide(&p.step);
            let course = moving(used, ns[used], &first, &step)?;
            Some(Step {
                course,
                used: used + 1,
            })
        }
    }
}

/// The courses of a section's subscripts over a space of these extents. None is no answer.
pub fn section_courses(
    alloc: Global,
    ns: &[u64],
    ds: &[Selection],
) -> Result<Option<Vec<Course>>, OutOfMemory>
    ensures { IfOk result (λ r. IfSome r (λ cs. selected_courses ns.now ds.now ≡ Some (courses_of cs.items))) }
{
    let mut cs = Vec::new(alloc);
    let mut used = 0;
    for d in ds {
        match section_step(ns, used, d) {
            None => return Ok(None),
            Some(s) => {
                cs.push(s.course)?;
                used = s.used;
            }
        }
    }
    Ok(Some(cs))
}

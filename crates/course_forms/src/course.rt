//! Subscripts that move along one axis each.

ghost use Rattle.std.specs.Prelude.{◌≡◌, IfSome, Some, pos, ◌+ℤ◌, ◌*ℤ◌, ◌-◌, slice_index_or, true};
ghost use Rattle.node_code.specs.Texts.{flat};
ghost use Rattle.courses.specs.Courses.{Fixed, along, are_small, is_small};
ghost use Rattle.courses.specs.StraightForms.{flat_course, sloped_course, straight_course};
ghost use Rattle.course_forms.specs.Views.{course_of, courses_of, straight_of};

use crate::straight::{Straight, straight_form};
use node_code::Flat;

/// A subscript that is the same at each tuple, or that goes by the tuple's place on an axis, from 0: the first one, and a step more for each
/// place.
#[derive(Clone, Copy)]
pub enum Course {
    Fixed(i64),
    Moving { axis: usize, first: i64, step: i64 },
}

/// The number, if it is below 2^62 in magnitude.
pub(crate) fn small(z: &i128) -> Option<i64>
    ensures { IfSome result (λ v. (v ≡ z.now) × (is_small z.now ≡ true)) }
{
    if z.unsigned_abs() > 4611686018427387903 {
        return None;
    }
    Some(*z as i64)
}

/// The number in 128 bits.
pub(crate) fn wide(x: &i64) -> i128
    ensures { result ≡ x.now }
{
    *x as i128
}

/// `factor * x + offset`, where that fits 128 bits.
fn line_at(factor: &i64, x: &i64, offset: &i64) -> Option<i128>
    ensures { IfSome result (λ z. z ≡ (factor.now *ℤ x.now) +ℤ offset.now) }
{
    let p = product(factor, x);
    p.checked_add(*offset as i128)
}

/// The product of two numbers of 64 bits.
fn product(factor: &i64, step: &i64) -> i128
    ensures { result ≡ factor.now *ℤ step.now }
{
    *factor as i128 * *step as i128
}

/// The last subscript on an axis of this extent, where that fits 128 bits.
fn last_of(extent: u64, first: &i128, step: &i128) -> Option<i128>
    ensures { IfSome result (λ z. z ≡ first.now +ℤ (step.now *ℤ pos (extent - 1))) }
{
    let n = if extent == 0 { 0 } else { extent - 1 };
    let far = step.checked_mul(n as i128)?;
    first.checked_add(far)
}

/// What moves along an axis, where its ends are small.
pub(crate) fn moving(axis: usize, extent: u64, first: &i128, step: &i128) -> Option<Course>
    ensures { IfSome result (λ c. (are_small extent first.now step.now ≡ true) × (course_of c ≡ along axis extent first.now step.now)) }
{
    let begin = small(first)?;
    let end = last_of(extent, first, step)?;
    small(&end)?;
    if extent <= 1 || *step == 0 {
        return Some(Course::Fixed(begin));
    }
    let by = small(step)?;
    Some(Course::Moving {
        axis,
        first: begin,
        step: by,
    })
}

/// The extent of an axis; 0 where there is none.
pub(crate) fn extent_of(ns: &[u64], axis: usize) -> u64
    ensures { result ≡ slice_index_or ns.now axis 0 }
{
    if axis < ns.len() { ns[axis] } else { 0 }
}

/// The course of a linear form by the course of its index.
#[tactic(auto, using(std::proofs::lemmas::Int::wraps))]
fn sloped_course(ns: &[u64], factor: &i64, offset: &i64, index: &Course) -> Option<Course>
    ensures { IfSome result (λ c. sloped_course ns.now factor.now offset.now (course_of index.now) ≡ Some (course_of c)) }
{
    match index {
        Course::Fixed(i) => Some(Course::Fixed(factor.wrapping_mul(*i).wrapping_add(*offset))),
        Course::Moving { axis, first, step } => {
            let begin = line_at(factor, first, offset)?;
            let by = product(factor, step);
            moving(*axis, extent_of(ns, *axis), &begin, &by)
        }
    }
}

/// The course of an index, and 0 where there is none.
fn index_course(cs: &[Course], k: usize) -> Course
    ensures { course_of result ≡ slice_index_or (courses_of cs.now) k (Fixed (pos 0)) }
{
    if k < cs.len() {
        cs[k]
    } else {
        Course::Fixed(0)
    }
}

/// The course of a number or a linear form, by those of the indices.
pub(crate) fn straight_course(ns: &[u64], is: &[Course], x: &Straight) -> Option<Course>
    ensures { IfSome result (λ c. straight_course ns.now (courses_of is.now) (straight_of x.now) ≡ Some (course_of c)) }
{
    match x {
        Straight::Constant(v) => Some(Course::Fixed(*v)),
        Straight::Sloped {
            index,
            factor,
            offset,
        } => {
            let by = index_course(is, *index);
            sloped_course(ns, factor, offset, &by)
        }
    }
}

/// The course of a subscript of a FORALL or a nest, by those of its indices over a space of these extents. It takes no memory. None is no
/// answer.
pub fn flat_course(slots: &[i64], ns: &[u64], is: &[Course], f: &Flat) -> Option<Course>
    ensures { IfSome result (λ c. flat_course slots.now ns.now (courses_of is.now) (flat f.now) ≡ Some (course_of c)) }
{
    let x = straight_form(slots, f)?;
    straight_course(ns, is, &x)
}

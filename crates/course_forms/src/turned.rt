//! Subscripts that go round a dimension.

ghost use Rattle.std.specs.Prelude.{◌≡◌, ◌+ℤ◌, ◌-ℤ◌, pos, IfSome, Some};
ghost use Rattle.expression_rules.specs.Dims.{AreDims, IsDim, extent};
ghost use Rattle.op_tables.specs.declared.op.Op.TheVariants as op;
ghost use Rattle.node_code.specs.Flat.{Int, Operated};
ghost use Rattle.node_code.specs.Texts.{flat, flats_of};
ghost use Rattle.courses.specs.TurnedForms.{is_same_form, operation, turned_in};
ghost use Rattle.courses.specs.TurnedNames.{first_courses, further, is_of_first, turned_courses};
ghost use Rattle.course_forms.specs.Views.{course_of, courses_of, straight_of, turned_of};

use crate::course::{Course, extent_of, moving, small, straight_course, wide};
use crate::straight::{Straight, straight_form};
use expression_rules::{Dim, extent};
use node_code::Flat;
use op_tables::Op;

/// The lower bound of a dimension, the number n, and the form of how far above the bound a subscript is before n is taken off.
#[derive(Clone, Copy)]
pub(crate) struct Turned {
    lower: i64,
    count: i64,
    above: Straight,
}

/// The courses of a subscript that goes round: before n is taken off, and n less.
#[derive(Clone, Copy)]
pub(crate) struct BothCourses {
    pub(crate) low: Course,
    pub(crate) high: Course,
}

/// Both courses of the first subscript of an array with these dimensions, by those of the indices over a space of these extents. None is no
/// answer.
#[tactic(auto, using(crate::proofs::TurnedForms::first_are))]
pub(crate) fn first_courses(
    slots: &[i64],
    ns: &[u64],
    is: &[Course],
    dims: &[Dim],
    f: &Flat,
) -> Option<BothCourses>
    requires { AreDims dims.now }
    ensures { IfSome result (λ b. first_courses slots.now ns.now (courses_of is.now) dims.now (flat f.now) ≡ Some (course_of b.low, course_of b.high)) }
{
    let turned = turned_form(slots, f)?;
    if !is_of_first(&turned, dims) {
        return None;
    }
    turned_courses(ns, is, &turned)
}

// ---- courses

/// Both courses of a subscript.
fn turned_courses(ns: &[u64], is: &[Course], x: &Turned) -> Option<BothCourses>
    ensures { IfSome result (λ b. turned_courses ns.now (courses_of is.now) (turned_of x.now) ≡ Some (course_of b.low, course_of b.high)) }
{
    let above = straight_course(ns, is, &x.above)?;
    let stays = wide(&x.lower);
    let low = further(ns, &stays, &above)?;
    let goes = difference(&x.lower, &x.count);
    let high = further(ns, &goes, &above)?;
    Some(BothCourses { low, high })
}

/// A course that goes so much further, where it is small.
fn further(ns: &[u64], z: &i128, c: &Course) -> Option<Course>
    ensures { IfSome result (λ d. further ns.now z.now (course_of c.now) ≡ Some (course_of d)) }
{
    match c {
        Course::Fixed(i) => {
            let at = sum(i, z)?;
            Some(Course::Fixed(small(&at)?))
        }
        Course::Moving { axis, first, step } => {
            let begin = sum(first, z)?;
            let by = wide(step);
            moving(*axis, extent_of(ns, *axis), &begin, &by)
        }
    }
}

/// A sum, where it fits 128 bits.
fn sum(i: &i64, z: &i128) -> Option<i128>
    ensures { IfSome result (λ s. s ≡ i.now +ℤ z.now) }
{
    z.checked_add(*i as i128)
}

/// A difference of numbers of 64 bits.
fn difference(a: &i64, b: &i64) -> i128
    ensures { result ≡ a.now -ℤ b.now }
{
    *a as i128 - *b as i128
}

/// Whether the first dimension has this lower bound, and n subscripts.
fn is_of_first(x: &Turned, dims: &[Dim]) -> bool
    requires { AreDims dims.now }
    ensures { result ≡ is_of_first (turned_of x.now) dims.now }
{
    if dims.is_empty() {
        return false;
    }
    (dims[0].lower == x.lower) & (extent_of_dim(dims[0]) == x.count)
}

/// The extent of a dimension.
fn extent_of_dim(dim: Dim) -> i64
    requires { IsDim dim }
    ensures { result ≡ pos (extent dim) }
{
    extent(dim) as i64
}

// ---- forms

/// An expression as a subscript that goes round.
#[tactic(auto, using(crate::proofs::TurnedForms::turned_is))]
fn turned_form(slots: &[i64], f: &Flat) -> Option<Turned>
    ensures { IfSome result (λ x. turned_in slots.now (flat f.now) ≡ Some (turned_of x)) }
{
    let moved = sum_with_number(f)?;
    let less = less_multiple(moved.rest)?;
    let test = test_of_least(less.test)?;
    let above = straight_form(slots, less.first)?;
    let tested = straight_form(slots, test.rest)?;
    if !is_same_form(&above, &tested) || less.count != test.number {
        return None;
    }
    Some(Turned {
        lower: moved.number,
        count: less.count,
        above,
    })
}

/// An expression beside a number.
#[derive(Clone, Copy)]
struct WithNumber<'a> {
    rest: &'a Flat,
    number: i64,
}

/// Two expressions: of the second one, so many times, the first is less.
#[derive(Clone, Copy)]
struct LessMultiple<'a> {
    first: &'a Flat,
    count: i64,
    test: &'a Flat,
}

/// An operator and both its operands.
#[derive(Clone, Copy)]
struct Operation<'a> {
    op: Op,
    first: &'a Flat,
    second: &'a Flat,
}

/// A sum whose second operand is a number.
fn sum_with_number(f: &Flat) -> Option<WithNumber<'_>>
    ensures { IfSome result (λ w. flat f.now ≡ operation op.Add (flat w.rest.now) (Int w.number)) }
{
    let o = operation_of(f)?;
    let number = number_of(o.second)?;
    match o.op {
        Op::Add => Some(WithNumber {
            rest: o.first,
            number,
        }),
        _ => None,
    }
}

/// A difference whose second operand is a multiple.
fn less_multiple(f: &Flat) -> Option<LessMultiple<'_>>
    ensures { IfSome result (λ l. flat f.now ≡ operation op.Sub (flat l.first.now) (operation op.Mul (Int l.count) (flat l.test.now))) }
{
    let o = operation_of(f)?;
    let product = operation_of(o.second)?;
    let count = number_of(product.first)?;
    match (o.op, product.op) {
        (Op::Sub, Op::Mul) => Some(LessMultiple {
            first: o.first,
            count,
            test: product.second,
        }),
        _ => None,
    }
}

/// A test whether an expression is a number or more.
fn test_of_least(f: &Flat) -> Option<WithNumber<'_>>
    ensures { IfSome result (λ w. flat f.now ≡ operation op.Ge (flat w.rest.now) (Int w.number)) }
{
    let o = operation_of(f)?;
    let number = number_of(o.second)?;
    match o.op {
        Op::Ge => Some(WithNumber {
            rest: o.first,
            number,
        }),
        _ => None,
    }
}

/// An operator of two operands.
fn operation_of(f: &Flat) -> Option<Operation<'_>>
    ensures { IfSome result (λ o. flat f.now ≡ operation o.op (flat o.first.now) (flat o.second.now)) }
{
    match f {
        Flat::Operated(o, fs) => both_operands(*o, fs),
        _ => None,
    }
}

/// Two operands.
fn both_operands(op: Op, fs: &Vec<Flat>) -> Option<Operation<'_>>
    ensures { IfSome result (λ o. Operated op (flats_of fs.now.items) ≡ operation o.op (flat o.first.now) (flat o.second.now)) }
{
    if fs.len() != 2 {
        return None;
    }
    Some(Operation {
        op,
        first: &fs[0],
        second: &fs[1],
    })
}

/// A number that stands in the text.
fn number_of(f: &Flat) -> Option<i64>
    ensures { IfSome result (λ v. flat f.now ≡ Int v) }
{
    match f {
        Flat::Int(v) => Some(*v),
        _ => None,
    }
}

/// Whether both forms are the same.
fn is_same_form(x: &Straight, y: &Straight) -> bool
    ensures { result ≡ is_same_form (straight_of x.now) (straight_of y.now) }
{
    match (x, y) {
        (Straight::Constant(v), Straight::Constant(w)) => *v == *w,
        (
            Straight::Sloped {
                index,
                factor,
                offset,
            },
            Straight::Sloped {
                index: other,
                factor: by,
                offset: from,
            },
        ) => (*index == *other) & ((*factor == *by) & (*offset == *from)),
        _ => false,
    }
}

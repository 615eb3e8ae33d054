//! The places of the axes at which one node computes and another owns what is read.

ghost use Rattle.std.specs.Prelude.{◌≡◌, ◌^◌, ◌<◌, ◌≤◌, ◌&&◌, ℕ, All, false, true, IfNone, IfOk, IfSome, length, map, slice_index_or};
ghost use Rattle.std.specs.Option.{option_map};
ghost use Rattle.axis_products.specs.Products.{places_at};
ghost use Rattle.axis_products.specs.Tests.{and_test, holds};
ghost use Rattle.course_forms.specs.Views.{course_of, courses_of, named_of};
ghost use Rattle.owned_places.specs.Holdings.{test_of};
ghost use Rattle.visited_tuples.specs.Owned.{Lies, owns_named};
ghost use Rattle.pair_messages.specs.Classes.{AreCommonFrom, AreCommonOn};
ghost use Rattle.pair_messages.specs.Enough.{AreEnough, AreEnoughFrom, IsEnough, moves_along, moves_on};

use crate::classes::Class;
use crate::meetings::common_classes;
use crate::members::{common_places, one_place};
use crate::pair::Pair;
use course_forms::{Course, Reference};
use hpf_base::OutOfMemory;
use owned_places::Holding;
use owner_tables::Owners;
use std::alloc::Global;

/// Lists of places, one an axis, each ascending.
pub(crate) type Lists = Vec<Vec<u32>>;

impl<'a> Pair<'a> {
    /// The places of each axis at which the taker computes, and the sender owns what the reference names, and one of them where none of its subscripts moves; None
    /// where there is no such tuple. Each axis is asked for classes of such places before there is a list of places.
    pub(crate) fn places(
        &self,
        alloc: Global,
        read: &Reference,
    ) -> Result<Option<Lists>, OutOfMemory>
        requires few { All (λ n. n ≤ 2 ^ 32) self.now.extents.now }
        requires left { Lies self.now.extents.now self.now.takers.now.layouts (named_of self.now.left.now) }
        requires lies { Lies self.now.extents.now self.now.owners.now.layouts (named_of read.now) }
        ensures { IfOk result (λ r. AreEnough (moves_on (named_of read.now).courses)
            (and_test (owns_named self.now.takers.now.layouts self.now.to (named_of self.now.left.now)) (owns_named self.now.owners.now.layouts self.now.from (named_of read.now)))
            self.now.extents.now (option_map (λ lists. map (λ v. v.items) lists.items) r)) }
    {
        let Some(computed) = holding_of(self.takers, self.extents, self.to, self.left) else {
            return Ok(None);
        };
        let Some(owned) = holding_of(self.owners, self.extents, self.from, read) else {
            return Ok(None);
        };
        let Some(classes) = classes_of_axes(alloc, &computed, &owned, self.extents)? else {
            return Ok(None);
        };
        let courses = read.courses.as_slice();
        let lists = lists_of(alloc, &classes, &computed, &owned, courses, self.extents)?;
        Ok(Some(lists))
    }
}

/// What a node owns of what a reference names; None where that is nothing.
fn holding_of<'r>(
    owners: &'r Owners,
    extents: &[u64],
    node: u32,
    reference: &'r Reference,
) -> Option<Holding<'r>>
    requires node { node < owners.now.nodes }
    requires lies { Lies extents.now owners.now.layouts (named_of reference.now) }
    ensures some { IfSome result (λ h. (test_of h ≡ owns_named owners.now.layouts node (named_of reference.now)) × ((test_of h).always ≡ true)) }
    ensures none { IfNone result ((t : ℕ) → holds (owns_named owners.now.layouts node (named_of reference.now)) (places_at extents.now t) ≡ false) }
{
    match owners.table(reference.row) {
        Some(table) => Holding::new(table, node, reference),
        None => None,
    }
}

/// Of each axis classes of places, among them all at which both own what is named; None where an axis has none.
fn classes_of_axes(
    alloc: Global,
    one: &Holding,
    other: &Holding,
    extents: &[u64],
) -> Result<Option<Vec<Vec<Class>>>, OutOfMemory>
    requires { All (λ n. n ≤ 2 ^ 32) extents.now }
    ensures some { IfOk result (λ r. IfSome r (λ lists. AreCommonFrom 0 extents.now (test_of one.now) (test_of other.now) (map (λ v. v.items) lists.items))) }
    ensures none { IfOk result (λ r. IfNone r ((axis : ℕ) × (axis < length extents.now)
        × ((x : ℕ) → x < slice_index_or extents.now axis 0 → ((test_of one.now).at axis x && (test_of other.now).at axis x) ≡ false))) }
{
    let mut lists = Vec::new(alloc);
    for axis in 0..extents.len() {
        let classes = common_classes(alloc, one, other, axis, extents[axis])?;
        if classes.len() == 0 {
            return Ok(None);
        }
        lists.push(classes)?;
    }
    Ok(Some(lists))
}

/// Of each axis the places at which both own what is named, by such classes; one of them where none of the courses moves along the axis.
fn lists_of(
    alloc: Global,
    classes: &[Vec<Class>],
    one: &Holding,
    other: &Holding,
    courses: &[Course],
    extents: &[u64],
) -> Result<Lists, OutOfMemory>
    requires few { All (λ n. n ≤ 2 ^ 32) extents.now }
    requires classes { AreCommonFrom 0 extents.now (test_of one.now) (test_of other.now) (map (λ v. v.items) classes.now) }
    ensures { IfOk result (λ lists. AreEnoughFrom (moves_on (courses_of courses.now)) (λ axis x. (test_of one.now).at axis x && (test_of other.now).at axis x)
        0 extents.now (map (λ v. v.items) lists.items)) }
{
    let mut lists = Vec::new(alloc);
    for axis in 0..classes.len() {
        let is_asked = moves_on(courses, axis);
        let places = places_on(
            alloc,
            &classes[axis],
            one,
            other,
            is_asked,
            axis,
            extents[axis],
        )?;
        lists.push(places)?;
    }
    Ok(lists)
}

/// The same of one axis.
fn places_on(
    alloc: Global,
    classes: &[Class],
    one: &Holding,
    other: &Holding,
    is_asked: bool,
    axis: usize,
    extent: u64,
) -> Result<Vec<u32>, OutOfMemory>
    requires few { extent ≤ 2 ^ 32 }
    requires classes { AreCommonOn extent axis (test_of one.now) (test_of other.now) classes.now }
    ensures { IfOk result (λ places. IsEnough is_asked (λ x. (test_of one.now).at axis x && (test_of other.now).at axis x) extent places.items) }
{
    if is_asked {
        let places = common_places(alloc, classes, one, other, axis, extent)?;
        return Ok(places);
    }
    let places = one_place(alloc, classes, one, other, axis, extent)?;
    Ok(places)
}

/// Whether a subscript moves along an axis.
fn moves_on(courses: &[Course], axis: usize) -> bool
    ensures { result ≡ moves_on (courses_of courses.now) axis }
{
    for course in courses {
        if moves_along(course, axis) {
            return true;
        }
    }
    false
}

/// Whether one subscript does.
fn moves_along(course: &Course, axis: usize) -> bool
    ensures { result ≡ moves_along axis (course_of course.now) }
{
    match course {
        Course::Fixed(_) => false,
        Course::Moving { axis: along, .. } => *along == axis,
    }
}

//! The elements that a reference names at tuples.

ghost use Rattle.std.specs.Prelude.{◌≡◌, ℕ, ◌<◌, All, IfOk, Some, length, map, option_map, slice_index_or};
ghost use Rattle.hpf_base.specs.ElementOrder.{product};
ghost use Rattle.expression_rules.specs.Dims.{AreDims, IsDim};
ghost use Rattle.array_meaning.specs.State.{element_place, offset};
ghost use Rattle.term_values.specs.Places.{in_64_bits};
ghost use Rattle.storage.specs.Spots.{spot_of};
ghost use Rattle.axis_products.specs.Products.{places_at};
ghost use Rattle.courses.specs.Courses.{course_at, courses_at};
ghost use Rattle.courses.specs.References.{named_spot};
ghost use Rattle.course_forms.specs.Views.{course_of, courses_of, named_of};
ghost use Rattle.message_elements.specs.Elements.{OneMore};
ghost use Rattle.pair_messages.specs.Sent.{AreAdded, is_named_among, is_named_by};

use align_map::linear;
use course_forms::{Course, Reference};
use expression_rules::{Dim, extent};
use hpf_base::OutOfMemory;
use message_elements::note;
use storage::Spot;

/// Adds what the reference names at the tuples.
pub(crate) fn add_named(
    spots: &mut Vec<Spot>,
    extents: &[u64],
    reference: &Reference,
    tuples: &[u32],
) -> Result<(), OutOfMemory>
    requires { All (λ t. t < product extents.now) tuples.now }
    ensures { IfOk result (λ _. AreAdded (is_named_among extents.now (named_of reference.now) tuples.now) (map spot_of spots.old.items) (map spot_of spots.new.items)) }
{
    for tuple in tuples {
        add_spot(spots, extents, reference, *tuple)?;
    }
    Ok(())
}

/// Adds what it names at a tuple, if that is in bounds.
fn add_spot(
    spots: &mut Vec<Spot>,
    extents: &[u64],
    reference: &Reference,
    tuple: u32,
) -> Result<(), OutOfMemory>
    requires { tuple < product extents.now }
    ensures { IfOk result (λ _. AreAdded (is_named_by extents.now (named_of reference.now) tuple) (map spot_of spots.old.items) (map spot_of spots.new.items)) }
{
    match spot_at(extents, reference, tuple) {
        Some(spot) => note(spots, spot),
        None => Ok(()),
    }
}

/// The element that it names at a tuple; None where that is out of bounds.
pub(crate) fn spot_at(extents: &[u64], reference: &Reference, tuple: u32) -> Option<Spot>
    requires { tuple < product extents.now }
    ensures { option_map spot_of result ≡ named_spot extents.now tuple (named_of reference.now) }
{
    let at = place_at(
        reference.dims.as_slice(),
        reference.courses.as_slice(),
        extents,
        tuple,
    )?;
    Some(Spot {
        row: reference.row,
        at,
    })
}

/// The place of the element with the subscripts of a tuple; None where one is out of bounds.
#[tactic(auto, using(term_values::proofs::ElementPlaces::place_is))]
fn place_at(dims: &[Dim], courses: &[Course], extents: &[u64], tuple: u32) -> Option<usize>
    requires dims { AreDims dims.now }
    requires tuple { tuple < product extents.now }
    ensures { result ≡ element_place dims.now (courses_at (places_at extents.now tuple) (courses_of courses.now)) }
{
    let place = wrapped_place(dims, courses, extents, tuple)?;
    Some(place as usize)
}

/// That place as 64 bits have it. Before an empty dimension a product of extents may wrap, and then no place is.
fn wrapped_place(dims: &[Dim], courses: &[Course], extents: &[u64], tuple: u32) -> Option<u64>
    requires dims { AreDims dims.now }
    requires tuple { tuple < product extents.now }
    ensures { result ≡ in_64_bits (element_place dims.now (courses_at (places_at extents.now tuple) (courses_of courses.now))) }
{
    if dims.len() != courses.len() {
        return None;
    }
    let mut place = 0;
    for k in (0..dims.len()).rev() {
        let subscript = course_at(&courses[k], extents, tuple);
        let above = offset(&dims[k], subscript)?;
        place = above.wrapping_add(extent(dims[k]).wrapping_mul(place));
    }
    Some(place)
}

/// How far a subscript is above the lower bound; None where it is out of bounds.
fn offset(dim: &Dim, subscript: i128) -> Option<u64>
    requires { IsDim dim.now }
    ensures { result ≡ offset dim.now subscript }
{
    if dim.lower as i128 <= subscript && subscript <= dim.upper as i128 {
        Some((subscript - dim.lower as i128) as u64)
    } else {
        None
    }
}

/// The subscript of a tuple by its course.
fn course_at(course: &Course, extents: &[u64], tuple: u32) -> i128
    requires { tuple < product extents.now }
    ensures { result ≡ course_at (places_at extents.now tuple) (course_of course.now) }
{
    match course {
        Course::Fixed(i) => *i as i128,
        Course::Moving { axis, first, step } => {
            linear(*step, place_on(extents, tuple, *axis) as i64, *first)
        }
    }
}

/// The place of a tuple on an axis; 0 where there is no such axis.
fn place_on(extents: &[u64], tuple: u32, axis: usize) -> u32
    requires { tuple < product extents.now }
    ensures { result ≡ slice_index_or (places_at extents.now tuple) axis 0 }
{
    if axis >= extents.len() {
        return 0;
    }
    let mut rest = tuple as u64;
    for faster in 0..axis {
        rest /= extents[faster];
    }
    (rest % extents[axis]) as u32
}

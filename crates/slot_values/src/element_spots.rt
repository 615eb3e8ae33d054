//! The elements that subscripts over slots name.

ghost use Rattle.std.specs.Prelude.{◌≡◌, length, IfOk, IfErr, Ok, [], ◌∷◌};
ghost use Rattle.array_meaning.specs.State.{element_place};
ghost use Rattle.node_code.specs.Flat.{AndFlat, NoFlat};
ghost use Rattle.code_meaning.specs.Parallel.{shape_of};
ghost use Rattle.node_code.specs.Texts.{flat, flats_of};
ghost use Rattle.storage.specs.Spots.{spot_of};
ghost use Rattle.slot_values.specs.Elements.{element_of, element_spot};
ghost use Rattle.term_values.specs.Stops.{IsStop};

use crate::expressions::{flat_value, flat_values, two_values};
use array_meaning::FaultKind;
use expression_rules::Dims;
use node_code::Flat;
use storage::Spot;
use term_values::{Stop, fault, place, place_of_one, place_of_two};

/// The element of an array, by the place of its name, that these subscripts name, which are evaluated from left to right; the first fault
/// of a subscript, or one where a subscript is out of bounds. `shapes` has the dimensions of the declared arrays, by the places of their
/// names. It takes no memory for one or two subscripts without calls that take some.
pub fn element_spot(
    shapes: &[Dims],
    array: usize,
    subscripts: &Vec<Flat>,
    slots: &[i64],
) -> Result<Spot, Stop>
    ensures value { IfOk result (λ s. element_spot shapes.now array (flats_of subscripts.now.items) slots.now ≡ Ok (spot_of s)) }
    ensures stopped { IfErr result (IsStop (element_spot shapes.now array (flats_of subscripts.now.items) slots.now)) }
{
    if subscripts.len() == 1 {
        return spot_by_one(shapes, array, &subscripts[0], slots);
    }
    if subscripts.len() == 2 {
        return spot_by_two(shapes, array, subscripts, slots);
    }
    let subscripts = flat_values(slots, &[], subscripts)?;
    spot_at(array, element_place(shapes, array, subscripts.as_slice()))
}

/// The element of an array that one subscript names, which is evaluated; its fault, or one where it is out of bounds.
fn spot_by_one(shapes: &[Dims], array: usize, subscript: &Flat, slots: &[i64]) -> Result<Spot, Stop>
    ensures value { IfOk result (λ s. element_spot shapes.now array (AndFlat (flat subscript.now) NoFlat) slots.now ≡ Ok (spot_of s)) }
    ensures stopped { IfErr result (IsStop (element_spot shapes.now array (AndFlat (flat subscript.now) NoFlat) slots.now)) }
{
    let i = flat_value(slots, &[], subscript)?;
    let spot = spot_at(array, element_place_of_one(shapes, array, &i))?;
    Ok(spot)
}

/// The element of an array that two subscripts name, which are evaluated from left to right; the first fault of a subscript, or one
/// where a subscript is out of bounds.
fn spot_by_two(
    shapes: &[Dims],
    array: usize,
    subscripts: &Vec<Flat>,
    slots: &[i64],
) -> Result<Spot, Stop>
    requires two { length subscripts.now.items ≡ 2 }
    ensures value { IfOk result (λ s. element_spot shapes.now array (flats_of subscripts.now.items) slots.now ≡ Ok (spot_of s)) }
    ensures stopped { IfErr result (IsStop (element_spot shapes.now array (flats_of subscripts.now.items) slots.now)) }
{
    let pair = two_values(slots, &[], subscripts)?;
    spot_at(
        array,
        element_place_of_two(shapes, array, &pair.first, &pair.second),
    )
}

/// An element by its place; a fault where there is none.
fn spot_at(array: usize, place: Option<usize>) -> Result<Spot, Stop>
    ensures value { IfOk result (λ s. element_of array place ≡ Ok (spot_of s)) }
    ensures stopped { IfErr result (IsStop (element_of array place)) }
{
    match place {
        Some(at) => Ok(Spot { row: array, at }),
        None => Err(fault(FaultKind::Bounds)),
    }
}

/// The place of an element in array element order, from 0 (Fortran 95, 6.2.2.2); None where a subscript is out of bounds. It takes no
/// memory.
pub fn element_place(shapes: &[Dims], array: usize, subscripts: &[i64]) -> Option<usize>
    ensures { result ≡ element_place (shape_of shapes.now array) subscripts.now }
{
    if array < shapes.len() {
        place(shapes[array].as_slice(), subscripts)
    } else if subscripts.is_empty() {
        Some(0)
    } else {
        None
    }
}

/// The place of the element with one subscript, from 0; None where the subscript is out of bounds. It takes no memory.
pub fn element_place_of_one(shapes: &[Dims], array: usize, subscript: &i64) -> Option<usize>
    ensures { result ≡ element_place (shape_of shapes.now array) (subscript.now ∷ []) }
{
    if array < shapes.len() {
        place_of_one(shapes[array].as_slice(), subscript)
    } else {
        None
    }
}

/// The place of the element with two subscripts in array element order, from 0; None where a subscript is out of bounds. It takes no
/// memory.
pub fn element_place_of_two(
    shapes: &[Dims],
    array: usize,
    first: &i64,
    second: &i64,
) -> Option<usize>
    ensures { result ≡ element_place (shape_of shapes.now array) (first.now ∷ second.now ∷ []) }
{
    if array < shapes.len() {
        place_of_two(shapes[array].as_slice(), first, second)
    } else {
        None
    }
}

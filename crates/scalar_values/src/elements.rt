//! Places of elements, and the elements at places.

ghost use Rattle.std.specs.Prelude.{◌≡◌, ◌∷◌, [], pos, slice_index_or};
ghost use Rattle.array_meaning.specs.State.{array, element_place, if_in_bounds, place_in};
ghost use Rattle.term_values.specs.States.{state_of};
ghost use Rattle.scalar_values.specs.Known.{IsKnownPlace};

use crate::known_results::{KnownPlace, found_place, unknown_place};
use term_values::{Array, State};

/// The place of the element with one subscript.
#[inline(always)]
pub(crate) fn place_of_one(s: &State, a: usize, i: &i64) -> KnownPlace
    ensures { IsKnownPlace (place_in (state_of s.now) a (i.now ∷ [])) result }
{
    if a < s.arrays.len() {
        place_in_line(&s.arrays[a], i)
    } else {
        unknown_place()
    }
}

/// The place in an array of one dimension.
#[inline(always)]
fn place_in_line(x: &Array, i: &i64) -> KnownPlace
    ensures { IsKnownPlace (if_in_bounds (element_place x.now.dims (i.now ∷ []))) result }
{
    place_if(term_values::place_of_one(x.dims().as_slice(), i))
}

/// The place of the element with two subscripts.
#[inline(always)]
pub(crate) fn place_of_two(s: &State, a: usize, i: &i64, j: &i64) -> KnownPlace
    ensures { IsKnownPlace (place_in (state_of s.now) a (i.now ∷ j.now ∷ [])) result }
{
    if a < s.arrays.len() {
        place_in_plane(&s.arrays[a], i, j)
    } else {
        unknown_place()
    }
}

/// The place in an array of two dimensions.
#[inline(always)]
fn place_in_plane(x: &Array, i: &i64, j: &i64) -> KnownPlace
    ensures { IsKnownPlace (if_in_bounds (element_place x.now.dims (i.now ∷ j.now ∷ []))) result }
{
    place_if(term_values::place_of_two(x.dims().as_slice(), i, j))
}

/// A place where there is one, which is known; none is out of bounds.
#[inline(always)]
fn place_if(place: Option<usize>) -> KnownPlace
    ensures { IsKnownPlace (if_in_bounds place) result }
{
    match place {
        Some(k) => found_place(k),
        None => unknown_place(),
    }
}

/// The element of an array at a place; 0 where there is none.
#[inline(always)]
pub(crate) fn element_at(s: &State, a: usize, k: usize) -> i64
    ensures { result ≡ slice_index_or (array (state_of s.now) a).elements k (pos 0) }
{
    if a < s.arrays.len() {
        number_at(s.arrays[a].elements(), k)
    } else {
        0
    }
}

/// The number at a place, and 0 where there is none.
#[inline(always)]
fn number_at(numbers: &[i64], k: usize) -> i64
    ensures { result ≡ slice_index_or numbers.now k (pos 0) }
{
    if k < numbers.len() { numbers[k] } else { 0 }
}

//! The state of a run.

ghost use Rattle.std.specs.Prelude.{◌≡◌, slice_index_or, slice_set, pos, [], ◌∷◌};
ghost use Rattle.array_meaning.specs.State.{array, element_place, scalar, set_scalar, store};
ghost use Rattle.term_values.specs.Runs.{store_run, with_run};
ghost use Rattle.term_values.specs.States.{state_of};

use crate::places::{place, place_of_one, place_of_two};
use expression_rules::Dims;
use std::marker::Model;

/// An array, with its elements in array element order (Fortran 95, 6.2.2.2). Contracts see its dimensions and its elements.
#[derive(Drop)]
pub struct Array {
    dims: Dims,
    elements: Vec<i64>,
}

impl Model for Array {
    ghost use Rattle.array_meaning.specs.State.{Array};

    ghost Value = { Array };

    ghost view = { λ a. record { dims = a.dims; elements = a.elements.items } };
}

impl Array {
    /// An array with these dimensions and elements. It takes no memory.
    pub fn new(dims: Dims, elements: Vec<i64>) -> Array
        ensures { result ≡ record { dims = dims; elements = elements.items } }
    {
        Array { dims, elements }
    }

    /// Its dimensions. It takes no memory.
    pub fn dims(&self) -> &Dims
        ensures { result.now ≡ self.now.dims }
    {
        &self.dims
    }

    /// Its elements in order. It takes no memory.
    pub fn elements(&self) -> &[i64]
        ensures { result.now ≡ self.now.elements }
    {
        &self.elements
    }
}

/// The scalars and the arrays, each at the place of its name among the declared names, and what was printed.
#[derive(Drop)]
pub struct State {
    pub scalars: Vec<i64>,
    pub arrays: Vec<Array>,
    pub printed: Vec<u8>,
}

impl State {
    /// Gives a scalar a value; nothing where no name has this place. It takes no memory.
    pub fn set_scalar(&mut self, scalar: usize, value: i64)
        ensures { state_of self.new ≡ set_scalar (state_of self.old) scalar value }
    {
        if scalar < self.scalars.len() {
            self.scalars[scalar] = value;
        }
    }

    /// The value of a scalar; 0 where no name has this place. It takes no memory.
    pub fn scalar(&self, k: usize) -> i64
        ensures { result ≡ scalar (state_of self.now) k }
    {
        number_at(&self.scalars, k)
    }

    /// The place of an element of an array, from 0; None where a subscript is out of bounds. It takes no memory.
    pub(crate) fn place(&self, a: usize, subscripts: &[i64]) -> Option<usize>
        ensures { result ≡ element_place (array (state_of self.now) a).dims subscripts.now }
    {
        if a < self.arrays.len() {
            self.arrays[a].place(subscripts)
        } else if subscripts.is_empty() {
            Some(0)
        } else {
            None
        }
    }

    /// The place of the element with one subscript, from 0; None where the subscript is out of bounds. It takes no memory.
    pub(crate) fn place_of_one(&self, a: usize, subscript: &i64) -> Option<usize>
        ensures { result ≡ element_place (array (state_of self.now) a).dims (subscript.now ∷ []) }
    {
        if a < self.arrays.len() {
            self.arrays[a].place_of_one(subscript)
        } else {
            None
        }
    }

    /// The place of the element with two subscripts, from 0; None where a subscript is out of bounds. It takes no memory.
    pub(crate) fn place_of_two(&self, a: usize, first: &i64, second: &i64) -> Option<usize>
        ensures { result ≡ element_place (array (state_of self.now) a).dims (first.now ∷ second.now ∷ []) }
    {
        if a < self.arrays.len() {
            self.arrays[a].place_of_two(first, second)
        } else {
            None
        }
    }

    /// The element of an array at a place; 0 where there is none.
    pub(crate) fn element_at(&self, a: usize, place: usize) -> i64
        ensures { result ≡ slice_index_or (array (state_of self.now) a).elements place (pos 0) }
    {
        if a < self.arrays.len() {
            self.arrays[a].at(place)
        } else {
            0
        }
    }

    /// Stores at a place of an array, counted from 0 in array element order; nothing where there is no such place. It takes no memory.
    pub fn store(&mut self, array: usize, place: usize, value: i64)
        ensures { state_of self.new ≡ store (state_of self.old) array place value }
    {
        if array < self.arrays.len() {
            self.arrays[array].set(place, value);
        }
    }

    /// Stores values at places of an array that follow one another, the first at this one; nothing where there is no such place. It takes no memory.
    #[tactic(auto, using(crate::proofs::Runs::run_past))]
    pub fn store_run(&mut self, array: usize, first: usize, values: &[i64])
        ensures { state_of self.new ≡ store_run (state_of self.old) array first values.now }
    {
        if array < self.arrays.len() {
            self.arrays[array].set_run(first, values);
        }
    }
}

impl Array {
    /// The place of an element; None where a subscript is out of bounds.
    fn place(&self, subscripts: &[i64]) -> Option<usize>
        ensures { result ≡ element_place self.now.dims subscripts.now }
    {
        place(self.dims.as_slice(), subscripts)
    }

    /// The place of the element with one subscript; None where the subscript is out of bounds.
    fn place_of_one(&self, subscript: &i64) -> Option<usize>
        ensures { result ≡ element_place self.now.dims (subscript.now ∷ []) }
    {
        place_of_one(self.dims.as_slice(), subscript)
    }

    /// The place of the element with two subscripts; None where a subscript is out of bounds.
    fn place_of_two(&self, first: &i64, second: &i64) -> Option<usize>
        ensures { result ≡ element_place self.now.dims (first.now ∷ second.now ∷ []) }
    {
        place_of_two(self.dims.as_slice(), first, second)
    }

    /// The element at a place, and 0 where there is none.
    fn at(&self, place: usize) -> i64
        ensures { result ≡ slice_index_or self.now.elements place (pos 0) }
    {
        number_at(&self.elements, place)
    }

    /// Stores at a place, and nowhere where there is none.
    fn set(&mut self, place: usize, value: i64)
        ensures { self.new ≡ record (self.old) { elements = slice_set self.old.elements place value } }
    {
        if place < self.elements.len() {
            self.elements[place] = value;
        }
    }

    /// Stores values at places that follow one another, the first at this one, and nothing where there is no such place.
    fn set_run(&mut self, first: usize, values: &[i64])
        ensures { self.new ≡ record (self.old) { elements = with_run self.old.elements first values.now } }
    {
        put_run(self.elements.as_mut_slice(), first, values);
    }
}

/// Puts values into a list in order, the first at a place and each other at the next, where there are such places.
fn put_run(numbers: &mut [i64], first: usize, values: &[i64])
    ensures { numbers.new ≡ with_run numbers.old first values.now }
{
    if first < numbers.len() {
        let count = values.len().min(numbers.len() - first);
        numbers[first..first + count].copy_from_slice(&values[..count]);
    }
}

/// The number at a place, and 0 where there is none.
pub(crate) fn number_at(numbers: &[i64], place: usize) -> i64
    ensures { result ≡ slice_index_or numbers.now place (pos 0) }
{
    if place < numbers.len() {
        numbers[place]
    } else {
        0
    }
}

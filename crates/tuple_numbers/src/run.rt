//! Tuples one after the other.

ghost use Rattle.std.specs.Prelude.{◌≡◌, ◌+◌, ◌<◌, ◌≤◌, ◌^◌, length, map, slice_index, option_map};
ghost use Rattle.tuple_numbers.specs.Runs.{reach, run_of};

use std::marker::Model;

/// The numbers of some tuples, each by its index. Contracts see the list of them.
#[derive(Drop)]
pub struct Run<'a> {
    first: usize,
    /// How many there are.
    count: usize,
    /// What each has beyond the first number; None where that is 0, 1, 2 and so on.
    places: Option<&'a [u32]>,
}

impl<'a> Model for Run<'a> {
    ghost use Rattle.std.specs.Prelude.{◌≡◌, ℕ, ◌+◌, ◌≤◌, ◌^◌, List, length, option_map};
    ghost use Rattle.tuple_numbers.specs.Runs.{reach, run_of};

    ghost Value = { List ℕ };

    ghost view = { λ r. run_of (option_map (λ s. s.now) r.places) r.first r.count };

    ghost invariant = { λ r. (r.count ≡ length (run_of (option_map (λ s. s.now) r.places) r.first r.count))
        × (r.first + reach (option_map (λ s. s.now) r.places) 0 r.count ≤ 2 ^ 64) };
}

impl<'a> Run<'a> {
    /// So many numbers from this one on.
    pub(crate) fn from(first: usize, count: usize) -> Run<'a>
        requires { first + count ≤ 2 ^ 64 }
        ensures { result ≡ run_of None first count }
    {
        Run {
            first,
            count,
            places: None,
        }
    }

    /// A number with each of these places added to it.
    pub(crate) fn with(first: usize, places: &'a [u32]) -> Run<'a>
        requires { first + 2 ^ 32 ≤ 2 ^ 64 }
        ensures { result ≡ map (λ p. first + p) places.now }
    {
        Run {
            first,
            count: places.len(),
            places: Some(places),
        }
    }

    /// How many there are.
    pub fn len(&self) -> usize
        ensures { result ≡ length self.now }
    {
        self.count
    }

    /// The number at an index.
    pub fn at(&self, index: usize) -> usize
        requires { index < length self.now }
        ensures { result ≡ slice_index self.now index }
    {
        match self.places {
            None => self.first + index,
            Some(places) => self.first + place_at(places, index) as usize,
        }
    }
}

/// The place at an index.
fn place_at(places: &[u32], index: usize) -> u32
    requires { index < length places.now }
    ensures { result ≡ slice_index places.now index }
{
    places[index]
}

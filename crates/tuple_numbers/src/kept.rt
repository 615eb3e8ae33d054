//! Numbers of tuples, kept in a short form.

ghost use Rattle.std.specs.Prelude.{◌≡◌, ℕ, ◌+◌, ◌*◌, ◌<◌, ◌≤◌, ◌^◌, ◌∷◌, [], All, length, map, take, drop, option_map};
ghost use Rattle.std.specs.List.{range_with_len};
ghost use Rattle.tuple_numbers.specs.Runs.{places_of, reach};
ghost use Rattle.tuple_numbers.specs.Sums.{sums};

use crate::run::Run;
use crate::sums::{count_of, sum_at};
use std::alloc::Global;
use std::marker::Model;

/// Numbers of tuples, in order. Contracts see the list of them; what is kept is shorter where they are all numbers below a count, or a product of places of axes.
#[derive(Drop)]
pub struct Tuples {
    /// The numbers of the first list; None for those from `start` on.
    near: Option<Vec<u32>>,
    start: usize,
    /// How many they are.
    width: usize,
    /// Further lists: a tuple's number is the sum of one number of each list, the first list fastest.
    far: Vec<Vec<u32>>,
    /// How many tuples there are.
    count: usize,
}

impl Model for Tuples {
    ghost use Rattle.std.specs.Prelude.{◌≡◌, ℕ, ◌+◌, ◌≤◌, ◌^◌, ◌∷◌, All, List, length, map, option_map};
    ghost use Rattle.tuple_numbers.specs.Runs.{places_of, reach};
    ghost use Rattle.tuple_numbers.specs.Sums.{sums};

    ghost Value = { List ℕ };

    ghost view = { λ t. sums (places_of (option_map (λ v. v.items) t.near) t.start t.width ∷ map (λ v. v.items) t.far.items) };

    ghost invariant = { λ t. (t.width ≡ length (places_of (option_map (λ v. v.items) t.near) t.start t.width))
        × (t.count ≡ length (sums (places_of (option_map (λ v. v.items) t.near) t.start t.width ∷ map (λ v. v.items) t.far.items)))
        × All (λ n. n + reach (option_map (λ v. v.items) t.near) t.start t.width ≤ 2 ^ 64) (sums (map (λ v. v.items) t.far.items)) };
}

impl Tuples {
    /// All numbers below a count. It takes no memory.
    pub fn below(alloc: Global, count: usize) -> Tuples
        ensures { result ≡ range_with_len 0 count }
    {
        Tuples {
            near: None,
            start: 0,
            width: count,
            far: Vec::new(alloc),
            count,
        }
    }

    /// The numbers of a list, in its order. It takes no more memory.
    pub fn listed(alloc: Global, numbers: Vec<u32>) -> Tuples
        ensures { result ≡ numbers.items }
    {
        let count = numbers.len();
        Tuples {
            near: Some(numbers),
            start: 0,
            width: count,
            far: Vec::new(alloc),
            count,
        }
    }

    /// The sums of one number of each list, of which the first has so many numbers: these, or those from `start` on.
    pub(crate) fn summed(
        near: Option<Vec<u32>>,
        start: usize,
        width: usize,
        far: Vec<Vec<u32>>,
    ) -> Tuples
        requires width { width ≡ length (places_of (option_map (λ v. v.items) near) start width) }
        requires reach { reach (option_map (λ v. v.items) near) start width ≤ 2 ^ 63 }
        requires some { All (λ ps. 0 < length ps) (map (λ v. v.items) far.items) }
        requires few { length (sums (places_of (option_map (λ v. v.items) near) start width ∷ map (λ v. v.items) far.items)) < 2 ^ 64 }
        requires small { All (λ n. n ≤ 2 ^ 32) (sums (map (λ v. v.items) far.items)) }
        ensures { result ≡ sums (places_of (option_map (λ v. v.items) near) start width ∷ map (λ v. v.items) far.items) }
    {
        let count = count_of(width, &far);
        Tuples {
            near,
            start,
            width,
            far,
            count,
        }
    }

    /// How many there are.
    pub fn len(&self) -> usize
        ensures { result ≡ length self.now }
    {
        self.count
    }

    /// How many numbers are kept, which is how much memory it takes; the largest number where they are more. Contracts don't see it.
    pub fn size(&self) -> usize {
        let mut size = match &self.near {
            None => 0,
            Some(near) => near.len(),
        };
        for list in &self.far {
            size = size.saturating_add(list.len());
        }
        size
    }

    /// Some of the tuples, one at least: the one at a position, and those that follow it as long as they lie in one row of the first axis.
    pub fn run(&self, from: usize) -> Run<'_>
        requires { from < length self.now }
        ensures some { 0 < length result }
        ensures tuples { result ≡ take (length result) (drop from self.now) }
    {
        let first = sum_at(&self.far, from / self.width);
        let skip = from % self.width;
        match &self.near {
            None => Run::from(first + self.start + skip, self.width - skip),
            Some(near) => Run::with(first, rest_of(near, skip)),
        }
    }
}

/// The places from an index on.
fn rest_of(places: &[u32], from: usize) -> &[u32]
    requires { from ≤ length places.now }
    ensures { result.now ≡ drop from places.now }
{
    &places[from..]
}

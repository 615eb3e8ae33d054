//! Lists of places.

ghost use Rattle.std.specs.Prelude.{◌≡◌, ◌++◌, ◌∷◌, [], ◌≤◌, ◌<◌, ◌^◌, OnOk, length, slice_index_or};
ghost use Rattle.periodic_runs.specs.Runs.{no_place};

use crate::repeated::Repeated;
use crate::runs::Place;
use hpf_base::OutOfMemory;
use std::alloc::Global;
use std::marker::Model;

/// The places of a dimension, by their numbers from 0. Contracts see the list of them.
#[derive(Drop)]
pub struct Places {
    /// Whether each place is kept by itself.
    is_listed: bool,
    listed: Vec<Place>,
    repeated: Repeated,
}

impl Model for Places {
    ghost use Rattle.std.specs.Prelude.{◌≡◌, ◌++◌, [], List, true};
    ghost use Rattle.periodic_runs.specs.declared.runs.Place.{Place};

    ghost Value = { List Place };

    ghost view = { λ p. p.listed.items ++ p.repeated };

    ghost invariant = { λ p. p.is_listed ≡ true → p.repeated ≡ [] };
}

impl Places {
    /// No places, of which each will be kept by itself. It takes no memory.
    pub fn listed(alloc: Global) -> Places
        ensures { result ≡ [] }
    {
        Places {
            is_listed: true,
            listed: Vec::new(alloc),
            repeated: Repeated::new(alloc, 1),
        }
    }

    /// No places, which will be kept as the runs of a period. The period is a hint: after so many places they are expected to repeat, each
    /// with a rank that is greater by the number of places that a period has with its part. It takes no memory.
    pub fn repeated(alloc: Global, period: u32) -> Places
        requires { 1 ≤ period }
        ensures { result ≡ [] }
    {
        Places {
            is_listed: false,
            listed: Vec::new(alloc),
            repeated: Repeated::new(alloc, period),
        }
    }

    /// A place by its number. It takes no memory.
    pub fn at(&self, number: usize) -> Place
        requires { number < length self.now }
        ensures { result ≡ slice_index_or self.now number no_place }
    {
        if number < self.listed.len() {
            self.listed[number]
        } else {
            self.repeated.at(number - self.listed.len())
        }
    }

    /// One place more, at the end. Of places that are kept as runs it takes memory for the first of a run in the first period, and for a
    /// new part; and for all their runs where a place isn't as the period lets expect.
    pub fn push(&mut self, alloc: Global, place: Place) -> Result<(), OutOfMemory>
        requires { length self.old < 2 ^ 31 }
        ensures { OnOk result (self.new ≡ self.old ++ place ∷ []) }
    {
        if self.is_listed {
            self.listed.push(place)?;
        } else {
            self.repeated.push(alloc, place)?;
        }
        Ok(())
    }
}

//! Lists of places by runs.

ghost use Rattle.std.specs.Prelude.{◌≡◌, ◌++◌, ◌∷◌, [], ◌≤◌, ◌<◌, ◌^◌, IsTrue, OnErr, OnOk, length, slice_index_or};
ghost use Rattle.std.specs.List.Sorted.{IsNonDecreasingBy};
ghost use Rattle.periodic_runs.specs.Runs.{first_of, no_place, no_run, place_in, run_at};

use hpf_base::OutOfMemory;
use std::alloc::Global;
use std::marker::Model;

/// A place on a dimension of an array.
#[derive(Clone, Copy)]
pub struct Place {
    /// What it adds to the number of the least owner.
    pub part: u32,
    /// How many lesser places have its coordinate.
    pub rank: u32,
}

/// Whether two places are the same.
pub(crate) fn is_same(one: Place, other: Place) -> bool
    ensures { IsTrue result → one ≡ other }
{
    (one.part == other.part) & (one.rank == other.rank)
}

/// Places in a row that add the same, each with the next rank: the number of the first, what it adds, and its rank.
#[derive(Clone, Copy)]
struct Run {
    first: u32,
    part: u32,
    rank: u32,
}

/// Places as runs: a run ends where the next one begins.
#[derive(Drop)]
pub(crate) struct Runs {
    runs: Vec<Run>,
    len: u32,
}

impl Model for Runs {
    ghost use Rattle.std.specs.Prelude.{List, map};
    ghost use Rattle.std.specs.List.{range_with_len};
    ghost use Rattle.periodic_runs.specs.declared.runs.Place.{Place};
    ghost use Rattle.periodic_runs.specs.Runs.{AreRuns, place_in};

    ghost Value = { List Place };

    ghost view = { λ r. map (place_in r.runs.items) (range_with_len 0 r.len) };

    ghost invariant = { λ r. AreRuns r.runs.items r.len };
}

impl Runs {
    /// No places.
    pub(crate) fn new(alloc: Global) -> Runs
        ensures { result ≡ [] }
    {
        Runs {
            runs: Vec::new(alloc),
            len: 0,
        }
    }

    /// A place by its number; the place of no part and rank past the last one.
    pub(crate) fn at(&self, number: u32) -> Place
        ensures { result ≡ slice_index_or self.now number no_place }
    {
        if number < self.len {
            place_in(&self.runs, number)
        } else {
            Place { part: 0, rank: 0 }
        }
    }

    /// One place more. It takes no memory where the last run goes on.
    pub(crate) fn push(&mut self, place: Place) -> Result<(), OutOfMemory>
        requires { length self.old < 2 ^ 31 }
        ensures more { OnOk result (self.new ≡ self.old ++ place ∷ []) }
        ensures kept { OnErr result (self.new ≡ self.old) }
    {
        if is_same(place_in(&self.runs, self.len), place) {
            self.len += 1;
            return Ok(());
        }
        self.runs.push(Run {
            first: self.len,
            part: place.part,
            rank: place.rank,
        })?;
        self.len += 1;
        Ok(())
    }
}

/// The place of a number, as the run in which it lies goes on.
fn place_in(runs: &[Run], number: u32) -> Place
    requires { IsNonDecreasingBy first_of runs.now }
    ensures { result ≡ place_in runs.now number }
{
    let run = run_at(runs, number);
    Place {
        part: run.part,
        rank: run.rank.saturating_add(number.saturating_sub(run.first)),
    }
}

/// The last run that begins at a number or before it.
fn run_at(runs: &[Run], number: u32) -> Run
    requires { IsNonDecreasingBy first_of runs.now }
    ensures { result ≡ run_at no_run runs.now number }
{
    let count = begun_at(runs, number);
    if count == 0 {
        Run {
            first: 0,
            part: 0,
            rank: 0,
        }
    } else {
        runs[count - 1]
    }
}

/// How many runs begin at a number or before it: all of them, or else by halving.
fn begun_at(runs: &[Run], number: u32) -> usize
    requires { IsNonDecreasingBy first_of runs.now }
    ensures within { result ≤ length runs.now }
    ensures last { run_at no_run runs.now number ≡ slice_index_or (no_run ∷ runs.now) result no_run }
{
    let count = runs.len();
    if count > 0 && runs[count - 1].first <= number {
        return count;
    }
    runs.partition_point(|run| run.first <= number)
}

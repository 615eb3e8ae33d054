//! How many subscripts of a dimension each coordinate has, the first and the last.

ghost use Rattle.std.specs.Prelude.{◌≡◌, ℕ, ◌<◌, ◌≤◌, ◌^◌, ℤ, pos, ◌+ℤ◌, unsigned_abs, List, [], ◌∷◌, ◌++◌, ◌==◌, All, map, replicate, IfOk};
ghost use Rattle.std.specs.List.{list_any};
ghost use Rattle.hpf_base.specs.ElementOrder.{product};
ghost use Rattle.local_address.specs.Runs.{HasLine, InAxis, IsTable, run_of};

use crate::axes::{Axis, coordinate_on, procs_on};
use hpf_base::OutOfMemory;
use std::alloc::Global;

/// How many subscripts, the first and the last; zeros where there are none.
#[derive(Clone, Copy)]
pub struct Run {
    pub count: u32,
    pub first: i64,
    pub last: i64,
}

/// For each coordinate on an axis, from 0, which subscripts of a dimension have it. The dimension begins at `lower`.
pub(crate) fn runs_on(
    alloc: Global,
    axis: &Option<Axis>,
    lower: i64,
    extent: u64,
) -> Result<Vec<Run>, OutOfMemory>
    requires line { HasLine axis.now }
    requires lower { unsigned_abs lower ≤ 2 ^ 41 }
    requires extent { extent ≤ 2 ^ 20 }
    requires inside { (place : ℕ) → place < extent → InAxis axis.now (lower +ℤ pos place) }
    ensures { IfOk result (λ runs. IsTable axis.now lower extent runs.items) }
{
    let mut runs = empty_runs(alloc, procs_on(axis))?;
    for place in 0..extent {
        let i = subscript(lower, place);
        let coordinate = coordinate_on(axis, i) as usize;
        runs[coordinate] = more(runs[coordinate], i);
    }
    Ok(runs)
}

fn empty_runs(alloc: Global, count: u32) -> Result<Vec<Run>, OutOfMemory>
    ensures { IfOk result (λ runs. runs.items ≡ replicate count (run_of [])) }
{
    let none = Run {
        count: 0,
        first: 0,
        last: 0,
    };
    let runs = vec![in alloc; none; count as usize]?;
    Ok(runs)
}

/// The subscript at a place, from 0, of a dimension.
fn subscript(lower: i64, place: u64) -> i64
    requires lower { unsigned_abs lower ≤ 2 ^ 41 }
    requires place { place ≤ 2 ^ 20 }
    ensures { result ≡ lower +ℤ pos place }
{
    lower + place as i64
}

/// One subscript more, after the others.
fn more(run: Run, i: i64) -> Run
    requires { run.count ≤ 2 ^ 20 }
    ensures { (xs : List ℤ) → run ≡ run_of xs → result ≡ run_of (xs ++ i ∷ []) }
{
    if run.count == 0 {
        Run {
            count: 1,
            first: i,
            last: i,
        }
    } else {
        Run {
            count: run.count + 1,
            first: run.first,
            last: i,
        }
    }
}

/// Whether some run has no subscript.
pub(crate) fn has_empty(runs: &[Run]) -> bool
    ensures { result ≡ list_any (λ run. run.count == 0) runs.now }
{
    runs.iter().any(|run| run.count == 0)
}

/// The first subscript of each run.
pub fn firsts(alloc: Global, runs: &[Run]) -> Result<Vec<i64>, OutOfMemory>
    ensures { IfOk result (λ firsts. firsts.items ≡ map (λ run. run.first) runs.now) }
{
    let firsts = runs.iter().map(|run| run.first).collect(alloc)?;
    Ok(firsts)
}

/// The last subscript of each run.
pub(crate) fn lasts(alloc: Global, runs: &[Run]) -> Result<Vec<i64>, OutOfMemory>
    ensures { IfOk result (λ lasts. lasts.items ≡ map (λ run. run.last) runs.now) }
{
    let lasts = runs.iter().map(|run| run.last).collect(alloc)?;
    Ok(lasts)
}

/// How many tuples have a subscript of each run.
pub(crate) fn tuple_count(runs: &[Run]) -> u32
    requires some { All (λ run. 1 ≤ run.count) runs.now }
    requires few { product (map (λ run. run.count) runs.now) ≤ 2 ^ 20 }
    ensures { result ≡ product (map (λ run. run.count) runs.now) }
{
    let mut count = 1;
    for run in runs {
        count *= run.count;
    }
    count
}

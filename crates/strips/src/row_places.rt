//! The places of a section at all tuples of a space, by the first place of each row.

ghost use Rattle.std.specs.Prelude.{◌≡◌, ◌≤◌, ◌<◌, ◌*◌, ◌∷◌, IfOk, IfSome};
ghost use Rattle.array_meaning.specs.declared.limits.TheConstants.{MAX_TUPLES};
ghost use Rattle.term_values.specs.States.{state_of};
ghost use Rattle.strips.specs.Places.{AreRuns, IsRun};

use crate::rows::row_count;
use crate::tuples::run_at;
use array_meaning::{MAX_TUPLES, Selection};
use std::alloc::AllocError;
use term_values::{State, positions};

/// The places of a section's elements at the first tuple of each row of a space of these extents, where in each row they follow one
/// another and are in bounds; else None, and where a place is 2^32 or more. The first `n` tuples are all rows.
pub fn strip_places(
    s: &State,
    ns: &[u128],
    array: usize,
    ds: &[Selection],
    n: usize,
) -> Result<Option<Vec<u32>>, AllocError>
    requires { n ≤ MAX_TUPLES }
    ensures { IfOk result (λ p. IfSome p (λ firsts. AreRuns (state_of s.now) ns.now array ds.now n firsts.items)) }
{
    if let [first, others @ ..] = ns {
        if *first >= 1 && *first <= MAX_TUPLES as u128 {
            return row_places(s, *first as usize, others, array, ds, n);
        }
    }
    Ok(None)
}

/// The same by the length of a row.
#[tactic(auto, using(crate::proofs::Runs::no_runs, crate::proofs::Runs::runs_more))]
fn row_places(
    s: &State,
    first: usize,
    others: &[u128],
    a: usize,
    ds: &[Selection],
    n: usize,
) -> Result<Option<Vec<u32>>, AllocError>
    requires few { n ≤ MAX_TUPLES }
    requires some { 0 < first }
    requires short { first ≤ MAX_TUPLES }
    ensures { IfOk result (λ p. IfSome p (λ firsts. AreRuns (state_of s.now) (first ∷ others.now) a ds.now n firsts.items)) }
{
    let Some(rows) = row_count(first, n) else {
        return Ok(None);
    };
    let mut firsts = Vec::with_capacity(*s.scalars.allocator(), rows)?;
    for y in 0..rows {
        let rest = positions(*s.scalars.allocator(), others, y)?;
        match first_place(s, a, ds, rest.as_slice(), first)? {
            Some(place) => firsts.push(place)?,
            None => return Ok(None),
        }
    }
    Ok(Some(firsts))
}

/// The first place of a row.
fn first_place(
    s: &State,
    a: usize,
    ds: &[Selection],
    rest: &[i64],
    n: usize,
) -> Result<Option<u32>, AllocError>
    requires { n ≤ MAX_TUPLES }
    ensures { IfOk result (λ p. IfSome p (λ first. IsRun (state_of s.now) a ds.now 0 rest.now n first)) }
{
    match run_at(s, a, ds, 0, rest, n)? {
        Some(first) => Ok(narrow(first)),
        None => Ok(None),
    }
}

/// A number of 32 bits; None where it has more.
fn narrow(n: usize) -> Option<u32>
    ensures { IfSome result (λ m. m ≡ n) }
{
    if n < 1 << 32 { Some(n as u32) } else { None }
}

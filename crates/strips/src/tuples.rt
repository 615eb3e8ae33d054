//! Places of a section's elements at tuples of a row, which follow one another.

ghost use Rattle.std.specs.Prelude.{◌≡◌, ◌<◌, ◌≤◌, ◌+◌, ◌∷◌, suc, pos, true, IfOk, IfSome, Ok};
ghost use Rattle.std.specs.List.{list_all};
ghost use Rattle.array_meaning.specs.declared.limits.TheConstants.{MAX_TUPLES};
ghost use Rattle.term_values.specs.States.{state_of};
ghost use Rattle.strips.specs.Places.{IsRun, tuple_place};
ghost use Rattle.strips.specs.SlowSections.{is_slow};

use array_meaning::Selection;
use smallvec::SmallVec;
use std::alloc::{AllocError, Global};
use term_values::{State, element_place, subscripts_at};

/// The first of the places at so many tuples of a row, from one on, where they follow one another: `rest` are the other positions of the
/// row. None where they don't, where a subscript is out of bounds, and where one may wrap.
pub(crate) fn run_at(
    s: &State,
    a: usize,
    ds: &[Selection],
    u: usize,
    rest: &[i64],
    n: usize,
) -> Result<Option<usize>, AllocError>
    requires { u + n ≤ MAX_TUPLES }
    ensures { IfOk result (λ p. IfSome p (λ first. IsRun (state_of s.now) a ds.now u rest.now n first)) }
{
    if n == 0 || !are_slow(ds) {
        return Ok(None);
    }
    let Some(first) = place_at(s, a, ds, u, rest)? else {
        return Ok(None);
    };
    if n == 1 {
        return one_place(s, a, ds, u, rest, n, first);
    }
    ends(s, a, ds, u, rest, n, first)
}

/// The same of one tuple.
#[tactic(auto, using(crate::proofs::Runs::run_of_one))]
fn one_place(
    s: &State,
    a: usize,
    ds: &[Selection],
    u: usize,
    rest: &[i64],
    n: usize,
    first: usize,
) -> Result<Option<usize>, AllocError>
    requires one { n ≡ 1 }
    requires first { tuple_place (state_of s.now) a ds.now (pos (suc u) ∷ rest.now) ≡ Ok first }
    ensures { IfOk result (λ p. IfSome p (λ first. IsRun (state_of s.now) a ds.now u rest.now n first)) }
{
    Ok(Some(first))
}

/// The same by the second and the last tuple.
#[tactic(auto, using(crate::proofs::Runs::run_by_ends))]
fn ends(
    s: &State,
    a: usize,
    ds: &[Selection],
    u: usize,
    rest: &[i64],
    n: usize,
    first: usize,
) -> Result<Option<usize>, AllocError>
    requires few { u + n ≤ MAX_TUPLES }
    requires two { 1 < n }
    requires slow { list_all is_slow ds.now ≡ true }
    requires first { tuple_place (state_of s.now) a ds.now (pos (suc u) ∷ rest.now) ≡ Ok first }
    ensures { IfOk result (λ p. IfSome p (λ first. IsRun (state_of s.now) a ds.now u rest.now n first)) }
{
    let Some(second) = place_at(s, a, ds, u + 1, rest)? else {
        return Ok(None);
    };
    let Some(_last) = place_at(s, a, ds, u + (n - 1), rest)? else {
        return Ok(None);
    };
    if first >= second || second - first != 1 {
        return Ok(None);
    }
    Ok(Some(first))
}

/// Whether no subscript of a section wraps in a space of any size.
fn are_slow(ds: &[Selection]) -> bool
    ensures { result ≡ list_all is_slow ds.now }
{
    ds.iter().all(|d| is_slow(d))
}

/// The same of one dimension.
fn is_slow(d: &Selection) -> bool
    ensures { result ≡ is_slow d.now }
{
    match d {
        Selection::At(_) => true,
        Selection::Along(p) => {
            p.step.unsigned_abs() <= 1 << 30 && p.first.unsigned_abs() <= 1 << 60
        }
    }
}

/// The place at a tuple of a row; None where a subscript is out of bounds.
fn place_at(
    s: &State,
    a: usize,
    ds: &[Selection],
    t: usize,
    rest: &[i64],
) -> Result<Option<usize>, AllocError>
    requires { t < MAX_TUPLES }
    ensures { IfOk result (λ p. IfSome p (λ k. tuple_place (state_of s.now) a ds.now (pos (suc t) ∷ rest.now) ≡ Ok k)) }
{
    let alloc = *s.scalars.allocator();
    let tuple = tuple_at(alloc, t, rest)?;
    let subscripts = subscripts_at(alloc, ds, tuple.as_slice())?;
    match element_place(s, a, subscripts.as_slice()) {
        Ok(k) => Ok(Some(k)),
        Err(_) => Ok(None),
    }
}

/// A tuple of a row, by its number in the row.
fn tuple_at(alloc: Global, t: usize, rest: &[i64]) -> Result<SmallVec<i64, 7>, AllocError>
    requires { t < MAX_TUPLES }
    ensures { IfOk result (λ x. x.items ≡ pos (suc t) ∷ rest.now) }
{
    let mut x = SmallVec::new(alloc);
    x.push(t as i64 + 1)?;
    x.extend_from_slice(rest)?;
    Ok(x)
}

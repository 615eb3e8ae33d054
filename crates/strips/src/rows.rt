//! The values of an array expression at all tuples of a space, row by row.

ghost use Rattle.std.specs.Prelude.{◌≡◌, ◌≤◌, ◌<◌, ◌+◌, ◌*◌, ◌∷◌, true, IfOk, IfSome};
ghost use Rattle.array_meaning.specs.declared.limits.TheConstants.{MAX_TUPLES};
ghost use Rattle.array_meaning.specs.Sections.{positions};
ghost use Rattle.term_values.specs.States.{state_of};
ghost use Rattle.term_values.specs.Views.{elemental};
ghost use Rattle.strip_operators.specs.Strips.{IsStrip};
ghost use Rattle.strips.specs.Strips.{space_value};

use crate::expression_strips::strip;
use array_meaning::MAX_TUPLES;
use std::alloc::AllocError;
use term_values::{Elemental, State, positions};

/// How many tuples a strip has at most.
const STRIP: usize = 256;

/// How many tuples a row has at least: shorter ones aren't worth strips.
const SHORTEST: usize = 8;

/// The values at the first `n` tuples of a space of these extents, which are all of its rows. None where a value is a fault, where the rows
/// are short, and where a part of the expression isn't of one of the forms that are known here.
pub fn strip_values(
    s: &State,
    ns: &[u128],
    x: &Elemental,
    n: usize,
) -> Result<Option<Vec<i64>>, AllocError>
    requires { n ≤ MAX_TUPLES }
    ensures { IfOk result (λ p. IfSome p (λ vs. IsStrip (space_value (state_of s.now) ns.now (elemental x.now)) n vs.items)) }
{
    if let [first, others @ ..] = ns {
        if *first >= SHORTEST as u128 && *first <= MAX_TUPLES as u128 {
            return row_values(s, *first as usize, others, x, n);
        }
    }
    Ok(None)
}

/// The same by the length of a row.
fn row_values(
    s: &State,
    first: usize,
    others: &[u128],
    x: &Elemental,
    n: usize,
) -> Result<Option<Vec<i64>>, AllocError>
    requires few { n ≤ MAX_TUPLES }
    requires some { 0 < first }
    requires short { first ≤ MAX_TUPLES }
    ensures { IfOk result (λ p. IfSome p (λ vs. IsStrip (space_value (state_of s.now) (first ∷ others.now) (elemental x.now)) n vs.items)) }
{
    let Some(rows) = row_count(first, n) else {
        return Ok(None);
    };
    let mut vs = Vec::with_capacity(*s.scalars.allocator(), n)?;
    for y in 0..rows {
        if !add_row(s, first, others, x, y, &mut vs)? {
            return Ok(None);
        }
    }
    Ok(Some(vs))
}

/// How many rows there are, where none is cut off.
pub(crate) fn row_count(first: usize, n: usize) -> Option<usize>
    requires { 0 < first }
    ensures { IfSome result (λ rows. rows * first ≡ n) }
{
    if n % first == 0 {
        Some(n / first)
    } else {
        None
    }
}

/// Puts the values at a row behind those of the rows before it; false where one isn't found.
fn add_row(
    s: &State,
    first: usize,
    others: &[u128],
    x: &Elemental,
    y: usize,
    vs: &mut Vec<i64>,
) -> Result<bool, AllocError>
    requires short { first ≤ MAX_TUPLES }
    requires before { IsStrip (space_value (state_of s.now) (first ∷ others.now) (elemental x.now)) (y * first) vs.old.items }
    ensures { IfOk result (λ b. b ≡ true → IsStrip (space_value (state_of s.now) (first ∷ others.now) (elemental x.now)) (y * first + first) vs.new.items) }
{
    let rest = positions(*s.scalars.allocator(), others, y)?;
    let mut u = 0;
    while u < first {
        let n = strip_length(first - u);
        if !add_strip(s, first, others, x, y, u, rest.as_slice(), n, vs)? {
            return Ok(false);
        }
        u += n;
    }
    Ok(true)
}

/// How many tuples the next strip has, by how many are left of the row.
fn strip_length(left: usize) -> usize
    requires { 0 < left }
    ensures some { 0 < result }
    ensures fits { result ≤ left }
{
    if left < STRIP { left } else { STRIP }
}

/// Puts the values at a strip behind those before it; false where one isn't found.
#[tactic(auto, using(crate::proofs::Joined::row_behind))]
fn add_strip(
    s: &State,
    first: usize,
    others: &[u128],
    x: &Elemental,
    y: usize,
    u: usize,
    rest: &[i64],
    n: usize,
    vs: &mut Vec<i64>,
) -> Result<bool, AllocError>
    requires short { first ≤ MAX_TUPLES }
    requires fits { u + n ≤ first }
    requires rest { rest.now ≡ positions others.now y }
    requires before { IsStrip (space_value (state_of s.now) (first ∷ others.now) (elemental x.now)) (y * first + u) vs.old.items }
    ensures { IfOk result (λ b. b ≡ true → IsStrip (space_value (state_of s.now) (first ∷ others.now) (elemental x.now)) (y * first + (u + n)) vs.new.items) }
{
    let Some(ws) = strip(s, x, u, rest, n)? else {
        return Ok(false);
    };
    vs.extend_from_slice(&ws)?;
    Ok(true)
}

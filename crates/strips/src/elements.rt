//! Elements of sections over strips, and values that are the same at each tuple.

ghost use Rattle.std.specs.Prelude.{◌≡◌, ◌≤◌, ◌+◌, IfOk, IfSome, Ok};
ghost use Rattle.array_meaning.specs.declared.limits.TheConstants.{MAX_TUPLES};
ghost use Rattle.array_meaning.specs.Elementals.{Same, Selected};
ghost use Rattle.array_meaning.specs.State.{array};
ghost use Rattle.term_values.specs.States.{state_of};
ghost use Rattle.strip_operators.specs.Strips.{IsStrip};
ghost use Rattle.strips.specs.Strips.{row_value};

use crate::tuples::run_at;
use array_meaning::Selection;
use std::alloc::AllocError;
use term_values::State;

/// One value at so many tuples.
#[tactic(auto, using(crate::proofs::Joined::same_strip))]
pub(crate) fn same_strip(
    s: &State,
    v: &i64,
    u: usize,
    rest: &[i64],
    n: usize,
) -> Result<Option<Vec<i64>>, AllocError>
    ensures { IfOk result (λ p. IfSome p (λ vs. IsStrip (row_value (state_of s.now) (Same v.now) u rest.now) n vs.items)) }
{
    let mut vs = Vec::with_capacity(*s.scalars.allocator(), n)?;
    vs.resize(n, *v)?;
    Ok(Some(vs))
}

/// The elements of a section at so many tuples of a row, from one on, where they stand one behind the other.
#[inline(never)]
#[tactic(auto, using(crate::proofs::Runs::run_strip))]
pub(crate) fn selected_strip(
    s: &State,
    a: usize,
    ds: &[Selection],
    u: usize,
    rest: &[i64],
    n: usize,
) -> Result<Option<Vec<i64>>, AllocError>
    requires { u + n ≤ MAX_TUPLES }
    ensures { IfOk result (λ p. IfSome p (λ vs. IsStrip (row_value (state_of s.now) (Selected a ds.now) u rest.now) n vs.items)) }
{
    let Some(first) = run_at(s, a, ds, u, rest, n)? else {
        return Ok(None);
    };
    let elements = elements_of(s, a);
    if first > elements.len() || n > elements.len() - first {
        return Ok(None);
    }
    let vs = Vec::from_slice(*s.scalars.allocator(), &elements[first..first + n])?;
    Ok(Some(vs))
}

/// The elements of an array; none where no array has this name.
fn elements_of(s: &State, a: usize) -> &[i64]
    ensures { result.now ≡ (array (state_of s.now) a).elements }
{
    if a < s.arrays.len() {
        s.arrays[a].elements()
    } else {
        &[]
    }
}

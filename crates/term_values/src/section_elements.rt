//! The elements of sections at tuples of positions (Fortran 95, 6.2.2.3).

ghost use Rattle.std.specs.Prelude.{◌≡◌, ◌∷◌, [], IfErr, IfOk, Ok};
ghost use Rattle.array_meaning.specs.Sections.{subscripts_at};
ghost use Rattle.array_meaning.specs.State.{element};
ghost use Rattle.term_values.specs.SectionSubscripts.{positions_after, subscript_at};
ghost use Rattle.term_values.specs.States.{state_of};
ghost use Rattle.term_values.specs.Stops.{IsStop};

use crate::elements::{element, element_of_one, element_of_two};
use crate::state::State;
use crate::stops::Stop;
use crate::subscripts::{nth, subscripts_at};
use crate::wrapping::Number;
use array_meaning::Selection;

/// The value of a section's element at a tuple of positions; a fault where a subscript is out of bounds.
pub(crate) fn section_element(
    s: &State,
    tuple: &[i64],
    a: usize,
    ds: &[Selection],
) -> Result<i64, Stop>
    ensures value { IfOk result (λ v. element (state_of s.now) a (subscripts_at ds.now tuple.now) ≡ Ok v) }
    ensures stopped { IfErr result (IsStop (element (state_of s.now) a (subscripts_at ds.now tuple.now))) }
{
    if ds.len() == 1 {
        return element_by_one(s, tuple, a, &ds[0]);
    }
    if ds.len() == 2 {
        return element_by_two(s, tuple, a, &ds[0], &ds[1]);
    }
    let subscripts = subscripts_at(*s.scalars.allocator(), ds, tuple)?;
    element(s, a, subscripts.as_slice())
}

/// The value of a section's element at a tuple of positions, in an array with one dimension; a fault where the subscript is out of bounds.
#[tactic(auto, using(crate::proofs::SectionSubscripts::one_is))]
fn element_by_one(s: &State, tuple: &[i64], a: usize, d: &Selection) -> Result<i64, Stop>
    ensures value { IfOk result (λ v. element (state_of s.now) a (subscripts_at (d.now ∷ []) tuple.now) ≡ Ok v) }
    ensures stopped { IfErr result (IsStop (element (state_of s.now) a (subscripts_at (d.now ∷ []) tuple.now))) }
{
    let i = subscript_at(d, tuple);
    element_of_one(s, a, &i.value)
}

/// The value of a section's element at a tuple of positions, in an array with two dimensions; a fault where a subscript is out of
/// bounds.
#[tactic(auto, using(crate::proofs::SectionSubscripts::two_is))]
fn element_by_two(
    s: &State,
    tuple: &[i64],
    a: usize,
    d: &Selection,
    e: &Selection,
) -> Result<i64, Stop>
    ensures value { IfOk result (λ v. element (state_of s.now) a (subscripts_at (d.now ∷ e.now ∷ []) tuple.now) ≡ Ok v) }
    ensures stopped { IfErr result (IsStop (element (state_of s.now) a (subscripts_at (d.now ∷ e.now ∷ []) tuple.now))) }
{
    let i = subscript_at(d, tuple);
    let j = subscript_at(e, positions_after(d, tuple));
    element_of_two(s, a, &i.value, &j.value)
}

/// What is selected of a dimension at these positions, of which the first is its own if it has a triplet.
fn subscript_at(d: &Selection, tuple: &[i64]) -> Number
    ensures { result.value ≡ subscript_at d.now tuple.now }
{
    match d {
        Selection::At(i) => Number { value: *i },
        Selection::Along(p) => {
            if tuple.is_empty() {
                Number { value: p.first }
            } else {
                nth(p, &tuple[0])
            }
        }
    }
}

/// The positions of the dimensions after one.
fn positions_after<'a>(d: &Selection, tuple: &'a [i64]) -> &'a [i64]
    ensures { result.now ≡ positions_after d.now tuple.now }
{
    match d {
        Selection::At(_) => tuple,
        Selection::Along(_) => { if tuple.is_empty() { tuple } else { &tuple[1..] } }
    }
}

//! The places of what is assigned, by the number of a tuple.

ghost use Rattle.std.specs.Prelude.{◌≡◌, ◌≤◌, ◌∷◌, [], pos, suc, IfOk};
ghost use Rattle.array_meaning.specs.declared.limits.TheConstants.{MAX_TUPLES};
ghost use Rattle.array_meaning.specs.State.{element_place};
ghost use Rattle.array_meaning.specs.Sections.{positions, subscripts_at};
ghost use Rattle.code_meaning.specs.Parallel.{shape_of};
ghost use Rattle.term_values.specs.SectionSubscripts.{positions_after, subscript_at};

use array_meaning::Selection;
use expression_rules::Dims;
use hpf_base::OutOfMemory;
use slot_values::{element_place, element_place_of_one, element_place_of_two};
use std::alloc::Global;
use term_values::{Number, divided, nth, positions, subscripts_at};

/// The place of a section's element at the tuple with a number.
pub(crate) fn assigned_place(
    alloc: Global,
    shapes: &[Dims],
    array: usize,
    ds: &[Selection],
    extents: &[u128],
    tuple: usize,
) -> Result<Option<usize>, OutOfMemory>
    requires { tuple ≤ MAX_TUPLES }
    ensures { IfOk result (λ place. place ≡ element_place (shape_of shapes.now array) (subscripts_at ds.now (positions extents.now tuple))) }
{
    if ds.len() == 1 {
        return Ok(assigned_by_one(shapes, array, &ds[0], extents, tuple));
    }
    if ds.len() == 2 {
        return Ok(assigned_by_two(shapes, array, &ds[0], &ds[1], extents, tuple));
    }
    let x = positions(alloc, extents, tuple)?;
    let is = subscripts_at(alloc, ds, x.as_slice())?;
    Ok(element_place(shapes, array, is.as_slice()))
}

/// The place of a section's element at the tuple with a number, in an array with one dimension. It takes no memory.
#[tactic(auto, using(term_values::proofs::SectionSubscripts::one_is))]
fn assigned_by_one(
    shapes: &[Dims],
    array: usize,
    d: &Selection,
    extents: &[u128],
    tuple: usize,
) -> Option<usize>
    requires { tuple ≤ MAX_TUPLES }
    ensures { result ≡ element_place (shape_of shapes.now array) (subscripts_at (d.now ∷ []) (positions extents.now tuple)) }
{
    let i = subscript(d, extents, tuple);
    element_place_of_one(shapes, array, &i.value)
}

/// The place of a section's element at the tuple with a number, in an array with two dimensions. It takes no memory.
#[tactic(auto, using(crate::proofs::SectionSubscripts::numbered_two))]
fn assigned_by_two(
    shapes: &[Dims],
    array: usize,
    d: &Selection,
    e: &Selection,
    extents: &[u128],
    tuple: usize,
) -> Option<usize>
    requires { tuple ≤ MAX_TUPLES }
    ensures { result ≡ element_place (shape_of shapes.now array) (subscripts_at (d.now ∷ e.now ∷ []) (positions extents.now tuple)) }
{
    let i = subscript(d, extents, tuple);
    let after = after(d, extents, tuple);
    let j = subscript(e, after.extents, after.tuple);
    element_place_of_two(shapes, array, &i.value, &j.value)
}

/// What is selected of a dimension at the tuple with a number, of whose positions the first is its own if it has a triplet.
fn subscript(d: &Selection, extents: &[u128], tuple: usize) -> Number
    requires { tuple ≤ MAX_TUPLES }
    ensures { result.value ≡ subscript_at d.now (positions extents.now tuple) }
{
    match d {
        Selection::At(i) => Number { value: *i },
        Selection::Along(p) => {
            if extents.is_empty() {
                Number { value: p.first }
            } else {
                let x = position(divided(tuple, extents[0]).rest);
                nth(p, &x.value)
            }
        }
    }
}

/// The position with a number from 0.
fn position(number: usize) -> Number
    requires { number ≤ MAX_TUPLES }
    ensures { result.value ≡ pos (suc number) }
{
    Number {
        value: number as i64 + 1,
    }
}

/// The tuple with a number in a space.
#[derive(Clone, Copy)]
struct Numbered<'a> {
    extents: &'a [u128],
    tuple: usize,
}

/// The tuple that the positions of the dimensions after one are.
fn after<'a>(d: &Selection, extents: &'a [u128], tuple: usize) -> Numbered<'a>
    ensures positions { positions result.extents.now result.tuple ≡ positions_after d.now (positions extents.now tuple) }
    ensures few { result.tuple ≤ tuple }
{
    match d {
        Selection::At(_) => Numbered { extents, tuple },
        Selection::Along(_) => {
            if extents.is_empty() {
                Numbered { extents, tuple }
            } else {
                Numbered {
                    extents: &extents[1..],
                    tuple: divided(tuple, extents[0]).quotient,
                }
            }
        }
    }
}

//! The places of sections' elements at a tuple (Fortran 95, 6.2.2.3).

ghost use Rattle.std.specs.Prelude.{◌≡◌, ◌+◌, ◌∷◌, [], ℤ, List, IfOk};
ghost use Rattle.array_meaning.specs.declared.sections.Selection.TheVariants.{Along};
ghost use Rattle.code_meaning.specs.Flat.{slot};
ghost use Rattle.code_meaning.specs.Forms.{sequence_in};
ghost use Rattle.node_code.specs.Texts.{sub, subs};
ghost use Rattle.slot_values.specs.Sections.{selection_at};
ghost use Rattle.term_values.specs.SectionSubscripts.{positions_after, subscript_at};
ghost use Rattle.tuple_values.specs.Here.{place_here, subscripts_here};

use crate::here::Here;
use array_meaning::Sequence;
use hpf_base::OutOfMemory;
use node_code::Sub;
use slot_values::{element_place, element_place_of_one, element_place_of_two, flat_or_zero, slot};
use smallvec::SmallVec;
use term_values::{Number, nth};

/// The place of a section's element.
pub(crate) fn section_place(
    here: &Here<'_>,
    array: usize,
    section: &[Sub],
) -> Result<Option<usize>, OutOfMemory>
    ensures { IfOk result (λ p. p ≡ place_here here.now array (subs section.now)) }
{
    if section.len() == 1 {
        return place_by_one(here, array, &section[0]);
    }
    if section.len() == 2 {
        return place_by_two(here, array, &section[0], &section[1]);
    }
    let is = subscripts(here, section)?;
    Ok(element_place(here.shapes, array, is.as_slice()))
}

/// The place of a section's element in an array with one dimension.
#[tactic(auto, using(crate::proofs::SectionSubscripts::one_is))]
fn place_by_one(here: &Here<'_>, array: usize, d: &Sub) -> Result<Option<usize>, OutOfMemory>
    ensures { IfOk result (λ p. p ≡ place_here here.now array (sub d.now ∷ [])) }
{
    let i = subscript(here, d, here.tuple)?;
    Ok(element_place_of_one(here.shapes, array, &i.value))
}

/// The place of a section's element in an array with two dimensions.
#[tactic(auto, using(crate::proofs::SectionSubscripts::two_are))]
fn place_by_two(
    here: &Here<'_>,
    array: usize,
    d: &Sub,
    e: &Sub,
) -> Result<Option<usize>, OutOfMemory>
    ensures { IfOk result (λ p. p ≡ place_here here.now array (sub d.now ∷ sub e.now ∷ [])) }
{
    let i = subscript(here, d, here.tuple)?;
    let j = subscript(here, e, positions_after(d, here.tuple))?;
    Ok(element_place_of_two(here.shapes, array, &i.value, &j.value))
}

/// The subscripts of a section's element.
fn subscripts(here: &Here<'_>, section: &[Sub]) -> Result<SmallVec<i64, 7>, OutOfMemory>
    ensures { IfOk result (λ is. is.items ≡ subscripts_here here.now (subs section.now)) }
{
    let mut is = SmallVec::new(here.alloc);
    let mut positions = here.tuple;
    for d in section {
        let i = subscript(here, d, positions)?;
        is.push(i.value)?;
        positions = positions_after(d, positions);
    }
    Ok(is)
}

/// What a section subscript comes to at positions, of which the first is its own if it is a triplet.
fn subscript(here: &Here<'_>, d: &Sub, positions: &[i64]) -> Result<Number, OutOfMemory>
    ensures { IfOk result (λ i. i.value ≡ subscript_at (selection_at here.now.slots.now here.now.axes.now (sub d.now)) positions.now) }
{
    match d {
        Sub::At(f) => Ok(Number {
            value: flat_or_zero(here.slots, here.axes, f)?,
        }),
        Sub::Along(v) => Ok(triplet_subscript(here.slots, *v, positions)),
    }
}

/// The subscript of a triplet whose parts stand in three slots from one on.
fn triplet_subscript(slots: &[i64], triplet: usize, positions: &[i64]) -> Number
    ensures { result.value ≡ subscript_at (Along (sequence_in slots.now triplet)) positions.now }
{
    let first = slot(slots, triplet);
    if positions.is_empty() {
        return Number { value: first };
    }
    let step = stride(slots, triplet);
    let values = Sequence {
        first,
        step,
        count: 0,
    };
    nth(&values, &positions[0])
}

/// The stride of a triplet.
fn stride(slots: &[i64], triplet: usize) -> i64
    ensures { result ≡ slot slots.now (triplet + 2) }
{
    if triplet < slots.len() {
        slot(slots, triplet + 2)
    } else {
        0
    }
}

/// The positions of the dimensions after one.
fn positions_after<'a>(d: &Sub, positions: &'a [i64]) -> &'a [i64]
    ensures { (slots axes : List ℤ) → result.now ≡ positions_after (selection_at slots axes (sub d.now)) positions.now }
{
    match d {
        Sub::At(_) => positions,
        Sub::Along(_) => {
            if positions.is_empty() {
                positions
            } else {
                &positions[1..]
            }
        }
    }
}

//! The value of an array expression at a tuple, by the elements that it reads.

ghost use Rattle.std.specs.Prelude.{◌≡◌, ◌∷◌, [], length, IfErr, IfOk, Ok};
ghost use Rattle.code_meaning.specs.Flat.{flat_value, or_zero};
ghost use Rattle.node_code.specs.Forms.{SectionForm};
ghost use Rattle.node_code.specs.Texts.{flat, form, forms_of, subs};
ghost use Rattle.storage.specs.Spots.{spot_of};
ghost use Rattle.term_values.specs.declared.stops.Stop.TheVariants.{Memory};
ghost use Rattle.term_values.specs.Stops.{IsStop};
ghost use Rattle.tuple_values.specs.Here.{operation_here, value_here, values_here};

use crate::elements::Elements;
use crate::here::Here;
use crate::sections::section_place;
use array_meaning::FaultKind;
use node_code::{ArrayForm, Flat, Sub};
use op_tables::Op;
use slot_values::flat_or_zero;
use smallvec::SmallVec;
use storage::Spot;
use term_values::{Stop, fault, operated, operated_of_two};

/// Two values in order.
#[derive(Clone, Copy)]
struct Pair {
    first: i64,
    second: i64,
}

/// Its value, or its first fault.
#[cycle(form_value)]
pub(crate) fn form_value<E: Elements>(
    here: &Here<'_>,
    f: &ArrayForm,
    elements: &E,
) -> Result<i64, Stop>
    ensures value { IfOk result (λ v. value_here here.now (E.get elements.now) (form f.now) ≡ Ok v) }
    ensures stopped { IfErr result (IsStop (value_here here.now (E.get elements.now) (form f.now))) }
{
    match f {
        ArrayForm::Flat(f) => same_value(here, f),
        ArrayForm::Section(a, ds) => section_value(here, *a, ds, elements),
        ArrayForm::Operation(op, fs) => operation_value(here, *op, fs, elements),
    }
}

/// The value of an operator.
#[inline(never)]
#[cycle(form_value)]
fn operation_value<E: Elements>(
    here: &Here<'_>,
    op: Op,
    fs: &Vec<ArrayForm>,
    elements: &E,
) -> Result<i64, Stop>
    ensures value { IfOk result (λ v. operation_here here.now (E.get elements.now) op (forms_of fs.now.items) ≡ Ok v) }
    ensures stopped { IfErr result (IsStop (operation_here here.now (E.get elements.now) op (forms_of fs.now.items))) }
{
    if fs.len() == 2 {
        return operation_of_two(here, op, fs, elements);
    }
    many_operands(here, op, fs, elements)
}

/// The value of an operator of two operands.
#[cycle(form_value)]
fn operation_of_two<E: Elements>(
    here: &Here<'_>,
    op: Op,
    fs: &Vec<ArrayForm>,
    elements: &E,
) -> Result<i64, Stop>
    requires two { length fs.now.items ≡ 2 }
    ensures value { IfOk result (λ v. operation_here here.now (E.get elements.now) op (forms_of fs.now.items) ≡ Ok v) }
    ensures stopped { IfErr result (IsStop (operation_here here.now (E.get elements.now) op (forms_of fs.now.items))) }
{
    let pair = two_values(here, fs, elements)?;
    operated_of_two(op, &pair.first, &pair.second)
}

/// The values of two operands in order, or the first fault.
#[inline(always)]
#[tactic(auto, using(crate::proofs::Pairs::pair_values, crate::proofs::Pairs::first_stops, crate::proofs::Pairs::second_stops))]
#[cycle(form_value)]
fn two_values<E: Elements>(here: &Here<'_>, fs: &Vec<ArrayForm>, elements: &E) -> Result<Pair, Stop>
    requires two { length fs.now.items ≡ 2 }
    ensures value { IfOk result (λ p. values_here here.now (E.get elements.now) (forms_of fs.now.items) ≡ Ok (p.first ∷ p.second ∷ [])) }
    ensures stopped { IfErr result (IsStop (values_here here.now (E.get elements.now) (forms_of fs.now.items))) }
{
    let first = form_value(here, &fs[0], elements)?;
    let second = form_value(here, &fs[1], elements)?;
    Ok(Pair { first, second })
}

/// The value of an operator of any number of operands.
#[inline(never)]
#[cycle(form_value)]
fn many_operands<E: Elements>(
    here: &Here<'_>,
    op: Op,
    fs: &Vec<ArrayForm>,
    elements: &E,
) -> Result<i64, Stop>
    ensures value { IfOk result (λ v. operation_here here.now (E.get elements.now) op (forms_of fs.now.items) ≡ Ok v) }
    ensures stopped { IfErr result (IsStop (operation_here here.now (E.get elements.now) op (forms_of fs.now.items))) }
{
    let operands = form_values(here, fs, elements)?;
    operated(op, operands.as_slice())
}

/// The values of operands in order, or the first fault.
#[cycle(form_value)]
fn form_values<E: Elements>(
    here: &Here<'_>,
    fs: &Vec<ArrayForm>,
    elements: &E,
) -> Result<SmallVec<i64, 7>, Stop>
    ensures value { IfOk result (λ vs. values_here here.now (E.get elements.now) (forms_of fs.now.items) ≡ Ok vs.items) }
    ensures stopped { IfErr result (IsStop (values_here here.now (E.get elements.now) (forms_of fs.now.items))) }
{
    let mut vs = SmallVec::new(here.alloc);
    for f in fs {
        let v = form_value(here, f, elements)?;
        vs.push(v)?;
    }
    Ok(vs)
}

/// The value of an expression that is the same at each tuple, or at each with these indices.
fn same_value(here: &Here<'_>, f: &Flat) -> Result<i64, Stop>
    ensures value { IfOk result (λ v. or_zero (flat_value here.now.slots.now here.now.seen.now [] (flat f.now)) ≡ v) }
    ensures stopped { IfErr result (λ e. e ≡ Memory) }
{
    match flat_or_zero(here.slots, here.seen, f) {
        Ok(v) => Ok(v),
        Err(_) => Err(Stop::Memory),
    }
}

/// The value of a section's element; a fault where a subscript is out of bounds.
pub(crate) fn section_value<E: Elements>(
    here: &Here<'_>,
    array: usize,
    section: &[Sub],
    elements: &E,
) -> Result<i64, Stop>
    ensures value { IfOk result (λ v. value_here here.now (E.get elements.now) (SectionForm array (subs section.now)) ≡ Ok v) }
    ensures stopped { IfErr result (IsStop (value_here here.now (E.get elements.now) (SectionForm array (subs section.now)))) }
{
    match section_place(here, array, section) {
        Ok(Some(at)) => Ok(elements.value(Spot { row: array, at })),
        Ok(None) => Err(fault(FaultKind::Bounds)),
        Err(_) => Err(Stop::Memory),
    }
}

//! Sections and elemental expressions, by the slots.

ghost use Rattle.std.specs.Prelude.{◌≡◌, ◌+◌, ◌≤◌, IfOk};
ghost use Rattle.code_meaning.specs.Flat.{slot};
ghost use Rattle.code_meaning.specs.Forms.{elemental_at, elementals_at, selections_at, sequence_in};
ghost use Rattle.node_code.specs.Texts.{form, forms_of, sub, subs};
ghost use Rattle.slot_values.specs.Sections.{selection_at};
ghost use Rattle.term_values.specs.Views.{elemental, elementals_of};

use crate::expressions::{flat_or_zero, slot};
use array_meaning::{Selection, Sequence};
use node_code::{ArrayForm, Sub};
use std::alloc::{AllocError, Global};
use term_values::{Elemental, Stop, sequence};

/// What section subscripts select, the first dimension first, by the slots and the values of the indices of a FORALL.
pub fn selections_at(
    alloc: Global,
    slots: &[i64],
    axes: &[i64],
    section: &[Sub],
) -> Result<Vec<Selection>, AllocError>
    ensures { IfOk result (λ ds. ds.items ≡ selections_at slots.now axes.now (subs section.now)) }
{
    let mut ds = Vec::new(alloc);
    for d in section {
        let selected = selection_at(slots, axes, d)?;
        ds.push(selected)?;
    }
    Ok(ds)
}

/// What one of them selects.
fn selection_at(slots: &[i64], axes: &[i64], d: &Sub) -> Result<Selection, AllocError>
    ensures { IfOk result (λ r. r ≡ selection_at slots.now axes.now (sub d.now)) }
{
    match d {
        Sub::At(f) => {
            let i = flat_or_zero(slots, axes, f)?;
            Ok(Selection::At(i))
        }
        Sub::Along(v) => {
            let p = sequence_in(slots, *v)?;
            Ok(Selection::Along(p))
        }
    }
}

/// The values of a triplet, whose first value, last value and stride stand in three slots from this one on.
fn sequence_in(slots: &[i64], v: usize) -> Result<Sequence, AllocError>
    ensures { IfOk result (λ p. p ≡ sequence_in slots.now v) }
{
    let first = slot(slots, v);
    let last = slot_after(slots, v, 1);
    let step = slot_after(slots, v, 2);
    if step == 0 {
        return Ok(Sequence {
            first,
            step,
            count: 0,
        });
    }
    match sequence(first, last, step) {
        Ok(p) => Ok(p),
        Err(Stop::Memory) => Err(AllocError),
        Err(Stop::Fault(_)) => unreachable!(),
    }
}

/// The value of the first or second slot after one.
fn slot_after(slots: &[i64], v: usize, k: usize) -> i64
    requires near { k ≤ 2 }
    ensures { result ≡ slot slots.now (v + k) }
{
    if v >= slots.len() {
        return 0;
    }
    slot(slots, v + k)
}

/// What a form comes to, by the slots and the values of the indices of a FORALL.
#[cycle(elemental_at)]
pub fn elemental_at(
    alloc: Global,
    slots: &[i64],
    axes: &[i64],
    x: &ArrayForm,
) -> Result<Elemental, AllocError>
    ensures { IfOk result (λ e. elemental e ≡ elemental_at slots.now axes.now (form x.now)) }
{
    match x {
        ArrayForm::Flat(f) => Ok(Elemental::Same(flat_or_zero(slots, axes, f)?)),
        ArrayForm::Section(a, subs) => Ok(Elemental::Selected(
            *a,
            selections_at(alloc, slots, axes, subs)?,
        )),
        ArrayForm::Operation(op, operands) => Ok(Elemental::Operation(
            *op,
            elementals_at(alloc, slots, axes, operands)?,
        )),
    }
}

/// The operands of an operator in order.
#[cycle(elemental_at)]
fn elementals_at(
    alloc: Global,
    slots: &[i64],
    axes: &[i64],
    xs: &Vec<ArrayForm>,
) -> Result<Vec<Elemental>, AllocError>
    ensures { IfOk result (λ es. elementals_of es.items ≡ elementals_at slots.now axes.now (forms_of xs.now.items)) }
{
    let mut es = Vec::new(alloc);
    for x in xs {
        let e = elemental_at(alloc, slots, axes, x)?;
        es.push(e)?;
    }
    Ok(es)
}

//! What gives the value of an expression after its code. Slots from `b` on are those of the code. An `Err` is want of memory here.

ghost use Rattle.std.specs.Prelude.{◌≡◌, ◌+◌, IfOk};
ghost use Rattle.program_code.specs.ExpressionCode.{all_slots_of, flat_of, flats_of, form_of, forms_of, operated_flat, subs_of};
ghost use Rattle.node_code.specs.Flat.{Operated};
ghost use Rattle.node_code.specs.Forms.{OperationForm, SectionForm};
ghost use Rattle.node_code.specs.Texts.{flat, form, sub, subs};
ghost use Rattle.node_code.specs.Texts as text;
ghost use Rattle.op_tables.specs.Operators.{can_divide};
ghost use Rattle.resolved_program.specs.Resolved.{subscripts_of, term, terms_of};
ghost use Rattle.expression_code.specs.Subscripts.{sub_of};

use crate::slots::{all_slots_of, parts_slots, slots_of, subscript_slots};
use crate::sums::{can_divide, plus, plus_three};
use hpf_base::OutOfMemory;
use node_code::{ArrayForm, Flat, Sub};
use op_tables::Op;
use resolved_program::{SectionSubscript, Term};
use std::alloc::Global;

/// The expression over the slots that has the value of a scalar expression after its code.
#[cycle(flat)]
pub fn flat_of(alloc: Global, b: usize, t: &Term) -> Result<Flat, OutOfMemory>
    ensures { IfOk result (λ f. flat f ≡ flat_of b (term t.now)) }
{
    match t {
        Term::Number(n) => Ok(Flat::Int(*n)),
        Term::Scalar(k) => Ok(Flat::Slot(*k)),
        Term::Index(_) | Term::Section(_, _) => Ok(Flat::Int(0)),
        Term::Element(_, subscripts) => Ok(Flat::Slot(plus(b, all_slots_of(subscripts)?)?)),
        Term::Apply(op, operands) => operated_flat(alloc, b, *op, operands),
        Term::Reduce(_, t) => Ok(Flat::Slot(plus(b, parts_slots(t)?)?)),
    }
}

/// The expression that has the value of an operator after its code: what may divide by zero has its value in a slot.
#[cycle(flat)]
fn operated_flat(alloc: Global, b: usize, op: Op, operands: &[Term]) -> Result<Flat, OutOfMemory>
    ensures { IfOk result (λ f. flat f ≡ operated_flat (can_divide op) op (flats_of b (terms_of operands.now)) (b + all_slots_of (terms_of operands.now))) }
{
    if can_divide(op) {
        Ok(Flat::Slot(plus(b, all_slots_of(operands)?)?))
    } else {
        operated(alloc, b, op, operands)
    }
}

/// An operator with its operands after their code.
#[cycle(flat)]
pub(crate) fn operated(
    alloc: Global,
    b: usize,
    op: Op,
    operands: &[Term],
) -> Result<Flat, OutOfMemory>
    ensures { IfOk result (λ f. flat f ≡ Operated op (flats_of b (terms_of operands.now))) }
{
    Ok(Flat::Operated(op, flats_of(alloc, b, operands)?))
}

/// Those of scalar expressions, in order.
#[cycle(flat)]
pub fn flats_of(alloc: Global, b: usize, terms: &[Term]) -> Result<Vec<Flat>, OutOfMemory>
    ensures { IfOk result (λ fs. text.flats_of fs.items ≡ flats_of b (terms_of terms.now)) }
{
    let mut flats = Vec::new(alloc);
    let mut at = b;
    for t in terms {
        flats.push(flat_of(alloc, at, t)?)?;
        at = plus(at, slots_of(t)?)?;
    }
    Ok(flats)
}

/// The subscripts of a section, the first dimension first.
pub fn subs_of(
    alloc: Global,
    b: usize,
    subscripts: &[SectionSubscript],
) -> Result<Vec<Sub>, OutOfMemory>
    ensures { IfOk result (λ ds. subs ds.items ≡ subs_of b (subscripts_of subscripts.now)) }
{
    let mut left = Vec::new(alloc);
    let mut at = b;
    for d in subscripts {
        left.push(sub_of(alloc, at, d)?)?;
        at = plus(at, subscript_slots(d)?)?;
    }
    Ok(left)
}

/// One of them.
fn sub_of(alloc: Global, b: usize, d: &SectionSubscript) -> Result<Sub, OutOfMemory>
    ensures { IfOk result (λ s. sub s ≡ sub_of b d.now) }
{
    match d {
        SectionSubscript::Subscript(t) => Ok(Sub::At(flat_of(alloc, b, t)?)),
        SectionSubscript::Triplet(first, last, step) => {
            let values = plus_three(slots_of(first)?, slots_of(last)?, slots_of(step)?)?;
            Ok(Sub::Along(plus(b, values)?))
        }
    }
}

/// What is left of an array expression after its code.
#[cycle(form)]
pub fn form_of(alloc: Global, b: usize, t: &Term) -> Result<ArrayForm, OutOfMemory>
    ensures { IfOk result (λ f. form f ≡ form_of b (term t.now)) }
{
    match t {
        Term::Section(a, subscripts) => section_form(alloc, b, *a, subscripts),
        Term::Apply(op, operands) => operation_form(alloc, b, *op, operands),
        _ => Ok(ArrayForm::Flat(flat_of(alloc, b, t)?)),
    }
}

/// What is left of a section after its code.
fn section_form(
    alloc: Global,
    b: usize,
    a: usize,
    subscripts: &[SectionSubscript],
) -> Result<ArrayForm, OutOfMemory>
    ensures { IfOk result (λ f. form f ≡ SectionForm a (subs_of b (subscripts_of subscripts.now))) }
{
    Ok(ArrayForm::Section(a, subs_of(alloc, b, subscripts)?))
}

/// What is left of an operator with its operands after their code.
#[cycle(form)]
fn operation_form(
    alloc: Global,
    b: usize,
    op: Op,
    operands: &[Term],
) -> Result<ArrayForm, OutOfMemory>
    ensures { IfOk result (λ f. form f ≡ OperationForm op (forms_of b (terms_of operands.now))) }
{
    Ok(ArrayForm::Operation(op, forms_of(alloc, b, operands)?))
}

/// What is left of array expressions, in order.
#[cycle(form)]
pub fn forms_of(alloc: Global, b: usize, terms: &[Term]) -> Result<Vec<ArrayForm>, OutOfMemory>
    ensures { IfOk result (λ fs. text.forms_of fs.items ≡ forms_of b (terms_of terms.now)) }
{
    let mut forms = Vec::new(alloc);
    let mut at = b;
    for t in terms {
        forms.push(form_of(alloc, at, t)?)?;
        at = plus(at, parts_slots(t)?)?;
    }
    Ok(forms)
}

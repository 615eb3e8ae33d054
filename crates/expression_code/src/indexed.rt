//! Expressions of a FORALL, at an index tuple (Fortran 95, 7.5.4). No code evaluates a part of them before. An `Err` is want of memory here.

ghost use Rattle.std.specs.Prelude.{◌≡◌, map, IfOk};
ghost use Rattle.array_meaning.specs.Terms.{list_of};
ghost use Rattle.program_code.specs.ExpressionCode.{index_flat, index_flats, index_form, index_forms, index_subs};
ghost use Rattle.node_code.specs.Flat.{Operated};
ghost use Rattle.node_code.specs.Forms.{OperationForm, SectionForm};
ghost use Rattle.node_code.specs.Texts.{flat, flats_of, form, forms_of, subs};
ghost use Rattle.resolved_program.specs.Resolved.{term, terms_of};

use hpf_base::OutOfMemory;
use node_code::{ArrayForm, Flat, Sub};
use op_tables::Op;
use resolved_program::Term;
use std::alloc::Global;

/// A subscript, which names no element.
#[cycle(index_flat)]
pub fn index_flat(alloc: Global, t: &Term) -> Result<Flat, OutOfMemory>
    ensures { IfOk result (λ f. flat f ≡ index_flat (term t.now)) }
{
    match t {
        Term::Number(n) => Ok(Flat::Int(*n)),
        Term::Scalar(k) => Ok(Flat::Slot(*k)),
        Term::Index(k) => Ok(Flat::Axis(*k)),
        Term::Apply(op, operands) => operated(alloc, *op, operands),
        _ => Ok(Flat::Int(0)),
    }
}

/// An operator in a subscript.
#[cycle(index_flat)]
fn operated(alloc: Global, op: Op, operands: &[Term]) -> Result<Flat, OutOfMemory>
    ensures { IfOk result (λ f. flat f ≡ Operated op (index_flats (terms_of operands.now))) }
{
    Ok(Flat::Operated(op, index_flats(alloc, operands)?))
}

/// Subscripts in order.
#[cycle(index_flat)]
pub fn index_flats(alloc: Global, terms: &[Term]) -> Result<Vec<Flat>, OutOfMemory>
    ensures { IfOk result (λ fs. flats_of fs.items ≡ index_flats (terms_of terms.now)) }
{
    let mut flats = Vec::new(alloc);
    for t in terms {
        flats.push(index_flat(alloc, t)?)?;
    }
    Ok(flats)
}

/// Subscripts in order, each by itself in a list.
pub fn all_index_flats(alloc: Global, terms: &[Term]) -> Result<Vec<Flat>, OutOfMemory>
    ensures { IfOk result (λ fs. map flat fs.items ≡ map index_flat (list_of (terms_of terms.now))) }
{
    let flats = index_flats(alloc, terms)?;
    Ok(flats)
}

/// Subscripts as those of a section.
pub fn index_subs(alloc: Global, terms: &[Term]) -> Result<Vec<Sub>, OutOfMemory>
    ensures { IfOk result (λ ds. subs ds.items ≡ index_subs (terms_of terms.now)) }
{
    let mut left = Vec::new(alloc);
    for t in terms {
        left.push(Sub::At(index_flat(alloc, t)?))?;
    }
    Ok(left)
}

/// An expression.
#[cycle(index_form)]
pub fn index_form(alloc: Global, t: &Term) -> Result<ArrayForm, OutOfMemory>
    ensures { IfOk result (λ f. form f ≡ index_form (term t.now)) }
{
    match t {
        Term::Element(a, subscripts) => section(alloc, *a, subscripts),
        Term::Apply(op, operands) => operation(alloc, *op, operands),
        _ => Ok(ArrayForm::Flat(index_flat(alloc, t)?)),
    }
}

/// An element.
fn section(alloc: Global, a: usize, subscripts: &[Term]) -> Result<ArrayForm, OutOfMemory>
    ensures { IfOk result (λ f. form f ≡ SectionForm a (index_subs (terms_of subscripts.now))) }
{
    Ok(ArrayForm::Section(a, index_subs(alloc, subscripts)?))
}

/// An operator.
#[cycle(index_form)]
fn operation(alloc: Global, op: Op, operands: &[Term]) -> Result<ArrayForm, OutOfMemory>
    ensures { IfOk result (λ f. form f ≡ OperationForm op (index_forms (terms_of operands.now))) }
{
    Ok(ArrayForm::Operation(op, index_forms(alloc, operands)?))
}

/// Expressions in order.
#[cycle(index_form)]
pub fn index_forms(alloc: Global, terms: &[Term]) -> Result<Vec<ArrayForm>, OutOfMemory>
    ensures { IfOk result (λ fs. forms_of fs.items ≡ index_forms (terms_of terms.now)) }
{
    let mut forms = Vec::new(alloc);
    for t in terms {
        forms.push(index_form(alloc, t)?)?;
    }
    Ok(forms)
}

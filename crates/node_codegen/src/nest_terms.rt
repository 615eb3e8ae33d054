//! The expressions of a nest's texts: an index of the nest, or a scalar whose copy is read, is an index of the form.

ghost use Rattle.std.specs.Prelude.{◌≡◌, [], ◌∷◌, ◌++◌, map, IfOk, OnOk};
ghost use Rattle.program_code.specs.ExpressionCode.{index_form, index_forms, index_subs};
ghost use Rattle.nest_syntax.specs.NestTerms.{all_indexed, indexed};
ghost use Rattle.statement_trail.specs.NestParts.{all_scalars_in, each_once, index_in, of_these, scalars_in};
ghost use Rattle.node_code.specs.Forms.{OperationForm, SectionForm};
ghost use Rattle.node_code.specs.Texts.{form, forms_of, subs};
ghost use Rattle.resolved_program.specs.Resolved.{term, terms_of};
ghost use Rattle.node_codegen.specs.NestNames.{axis_by, copied_by, place_by};

use crate::nest_names::NestNames;
use crate::nest_scalars::is_in;
use anchor_code::nest_flat;
use hpf_base::OutOfMemory;
use node_code::{ArrayForm, Sub};
use op_tables::Op;
use resolved_program::Term;
use std::alloc::Global;

/// An expression in the iterations of a nest.
#[derive(Drop)]
pub(crate) struct NestTerm {
    /// The scalars whose copies it reads.
    pub names: Vec<usize>,
    /// The rows of these copies.
    pub copies: Vec<usize>,
    /// The indices of the nest, and after them these scalars.
    pub axes: Vec<usize>,
    pub form: ArrayForm,
}

/// An expression in a text of a nest.
pub(crate) fn nest_term(alloc: Global, w: &NestNames, t: &Term) -> Result<NestTerm, OutOfMemory>
    ensures names { IfOk result (λ r. r.names.items ≡ copied_by w.now (term t.now)) }
    ensures copies { IfOk result (λ r. r.copies.items ≡ map (place_by w.now) (copied_by w.now (term t.now))) }
    ensures axes { IfOk result (λ r. r.axes.items ≡ w.now.indices.items ++ copied_by w.now (term t.now)) }
    ensures form { IfOk result (λ r. form r.form ≡ index_form (indexed (axis_by w.now (copied_by w.now (term t.now))) (term t.now))) }
{
    let names = copied_in(alloc, &w.scalars, t)?;
    let copies = places(alloc, w, &names)?;
    let axes = both(alloc, &w.indices, &names)?;
    let form = nest_form(alloc, &axes, t)?;
    Ok(NestTerm {
        names,
        copies,
        axes,
        form,
    })
}

/// The rows of names.
fn places(alloc: Global, w: &NestNames, names: &[usize]) -> Result<Vec<usize>, OutOfMemory>
    ensures { IfOk result (λ v. v.items ≡ map (place_by w.now) names.now) }
{
    let mut rows = Vec::new(alloc);
    for k in names {
        rows.push(w.place(*k)?)?;
    }
    Ok(rows)
}

/// Numbers after others.
fn both(alloc: Global, first: &[usize], more: &[usize]) -> Result<Vec<usize>, OutOfMemory>
    ensures { IfOk result (λ v. v.items ≡ first.now ++ more.now) }
{
    let mut all = Vec::new(alloc);
    all.extend_from_slice(first)?;
    all.extend_from_slice(more)?;
    Ok(all)
}

// ---- the scalars whose copies are read

/// Those of these scalars that an expression names, each once.
fn copied_in(alloc: Global, scalars: &[usize], t: &Term) -> Result<Vec<usize>, OutOfMemory>
    ensures { IfOk result (λ v. v.items ≡ each_once (of_these scalars.now (scalars_in (term t.now)))) }
{
    let mut found = Vec::new(alloc);
    add_scalars(&mut found, scalars, t)?;
    each_once(alloc, &found)
}

/// Puts those that an expression names after others.
#[cycle(scalars)]
fn add_scalars(found: &mut Vec<usize>, scalars: &[usize], t: &Term) -> Result<(), OutOfMemory>
    ensures { OnOk result (found.new.items ≡ found.old.items ++ of_these scalars.now (scalars_in (term t.now))) }
{
    match t {
        Term::Scalar(k) => add_one(found, scalars, *k),
        Term::Element(_, subscripts) => add_all_scalars(found, scalars, subscripts),
        Term::Apply(_, operands) => add_all_scalars(found, scalars, operands),
        _ => Ok(()),
    }
}

/// Puts a scalar after others, if it is one of these.
fn add_one(found: &mut Vec<usize>, scalars: &[usize], k: usize) -> Result<(), OutOfMemory>
    ensures { OnOk result (found.new.items ≡ found.old.items ++ of_these scalars.now (k ∷ [])) }
{
    if is_in(k, scalars) {
        found.push(k)?;
    }
    Ok(())
}

/// Puts those that expressions name after others.
#[cycle(scalars)]
fn add_all_scalars(
    found: &mut Vec<usize>,
    scalars: &[usize],
    terms: &Vec<Term>,
) -> Result<(), OutOfMemory>
    ensures { OnOk result (found.new.items ≡ found.old.items ++ of_these scalars.now (all_scalars_in (terms_of terms.now.items))) }
{
    for t in terms {
        add_scalars(found, scalars, t)?;
    }
    Ok(())
}

/// Each number of a list once.
fn each_once(alloc: Global, list: &[usize]) -> Result<Vec<usize>, OutOfMemory>
    ensures { IfOk result (λ v. v.items ≡ each_once list.now) }
{
    let mut once = Vec::new(alloc);
    for i in 0..list.len() {
        if !is_in(list[i], &list[i + 1..]) {
            once.push(list[i])?;
        }
    }
    Ok(once)
}

// ---- forms

/// Subscripts as those of a section.
pub(crate) fn nest_subs(
    alloc: Global,
    axes: &[usize],
    terms: &[Term],
) -> Result<Vec<Sub>, OutOfMemory>
    ensures { IfOk result (λ ds. subs ds.items ≡ index_subs (all_indexed (index_in axes.now 0) (terms_of terms.now))) }
{
    let mut left = Vec::new(alloc);
    for t in terms {
        left.push(Sub::At(nest_flat(alloc, axes, t)?))?;
    }
    Ok(left)
}

/// An expression.
#[cycle(nest_form)]
fn nest_form(alloc: Global, axes: &[usize], t: &Term) -> Result<ArrayForm, OutOfMemory>
    ensures { IfOk result (λ f. form f ≡ index_form (indexed (index_in axes.now 0) (term t.now))) }
{
    match t {
        Term::Element(a, subscripts) => section(alloc, axes, *a, subscripts),
        Term::Apply(op, operands) => operation(alloc, axes, *op, operands),
        _ => Ok(ArrayForm::Flat(nest_flat(alloc, axes, t)?)),
    }
}

/// An element.
fn section(
    alloc: Global,
    axes: &[usize],
    a: usize,
    subscripts: &[Term],
) -> Result<ArrayForm, OutOfMemory>
    ensures { IfOk result (λ f. form f ≡ SectionForm a (index_subs (all_indexed (index_in axes.now 0) (terms_of subscripts.now)))) }
{
    Ok(ArrayForm::Section(a, nest_subs(alloc, axes, subscripts)?))
}

/// An operator.
#[cycle(nest_form)]
fn operation(
    alloc: Global,
    axes: &[usize],
    op: Op,
    operands: &[Term],
) -> Result<ArrayForm, OutOfMemory>
    ensures { IfOk result (λ f. form f ≡ OperationForm op (index_forms (all_indexed (index_in axes.now 0) (terms_of operands.now)))) }
{
    Ok(ArrayForm::Operation(op, nest_forms(alloc, axes, operands)?))
}

/// Expressions in order.
#[cycle(nest_form)]
fn nest_forms(alloc: Global, axes: &[usize], terms: &[Term]) -> Result<Vec<ArrayForm>, OutOfMemory>
    ensures { IfOk result (λ fs. forms_of fs.items ≡ index_forms (all_indexed (index_in axes.now 0) (terms_of terms.now))) }
{
    let mut forms = Vec::new(alloc);
    for t in terms {
        forms.push(nest_form(alloc, axes, t)?)?;
    }
    Ok(forms)
}

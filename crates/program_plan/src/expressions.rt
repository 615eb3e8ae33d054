//! Expressions with their names resolved. An `Err` is want of memory here.

ghost use Rattle.std.specs.Prelude.{◌≡◌, bytes_eq, option_copied, pos, position, slice_index_or, IfOk, OnOk};
ghost use Rattle.op_tables.specs.Operators.{truth};
ghost use Rattle.syntax_tree.specs.Expression.{Element, More as MorePart, Parts, arguments_of, expression, maybe, parts_of, subscript};
ghost use Rattle.syntax_tree.specs.declared.expr.Expr.TheVariants as expr;
ghost use Rattle.array_meaning.specs.Terms.{Apply, More, NoTerm, Number, Reduce, SectionSubscripts, Triplet};
ghost use Rattle.array_meaning.specs.Resolution.{alone, called, first_named, first_term, is_element, is_one, no_dim, place_of, section_subscript, section_subscripts, term_of, term_or, terms_of, whole};
ghost use Rattle.name_table.specs.Entries.{declared_as};
ghost use Rattle.expression_rules.specs.Partial.{maybe_of};
ghost use Rattle.resolved_program.specs.Made.{terms_before};
ghost use Rattle.resolved_program.specs.Resolved.{subscripts_of, term, with_subscript};
ghost use Rattle.resolved_program.specs.Resolved as plan;

use crate::constants::inquiry;
use crate::named::{dims_of, first_named, index_of, place_of};
use expression_rules::Dim;
use hpf_base::{Name, OutOfMemory};
use name_table::{Names, What};
use op_tables::{Op, is_inquiry, is_reduction};
use resolved_program::{SectionSubscript, Term};
use std::alloc::Global;
use syntax_tree::{Expr, Ref, Subscript};

/// An expression, over the declared names and before them the indices of a FORALL.
#[cycle(term)]
pub(crate) fn term(
    alloc: Global,
    names: &Names,
    indices: &[Name],
    e: &Expr,
) -> Result<Term, OutOfMemory>
    ensures { IfOk result (λ t. term t ≡ term_of names.now indices.now (expression e.now)) }
{
    match e {
        Expr::Int(n) => Ok(Term::Number(*n)),
        Expr::Bool(b) => Ok(Term::Number(truth(*b))),
        Expr::Ref(reference) => reference_term(alloc, names, indices, reference),
        Expr::Unary(op, a) => {
            let a = term(alloc, names, indices, a)?;
            unary(alloc, *op, a)
        }
        Expr::Binary(op, a, b) => {
            let a = term(alloc, names, indices, a)?;
            let b = term(alloc, names, indices, b)?;
            binary(alloc, *op, a, b)
        }
        Expr::Call(op, arguments) => called(alloc, names, indices, *op, arguments),
        Expr::Paren(a) => term(alloc, names, indices, a),
    }
}

/// A name, with the subscripts after it.
#[cycle(term)]
pub(crate) fn reference_term(
    alloc: Global,
    names: &Names,
    indices: &[Name],
    reference: &Ref,
) -> Result<Term, OutOfMemory>
    ensures { IfOk result (λ t. term t ≡ term_of names.now indices.now (expression (expr.Ref reference.now))) }
{
    match &reference.subs {
        None => alone(alloc, names, indices, &reference.name),
        Some(parts) => subscripted(alloc, names, indices, &reference.name, parts),
    }
}

/// An array with subscripts.
#[cycle(term)]
fn subscripted(
    alloc: Global,
    names: &Names,
    indices: &[Name],
    name: &Name,
    parts: &[Subscript],
) -> Result<Term, OutOfMemory>
    ensures { IfOk result (λ t. term t ≡ term_of names.now indices.now (Element name.now (parts_of parts.now))) }
{
    let place = place_of(names, name);
    if is_element(parts) {
        let subscripts = subscript_terms(alloc, names, indices, parts)?;
        Ok(Term::Element(place, subscripts))
    } else {
        let dims = dims_of(names.declared_as(name));
        let subscripts = section_subscripts(alloc, names, indices, dims, parts)?;
        Ok(Term::Section(place, subscripts))
    }
}

/// The subscripts of an element, in order.
#[cycle(term)]
fn subscript_terms(
    alloc: Global,
    names: &Names,
    indices: &[Name],
    parts: &[Subscript],
) -> Result<Vec<Term>, OutOfMemory>
    ensures { IfOk result (λ ts. plan.terms_of ts.items ≡ terms_of names.now indices.now (parts_of parts.now)) }
{
    let mut terms = Vec::new(alloc);
    for part in parts {
        add_term(alloc, names, indices, part, &mut terms)?;
    }
    Ok(terms)
}

/// One more subscript of an element, at the end.
#[cycle(term)]
fn add_term(
    alloc: Global,
    names: &Names,
    indices: &[Name],
    part: &Subscript,
    terms: &mut Vec<Term>,
) -> Result<(), OutOfMemory>
    ensures { OnOk result ((rest : Parts) →
        terms_before terms.new.items (terms_of names.now indices.now rest) ≡ terms_before terms.old.items (terms_of names.now indices.now (MorePart (subscript part.now) rest))) }
{
    match part {
        Subscript::One(e) => {
            let t = term(alloc, names, indices, e)?;
            terms.push(t)?;
            Ok(())
        }
        Subscript::Triplet { .. } => Ok(()),
    }
}

/// The subscripts of a section of an array with these dimensions, in order.
#[cycle(term)]
fn section_subscripts(
    alloc: Global,
    names: &Names,
    indices: &[Name],
    dims: &[Dim],
    parts: &[Subscript],
) -> Result<Vec<SectionSubscript>, OutOfMemory>
    ensures { IfOk result (λ ds. subscripts_of ds.items ≡ section_subscripts names.now indices.now dims.now (parts_of parts.now)) }
{
    let mut subscripts = Vec::new(alloc);
    for part in parts {
        let dim = dim_at(dims, subscripts.len());
        let subscript = section_subscript(alloc, names, indices, &dim, part)?;
        subscripts.push(subscript)?;
    }
    Ok(subscripts)
}

/// A subscript of a section, in a dimension. What is left out of a triplet is the declared bound, or 1 (Fortran 95, 6.2.2.3).
#[cycle(term)]
fn section_subscript(
    alloc: Global,
    names: &Names,
    indices: &[Name],
    dim: &Dim,
    part: &Subscript,
) -> Result<SectionSubscript, OutOfMemory>
    ensures { IfOk result (λ d. (rest : SectionSubscripts) → with_subscript d rest ≡ section_subscript names.now indices.now dim.now (subscript part.now) rest) }
{
    match part {
        Subscript::One(e) => {
            let t = term(alloc, names, indices, e)?;
            Ok(SectionSubscript::Subscript(t))
        }
        Subscript::Triplet { first, last, step } => {
            let first = term_or(alloc, names, indices, &dim.lower, first)?;
            let last = term_or(alloc, names, indices, &dim.upper, last)?;
            let step = term_or(alloc, names, indices, &1, step)?;
            Ok(SectionSubscript::Triplet(first, last, step))
        }
    }
}

/// An expression, or a number where it is left out.
#[cycle(term)]
fn term_or(
    alloc: Global,
    names: &Names,
    indices: &[Name],
    n: &i64,
    e: &Option<Expr>,
) -> Result<Term, OutOfMemory>
    ensures { IfOk result (λ t. term t ≡ term_or names.now indices.now n.now (maybe_of e.now)) }
{
    match e {
        None => Ok(Term::Number(*n)),
        Some(e) => term(alloc, names, indices, e),
    }
}

/// A call of an intrinsic procedure.
#[cycle(term)]
fn called(
    alloc: Global,
    names: &Names,
    indices: &[Name],
    op: Op,
    arguments: &[Expr],
) -> Result<Term, OutOfMemory>
    ensures { IfOk result (λ t. term t ≡ called names.now indices.now op (arguments_of arguments.now) (terms_of names.now indices.now (arguments_of arguments.now))) }
{
    let terms = argument_terms(alloc, names, indices, arguments)?;
    if is_inquiry(op) {
        inquiry(alloc, op, dims_of(first_named(names, arguments)), &terms)
    } else if is_reduction(op) {
        reduction(alloc, op, terms)
    } else {
        Ok(Term::Apply(op, terms))
    }
}

/// The arguments of a call, in order.
#[cycle(term)]
fn argument_terms(
    alloc: Global,
    names: &Names,
    indices: &[Name],
    arguments: &[Expr],
) -> Result<Vec<Term>, OutOfMemory>
    ensures { IfOk result (λ ts. plan.terms_of ts.items ≡ terms_of names.now indices.now (arguments_of arguments.now)) }
{
    let mut terms = Vec::new(alloc);
    for e in arguments {
        let t = term(alloc, names, indices, e)?;
        terms.push(t)?;
    }
    Ok(terms)
}

/// A name by itself.
fn alone(alloc: Global, names: &Names, indices: &[Name], name: &Name) -> Result<Term, OutOfMemory>
    ensures { IfOk result (λ t. term t ≡ alone (position (bytes_eq name.now) indices.now) (place_of names.now name.now) (declared_as names.now name.now)) }
{
    match index_of(indices, name) {
        Some(k) => Ok(Term::Index(k)),
        None => variable(alloc, place_of(names, name), names.declared_as(name)),
    }
}

/// What is declared, by itself.
fn variable(alloc: Global, place: usize, what: Option<&What>) -> Result<Term, OutOfMemory>
    ensures { IfOk result (λ t. term t ≡ alone None place (option_copied what.entry)) }
{
    match what {
        Some(what) => declared(alloc, place, what),
        None => Ok(Term::Number(0)),
    }
}

/// A scalar, a constant or an array by itself.
fn declared(alloc: Global, place: usize, what: &What) -> Result<Term, OutOfMemory>
    ensures { IfOk result (λ t. term t ≡ alone None place (Some what.now)) }
{
    match what {
        What::Scalar(_) => Ok(Term::Scalar(place)),
        What::Constant(v) => Ok(Term::Number(*v)),
        What::Array(dims, _) => {
            let subscripts = whole(alloc, dims.as_slice())?;
            Ok(Term::Section(place, subscripts))
        }
        _ => Ok(Term::Number(0)),
    }
}

/// The subscripts of the section that is a whole array, by its declared bounds.
fn whole(alloc: Global, dims: &[Dim]) -> Result<Vec<SectionSubscript>, OutOfMemory>
    ensures { IfOk result (λ ds. subscripts_of ds.items ≡ whole dims.now) }
{
    let mut subscripts = Vec::new(alloc);
    for dim in dims {
        subscripts.push(all_of(dim))?;
    }
    Ok(subscripts)
}

/// The subscript of a whole dimension.
fn all_of(dim: &Dim) -> SectionSubscript
    ensures { (rest : SectionSubscripts) → with_subscript result rest ≡ Triplet (Number dim.now.lower) (Number dim.now.upper) (Number (pos 1)) rest }
{
    SectionSubscript::Triplet(
        Term::Number(dim.lower),
        Term::Number(dim.upper),
        Term::Number(1),
    )
}

/// Each subscript is one value.
fn is_element(parts: &[Subscript]) -> bool
    ensures { result ≡ is_element (parts_of parts.now) }
{
    let mut all = true;
    for part in parts {
        all &= is_one(part);
    }
    all
}

/// A subscript is one value.
fn is_one(part: &Subscript) -> bool
    ensures { result ≡ is_one (subscript part.now) }
{
    matches!(part, Subscript::One(_))
}

/// The dimension at a place; an empty one where there is none.
fn dim_at(dims: &[Dim], place: usize) -> Dim
    ensures { result ≡ slice_index_or dims.now place no_dim }
{
    match dims.get(place) {
        Some(dim) => *dim,
        None => Dim { lower: 1, upper: 0 },
    }
}

/// An operator with one operand.
fn unary(alloc: Global, op: Op, a: Term) -> Result<Term, OutOfMemory>
    ensures { IfOk result (λ t. term t ≡ Apply op (More (term a) NoTerm)) }
{
    Ok(Term::Apply(op, vec![in alloc; a]?))
}

/// An operator with two operands.
fn binary(alloc: Global, op: Op, a: Term, b: Term) -> Result<Term, OutOfMemory>
    ensures { IfOk result (λ t. term t ≡ Apply op (More (term a) (More (term b) NoTerm))) }
{
    Ok(Term::Apply(op, vec![in alloc; a, b]?))
}

/// A reduction of the first argument.
fn reduction(alloc: Global, op: Op, arguments: Vec<Term>) -> Result<Term, OutOfMemory>
    ensures { IfOk result (λ t. term t ≡ Reduce op (first_term (plan.terms_of arguments.items))) }
{
    let first = first_term(arguments);
    Ok(Term::Reduce(op, Box::new(alloc, first)?))
}

/// The first of some terms.
fn first_term(mut terms: Vec<Term>) -> Term
    ensures { term result ≡ first_term (plan.terms_of terms.items) }
{
    if terms.is_empty() {
        Term::Number(0)
    } else {
        terms.swap_remove(0)
    }
}

/// The number of a logical value.
fn truth(value: bool) -> i64
    ensures { result ≡ truth value }
{
    if value { 1 } else { 0 }
}

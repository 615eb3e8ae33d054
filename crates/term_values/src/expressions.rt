//! The values of scalar expressions, and what array expressions evaluate once.

ghost use Rattle.std.specs.Prelude.{◌≡◌, length, IfOk, IfErr, Ok, [], ◌∷◌};
ghost use Rattle.array_meaning.specs.Expressions.{value, values, elemental as evaluated, elementals, selections};
ghost use Rattle.array_meaning.specs.Terms.{More, NoTerm};
ghost use Rattle.resolved_program.specs.Resolved.{term, terms_of, subscripts_of};
ghost use Rattle.term_values.specs.Parts.{element_value, operation, operation_value, reduction_value, same, selected, selection, variable_place};
ghost use Rattle.term_values.specs.States.{state_of};
ghost use Rattle.term_values.specs.Views.{elemental, elementals_of};
ghost use Rattle.term_values.specs.Stops.{IsStop};

use crate::array_values::Elemental;
use crate::elements::{
    element, element_of_one, element_of_two, element_place, operated, operated_of_two,
    place_of_one, place_of_two,
};
use crate::reductions::reduction;
use crate::sequences::sequence;
use crate::state::{State, number_at};
use crate::stops::Stop;
use crate::wrapping::Pair;
use array_meaning::Selection;
use op_tables::Op;
use resolved_program::{SectionSubscript, Term};
use smallvec::SmallVec;

/// The value of a scalar expression (Fortran 95, 7.1.7), or its first fault; `indices` are the values of the indices of a FORALL, and
/// none elsewhere.
#[inline(always)]
#[cycle(value)]
pub fn value(s: &State, indices: &[i64], t: &Term) -> Result<i64, Stop>
    ensures value { IfOk result (λ v. value indices.now (state_of s.now) (term t.now) ≡ Ok v) }
    ensures stopped { IfErr result (IsStop (value indices.now (state_of s.now) (term t.now))) }
{
    match t {
        Term::Number(n) => Ok(*n),
        Term::Scalar(k) => Ok(s.scalar(*k)),
        Term::Index(k) => Ok(number_at(indices, *k)),
        Term::Element(a, subscripts) => element_value(s, indices, *a, subscripts),
        Term::Section(_, _) => Ok(0),
        Term::Apply(op, operands) => operation_value(s, indices, *op, operands),
        Term::Reduce(op, t) => reduction_value(s, indices, *op, t),
    }
}

/// The place of an element in array element order, from 0, whose subscripts are evaluated first, from left to right; the first fault of
/// a subscript, or one where a subscript is out of bounds. It takes no memory for one or two subscripts without calls that take some.
pub fn variable_place(
    s: &State,
    indices: &[i64],
    a: usize,
    subscripts: &Vec<Term>,
) -> Result<usize, Stop>
    ensures value { IfOk result (λ k. variable_place indices.now (state_of s.now) a (terms_of subscripts.now.items) ≡ Ok k) }
    ensures stopped { IfErr result (IsStop (variable_place indices.now (state_of s.now) a (terms_of subscripts.now.items))) }
{
    if subscripts.len() == 1 {
        return place_by_one(s, indices, a, &subscripts[0]);
    }
    if subscripts.len() == 2 {
        return place_by_two(s, indices, a, subscripts);
    }
    let subscripts = values(s, indices, subscripts)?;
    element_place(s, a, subscripts.as_slice())
}

/// The place of the element with one subscript, from 0; the fault of the subscript, or one where it is out of bounds.
fn place_by_one(s: &State, indices: &[i64], a: usize, subscript: &Term) -> Result<usize, Stop>
    ensures value { IfOk result (λ k. variable_place indices.now (state_of s.now) a (More (term subscript.now) NoTerm) ≡ Ok k) }
    ensures stopped { IfErr result (IsStop (variable_place indices.now (state_of s.now) a (More (term subscript.now) NoTerm))) }
{
    let i = value(s, indices, subscript)?;
    let k = place_of_one(s, a, &i)?;
    Ok(k)
}

/// The place, in array element order from 0, of the element with two subscripts, which are evaluated from left to right; the first
/// fault of a subscript, or one where a subscript is out of bounds.
fn place_by_two(s: &State, indices: &[i64], a: usize, subscripts: &Vec<Term>) -> Result<usize, Stop>
    requires two { length subscripts.now.items ≡ 2 }
    ensures value { IfOk result (λ k. variable_place indices.now (state_of s.now) a (terms_of subscripts.now.items) ≡ Ok k) }
    ensures stopped { IfErr result (IsStop (variable_place indices.now (state_of s.now) a (terms_of subscripts.now.items))) }
{
    let pair = two_values(s, indices, subscripts)?;
    place_of_two(s, a, &pair.first, &pair.second)
}

/// The value of an element.
#[inline(never)]
#[cycle(value)]
fn element_value(s: &State, indices: &[i64], a: usize, subscripts: &Vec<Term>) -> Result<i64, Stop>
    ensures value { IfOk result (λ v. element_value indices.now (state_of s.now) a (terms_of subscripts.now.items) ≡ Ok v) }
    ensures stopped { IfErr result (IsStop (element_value indices.now (state_of s.now) a (terms_of subscripts.now.items))) }
{
    if subscripts.len() == 1 {
        return only_element(s, indices, a, &subscripts[0]);
    }
    if subscripts.len() == 2 {
        return element_by_two(s, indices, a, subscripts);
    }
    many_subscripts(s, indices, a, subscripts)
}

/// The value of an element with any number of subscripts.
#[inline(never)]
#[cycle(value)]
fn many_subscripts(
    s: &State,
    indices: &[i64],
    a: usize,
    subscripts: &Vec<Term>,
) -> Result<i64, Stop>
    ensures value { IfOk result (λ v. element_value indices.now (state_of s.now) a (terms_of subscripts.now.items) ≡ Ok v) }
    ensures stopped { IfErr result (IsStop (element_value indices.now (state_of s.now) a (terms_of subscripts.now.items))) }
{
    let subscripts = values(s, indices, subscripts)?;
    element(s, a, subscripts.as_slice())
}

/// The value of an element with one subscript.
#[cycle(value)]
fn only_element(s: &State, indices: &[i64], a: usize, subscript: &Term) -> Result<i64, Stop>
    ensures value { IfOk result (λ v. element_value indices.now (state_of s.now) a (More (term subscript.now) NoTerm) ≡ Ok v) }
    ensures stopped { IfErr result (IsStop (element_value indices.now (state_of s.now) a (More (term subscript.now) NoTerm))) }
{
    let i = value(s, indices, subscript)?;
    let v = element_of_one(s, a, &i)?;
    Ok(v)
}

/// The value of an element with two subscripts.
#[cycle(value)]
fn element_by_two(s: &State, indices: &[i64], a: usize, subscripts: &Vec<Term>) -> Result<i64, Stop>
    requires two { length subscripts.now.items ≡ 2 }
    ensures value { IfOk result (λ v. element_value indices.now (state_of s.now) a (terms_of subscripts.now.items) ≡ Ok v) }
    ensures stopped { IfErr result (IsStop (element_value indices.now (state_of s.now) a (terms_of subscripts.now.items))) }
{
    let pair = two_values(s, indices, subscripts)?;
    element_of_two(s, a, &pair.first, &pair.second)
}

/// The value of an operator.
#[inline(never)]
#[cycle(value)]
fn operation_value(s: &State, indices: &[i64], op: Op, operands: &Vec<Term>) -> Result<i64, Stop>
    ensures value { IfOk result (λ v. operation_value indices.now (state_of s.now) op (terms_of operands.now.items) ≡ Ok v) }
    ensures stopped { IfErr result (IsStop (operation_value indices.now (state_of s.now) op (terms_of operands.now.items))) }
{
    if operands.len() == 2 {
        return operation_of_two(s, indices, op, operands);
    }
    many_operands(s, indices, op, operands)
}

/// The value of an operator of two operands.
#[cycle(value)]
fn operation_of_two(s: &State, indices: &[i64], op: Op, operands: &Vec<Term>) -> Result<i64, Stop>
    requires two { length operands.now.items ≡ 2 }
    ensures value { IfOk result (λ v. operation_value indices.now (state_of s.now) op (terms_of operands.now.items) ≡ Ok v) }
    ensures stopped { IfErr result (IsStop (operation_value indices.now (state_of s.now) op (terms_of operands.now.items))) }
{
    let pair = two_values(s, indices, operands)?;
    operated_of_two(op, &pair.first, &pair.second)
}

/// The value of an operator of any number of operands.
#[inline(never)]
#[cycle(value)]
fn many_operands(s: &State, indices: &[i64], op: Op, operands: &Vec<Term>) -> Result<i64, Stop>
    ensures value { IfOk result (λ v. operation_value indices.now (state_of s.now) op (terms_of operands.now.items) ≡ Ok v) }
    ensures stopped { IfErr result (IsStop (operation_value indices.now (state_of s.now) op (terms_of operands.now.items))) }
{
    let operands = values(s, indices, operands)?;
    operated(op, operands.as_slice())
}

/// The values of two expressions in order, or the first fault.
#[inline(always)]
#[tactic(auto, using(crate::proofs::Pairs::pair_values, crate::proofs::Pairs::first_stops, crate::proofs::Pairs::second_stops))]
#[cycle(value)]
fn two_values(s: &State, indices: &[i64], terms: &Vec<Term>) -> Result<Pair, Stop>
    requires two { length terms.now.items ≡ 2 }
    ensures value { IfOk result (λ p. values indices.now (state_of s.now) (terms_of terms.now.items) ≡ Ok (p.first ∷ p.second ∷ [])) }
    ensures stopped { IfErr result (IsStop (values indices.now (state_of s.now) (terms_of terms.now.items))) }
{
    let first = value(s, indices, &terms[0])?;
    let second = value(s, indices, &terms[1])?;
    Ok(Pair { first, second })
}

/// The value of a reduction.
#[inline(never)]
#[cycle(value)]
fn reduction_value(s: &State, indices: &[i64], op: Op, t: &Term) -> Result<i64, Stop>
    ensures value { IfOk result (λ v. reduction_value indices.now (state_of s.now) op (term t.now) ≡ Ok v) }
    ensures stopped { IfErr result (IsStop (reduction_value indices.now (state_of s.now) op (term t.now))) }
{
    let x = elemental_of(s, indices, t)?;
    let v = reduction(s, op, &x)?;
    Ok(v)
}

/// The values of expressions in order, or the first fault.
#[cycle(value)]
pub fn values(s: &State, indices: &[i64], terms: &Vec<Term>) -> Result<SmallVec<i64, 7>, Stop>
    ensures value { IfOk result (λ vs. values indices.now (state_of s.now) (terms_of terms.now.items) ≡ Ok vs.items) }
    ensures stopped { IfErr result (IsStop (values indices.now (state_of s.now) (terms_of terms.now.items))) }
{
    let mut vs = SmallVec::new(*s.scalars.allocator());
    for t in terms {
        let v = value(s, indices, t)?;
        vs.push(v)?;
    }
    Ok(vs)
}

/// What the subscripts of a section select, the first dimension first; or the first fault.
#[cycle(value)]
pub fn selections(
    s: &State,
    indices: &[i64],
    ds: &Vec<SectionSubscript>,
) -> Result<Vec<Selection>, Stop>
    ensures value { IfOk result (λ r. selections indices.now (state_of s.now) (subscripts_of ds.now.items) ≡ Ok r.items) }
    ensures stopped { IfErr result (IsStop (selections indices.now (state_of s.now) (subscripts_of ds.now.items))) }
{
    let mut r = Vec::new(*s.scalars.allocator());
    for d in ds {
        let selected = selection(s, indices, d)?;
        r.push(selected)?;
    }
    Ok(r)
}

/// What one of them selects.
#[cycle(value)]
fn selection(s: &State, indices: &[i64], d: &SectionSubscript) -> Result<Selection, Stop>
    ensures value { IfOk result (λ r. selection indices.now (state_of s.now) d.now ≡ Ok r) }
    ensures stopped { IfErr result (IsStop (selection indices.now (state_of s.now) d.now)) }
{
    match d {
        SectionSubscript::Subscript(t) => {
            let i = value(s, indices, t)?;
            Ok(Selection::At(i))
        }
        SectionSubscript::Triplet(first, last, step) => {
            let first = value(s, indices, first)?;
            let last = value(s, indices, last)?;
            let step = value(s, indices, step)?;
            let p = sequence(first, last, step)?;
            Ok(Selection::Along(p))
        }
    }
}

/// An array expression with its parts evaluated, which are triplets, scalar subscripts, elements and reductions; or its first fault.
#[cycle(value)]
pub fn elemental_of(s: &State, indices: &[i64], t: &Term) -> Result<Elemental, Stop>
    ensures value { IfOk result (λ x. evaluated indices.now (state_of s.now) (term t.now) ≡ Ok (elemental x)) }
    ensures stopped { IfErr result (IsStop (evaluated indices.now (state_of s.now) (term t.now))) }
{
    match t {
        Term::Number(n) => Ok(Elemental::Same(*n)),
        Term::Scalar(k) => Ok(Elemental::Same(s.scalar(*k))),
        Term::Index(k) => Ok(Elemental::Same(number_at(indices, *k))),
        Term::Element(a, subscripts) => same_element(s, indices, *a, subscripts),
        Term::Section(a, subscripts) => selected(s, indices, *a, subscripts),
        Term::Apply(op, operands) => operation(s, indices, *op, operands),
        Term::Reduce(op, t) => same_reduction(s, indices, *op, t),
    }
}

/// An element, which has the same value at each tuple.
#[cycle(value)]
fn same_element(
    s: &State,
    indices: &[i64],
    a: usize,
    subscripts: &Vec<Term>,
) -> Result<Elemental, Stop>
    ensures value { IfOk result (λ x. same (element_value indices.now (state_of s.now) a (terms_of subscripts.now.items)) ≡ Ok (elemental x)) }
    ensures stopped { IfErr result (IsStop (same (element_value indices.now (state_of s.now) a (terms_of subscripts.now.items)))) }
{
    let v = element_value(s, indices, a, subscripts)?;
    Ok(Elemental::Same(v))
}

/// A reduction, which has the same value at each tuple.
#[cycle(value)]
fn same_reduction(s: &State, indices: &[i64], op: Op, t: &Term) -> Result<Elemental, Stop>
    ensures value { IfOk result (λ x. same (reduction_value indices.now (state_of s.now) op (term t.now)) ≡ Ok (elemental x)) }
    ensures stopped { IfErr result (IsStop (same (reduction_value indices.now (state_of s.now) op (term t.now)))) }
{
    let v = reduction_value(s, indices, op, t)?;
    Ok(Elemental::Same(v))
}

/// A section.
#[cycle(value)]
fn selected(
    s: &State,
    indices: &[i64],
    a: usize,
    ds: &Vec<SectionSubscript>,
) -> Result<Elemental, Stop>
    ensures value { IfOk result (λ x. selected indices.now (state_of s.now) a (subscripts_of ds.now.items) ≡ Ok (elemental x)) }
    ensures stopped { IfErr result (IsStop (selected indices.now (state_of s.now) a (subscripts_of ds.now.items))) }
{
    let r = selections(s, indices, ds)?;
    Ok(Elemental::Selected(a, r))
}

/// An operator.
#[cycle(value)]
fn operation(s: &State, indices: &[i64], op: Op, operands: &Vec<Term>) -> Result<Elemental, Stop>
    ensures value { IfOk result (λ x. operation indices.now (state_of s.now) op (terms_of operands.now.items) ≡ Ok (elemental x)) }
    ensures stopped { IfErr result (IsStop (operation indices.now (state_of s.now) op (terms_of operands.now.items))) }
{
    let xs = elementals(s, indices, operands)?;
    Ok(Elemental::Operation(op, xs))
}

/// The operands of an operator in order, or the first fault.
#[cycle(value)]
fn elementals(s: &State, indices: &[i64], terms: &Vec<Term>) -> Result<Vec<Elemental>, Stop>
    ensures value { IfOk result (λ xs. elementals indices.now (state_of s.now) (terms_of terms.now.items) ≡ Ok (elementals_of xs.items)) }
    ensures stopped { IfErr result (IsStop (elementals indices.now (state_of s.now) (terms_of terms.now.items))) }
{
    let mut xs = Vec::new(*s.scalars.allocator());
    for t in terms {
        let x = elemental_of(s, indices, t)?;
        xs.push(x)?;
    }
    Ok(xs)
}

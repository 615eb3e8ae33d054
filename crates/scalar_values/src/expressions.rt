//! The values of scalar expressions, and the places of elements.

ghost use Rattle.std.specs.Prelude.{◌≡◌, [], length};
ghost use Rattle.array_meaning.specs.Expressions.{value};
ghost use Rattle.array_meaning.specs.Terms.{More, NoTerm};
ghost use Rattle.resolved_program.specs.Resolved.{term, terms_of};
ghost use Rattle.term_values.specs.Parts.{element_value, operation_value, variable_place};
ghost use Rattle.term_values.specs.States.{state_of};
ghost use Rattle.scalar_values.specs.Known.{IsKnown, IsKnownPlace};

use crate::elements::{element_at, place_of_one, place_of_two};
use crate::indices::{IndexValues, Indices, NoIndices};
use crate::known_results::{Known, KnownPlace, found, unknown, unknown_place};
use crate::operators::{value_of_one, value_of_two};
use op_tables::Op;
use resolved_program::Term;
use term_values::State;

/// The value of a scalar expression (Fortran 95, 7.1.7), where it is known. It takes no memory.
#[inline(always)]
pub fn known_value(s: &State, t: &Term) -> Known
    ensures { IsKnown (value [] (state_of s.now) (term t.now)) result }
{
    value(s, &NoIndices, t)
}

/// The same at a tuple of a FORALL, where its indices have these values.
#[inline(always)]
pub fn known_value_at(s: &State, indices: &[i64], t: &Term) -> Known
    ensures { IsKnown (value indices.now (state_of s.now) (term t.now)) result }
{
    value(s, &IndexValues { values: indices }, t)
}

/// The place of an element in array element order, from 0, whose subscripts are evaluated, where it is known. It takes no memory.
#[inline(always)]
pub fn known_place(s: &State, a: usize, subscripts: &Vec<Term>) -> KnownPlace
    ensures { IsKnownPlace (variable_place [] (state_of s.now) a (terms_of subscripts.now.items)) result }
{
    place(s, &NoIndices, a, subscripts)
}

/// The same at a tuple of a FORALL, where its indices have these values.
#[inline(always)]
pub fn known_place_at(s: &State, indices: &[i64], a: usize, subscripts: &Vec<Term>) -> KnownPlace
    ensures { IsKnownPlace (variable_place indices.now (state_of s.now) a (terms_of subscripts.now.items)) result }
{
    place(s, &IndexValues { values: indices }, a, subscripts)
}

/// The value of an expression.
#[inline(always)]
#[cycle(value)]
fn value<I: Indices>(s: &State, indices: &I, t: &Term) -> Known
    ensures { IsKnown (value (I.values indices.now) (state_of s.now) (term t.now)) result }
{
    match t {
        Term::Number(n) => found(*n),
        Term::Scalar(k) => found(s.scalar(*k)),
        Term::Index(k) => found(indices.value(*k)),
        Term::Apply(op, operands) => operation(s, indices, *op, operands),
        _ => value_of_element(s, indices, t),
    }
}

/// The value of an element; of no other form.
#[inline(never)]
#[cycle(value)]
fn value_of_element<I: Indices>(s: &State, indices: &I, t: &Term) -> Known
    ensures { IsKnown (value (I.values indices.now) (state_of s.now) (term t.now)) result }
{
    match t {
        Term::Element(a, subscripts) => element(s, indices, *a, subscripts),
        _ => unknown(),
    }
}

/// The value of an element by its subscripts.
#[inline(always)]
#[tactic(auto, using(crate::proofs::KnownParts::element_is))]
#[cycle(value)]
fn element<I: Indices>(s: &State, indices: &I, a: usize, subscripts: &Vec<Term>) -> Known
    ensures { IsKnown (element_value (I.values indices.now) (state_of s.now) a (terms_of subscripts.now.items)) result }
{
    if subscripts.len() != 1 {
        return element_by_two(s, indices, a, subscripts);
    }
    let p = place_by_one(s, indices, a, &subscripts[0]);
    if p.known {
        found(element_at(s, a, p.place))
    } else {
        unknown()
    }
}

/// The value of an element with two subscripts.
#[inline(never)]
#[tactic(auto, using(crate::proofs::KnownParts::element_is))]
#[cycle(value)]
fn element_by_two<I: Indices>(s: &State, indices: &I, a: usize, subscripts: &Vec<Term>) -> Known
    ensures { IsKnown (element_value (I.values indices.now) (state_of s.now) a (terms_of subscripts.now.items)) result }
{
    let p = place_by_two(s, indices, a, subscripts);
    if p.known {
        found(element_at(s, a, p.place))
    } else {
        unknown()
    }
}

/// The place of an element.
#[inline(always)]
fn place<I: Indices>(s: &State, indices: &I, a: usize, subscripts: &Vec<Term>) -> KnownPlace
    ensures { IsKnownPlace (variable_place (I.values indices.now) (state_of s.now) a (terms_of subscripts.now.items)) result }
{
    if subscripts.len() == 1 {
        return place_by_one(s, indices, a, &subscripts[0]);
    }
    place_of_two_subscripts(s, indices, a, subscripts)
}

/// The place of an element with two subscripts, by itself.
#[inline(never)]
fn place_of_two_subscripts<I: Indices>(
    s: &State,
    indices: &I,
    a: usize,
    subscripts: &Vec<Term>,
) -> KnownPlace
    ensures { IsKnownPlace (variable_place (I.values indices.now) (state_of s.now) a (terms_of subscripts.now.items)) result }
{
    place_by_two(s, indices, a, subscripts)
}

/// The place by one subscript.
#[inline(always)]
#[tactic(auto, using(crate::proofs::KnownParts::place_by_one))]
#[cycle(value)]
fn place_by_one<I: Indices>(s: &State, indices: &I, a: usize, subscript: &Term) -> KnownPlace
    ensures { IsKnownPlace (variable_place (I.values indices.now) (state_of s.now) a (More (term subscript.now) NoTerm)) result }
{
    let i = value(s, indices, subscript);
    if !i.known {
        return unknown_place();
    }
    place_of_one(s, a, &i.value)
}

/// The place by two subscripts; where there are more or fewer it isn't known.
#[inline(always)]
#[tactic(auto, using(crate::proofs::KnownParts::place_by_two))]
#[cycle(value)]
fn place_by_two<I: Indices>(s: &State, indices: &I, a: usize, subscripts: &Vec<Term>) -> KnownPlace
    ensures { IsKnownPlace (variable_place (I.values indices.now) (state_of s.now) a (terms_of subscripts.now.items)) result }
{
    if subscripts.len() != 2 {
        return unknown_place();
    }
    let i = value(s, indices, &subscripts[0]);
    if !i.known {
        return unknown_place();
    }
    let j = value(s, indices, &subscripts[1]);
    if !j.known {
        return unknown_place();
    }
    place_of_two(s, a, &i.value, &j.value)
}

/// The value of an operator.
#[inline(never)]
#[tactic(auto, using(crate::proofs::KnownParts::operation_of_two))]
#[cycle(value)]
fn operation<I: Indices>(s: &State, indices: &I, op: Op, operands: &Vec<Term>) -> Known
    ensures { IsKnown (operation_value (I.values indices.now) (state_of s.now) op (terms_of operands.now.items)) result }
{
    if operands.len() != 2 {
        return operation_of_one(s, indices, op, operands);
    }
    let a = value(s, indices, &operands[0]);
    if !a.known {
        return unknown();
    }
    let b = value(s, indices, &operands[1]);
    if !b.known {
        return unknown();
    }
    value_of_two(op, &a.value, &b.value)
}

/// The value of an operator of one operand; where there are more or none it isn't known.
#[inline(never)]
#[tactic(auto, using(crate::proofs::KnownParts::operation_of_one))]
#[cycle(value)]
fn operation_of_one<I: Indices>(s: &State, indices: &I, op: Op, operands: &Vec<Term>) -> Known
    ensures { IsKnown (operation_value (I.values indices.now) (state_of s.now) op (terms_of operands.now.items)) result }
{
    if operands.len() != 1 {
        return unknown();
    }
    let a = value(s, indices, &operands[0]);
    if !a.known {
        return unknown();
    }
    value_of_one(op, &a.value)
}

//! The entry of a nest of INDEPENDENT loops (HPF 2.0, 5.1).

ghost use Rattle.std.specs.Prelude.{◌≡◌, ◌<◌, ◌^◌, pos, ◌+ℤ◌, IfOk, IfErr, Ok, Some, box_value, option_map};
ghost use Rattle.array_meaning.specs.Forall.{indices_at};
ghost use Rattle.array_meaning.specs.Faults.{Between};
ghost use Rattle.array_meaning.specs.NestEntry.{entered, object_of, object_subscripts, subscripts_of_place, unless_clash};
ghost use Rattle.array_meaning.specs.State.{array};
ghost use Rattle.expression_rules.specs.Dims.{AreDims, IsDim};
ghost use Rattle.resolved_program.specs.Resolved.{block_of, loop_of, mark};
ghost use Rattle.term_values.specs.States.{state_of};
ghost use Rattle.term_values.specs.Stops.{IsStop, interference, object};
ghost use Rattle.interference.specs.Clashes.{clash};
ghost use Rattle.interference.specs.Entry.{check_space};

use crate::clashes::{Clash, first_clash};
use crate::indices::{IterationSpace, indices_at, innermost, iteration_space};
use crate::limits::{is_nest_in_limits, tuples};
use array_meaning::FaultKind;
use expression_rules::{Dim, extent};
use resolved_program::{Loop, Nest, Statement};
use std::alloc::{AllocError, Global};
use term_values::{Cause, Interference, Number, Object, Place, State, Stop, divided, fault};

/// Whether a nest is entered, at its outermost loop and the body of that (HPF 2.0, 5.1): a fault where it is beyond the limits, and else
/// one between the first two of its iterations that interfere, with their index tuples, the innermost loop first, and the first object in
/// which they do. A nest without iterations is entered, whatever stands in it. The state is as it was.
pub fn enter(
    alloc: Global,
    s: &mut State,
    nest: &Nest,
    outermost: &Loop,
    body: &Vec<Statement>,
) -> Result<(), Stop>
    ensures entered { IfOk result (λ _. entered (mark (Some nest.now) (loop_of outermost.now) (block_of body.now.items)) (state_of s.old) ≡ Ok (state_of s.old)) }
    ensures stopped { IfErr result (IsStop (entered (mark (Some nest.now) (loop_of outermost.now) (block_of body.now.items)) (state_of s.old))) }
    ensures unchanged { state_of s.new ≡ state_of s.old }
{
    let space = iteration_space(alloc, s, nest, outermost, body)?;
    if tuples(&space.axes) == 0 {
        return Ok(());
    }
    check_space(alloc, s, nest, &space, innermost(nest, body))
}

/// The check of a nest that has an iteration. Without a statement in its innermost loop it touches nothing.
#[tactic(auto, using(crate::proofs::AtEntry::empty_enters, crate::proofs::AtEntry::few_iterations))]
fn check_space(
    alloc: Global,
    s: &mut State,
    nest: &Nest,
    space: &IterationSpace,
    innermost: &Vec<Statement>,
) -> Result<(), Stop>
    ensures entered { IfOk result (λ _. check_space nest.now space.now (block_of innermost.now.items) (state_of s.old) ≡ Ok (state_of s.old)) }
    ensures stopped { IfErr result (IsStop (check_space nest.now space.now (block_of innermost.now.items) (state_of s.old))) }
    ensures unchanged { state_of s.new ≡ state_of s.old }
{
    if !is_nest_in_limits(alloc, s, space, innermost)? {
        return Err(fault(FaultKind::SpaceLimit));
    }
    if innermost.len() == 0 {
        return Ok(());
    }
    match first_clash(alloc, s, nest, space, innermost)? {
        None => Ok(()),
        Some(c) => Err(interfere(alloc, s, space, &c)),
    }
}

/// The fault of two iterations that interfere.
fn interfere(alloc: Global, s: &State, space: &IterationSpace, c: &Clash) -> Stop
    requires { c.now.place < 2 ^ 62 }
    ensures { IsStop (unless_clash (state_of s.now) space.now.axes.items (Some (clash c.now))) result }
{
    match interference(alloc, s, space, c) {
        Ok(pair) => Stop::Fault(Cause {
            kind: FaultKind::Interfere,
            at: Place::Between(pair),
        }),
        Err(_) => Stop::Memory,
    }
}

/// Where it comes. An `Err` is want of memory.
fn interference(
    alloc: Global,
    s: &State,
    space: &IterationSpace,
    c: &Clash,
) -> Result<Box<Interference>, AllocError>
    requires { c.now.place < 2 ^ 62 }
    ensures { IfOk result (λ pair. interference (box_value pair) ≡ Between (indices_at space.now.axes.items c.now.earlier) (indices_at space.now.axes.items c.now.later) (object_of (state_of s.now) (clash c.now))) }
{
    let earlier = indices_at(alloc, &space.axes, c.earlier)?;
    let later = indices_at(alloc, &space.axes, c.later)?;
    let object = object(alloc, s, c)?;
    let pair = Box::new(
        alloc,
        Interference {
            earlier,
            later,
            object,
        },
    )?;
    Ok(pair)
}

/// The object in which they do. An `Err` is want of memory.
fn object(alloc: Global, s: &State, c: &Clash) -> Result<Object, AllocError>
    requires { c.now.place < 2 ^ 62 }
    ensures { IfOk result (λ o. object o ≡ object_of (state_of s.now) (clash c.now)) }
{
    let subscripts = object_subscripts(alloc, s, c.name, c.place)?;
    Ok(Object {
        name: c.name,
        subscripts,
    })
}

/// The subscripts of the element at a place of an array; None of a scalar. An `Err` is want of memory.
fn object_subscripts(
    alloc: Global,
    s: &State,
    name: usize,
    place: usize,
) -> Result<Option<Vec<i64>>, AllocError>
    requires { place < 2 ^ 62 }
    ensures { IfOk result (λ v. option_map (λ v. v.items) v ≡ object_subscripts (array (state_of s.now) name).dims place) }
{
    if name >= s.arrays.len() {
        return Ok(None);
    }
    let dims = s.arrays[name].dims().as_slice();
    if dims.is_empty() {
        return Ok(None);
    }
    let subscripts = subscripts_of_place(alloc, dims, place)?;
    Ok(Some(subscripts))
}

/// The subscripts of the element at a place. An `Err` is want of memory.
fn subscripts_of_place(alloc: Global, dims: &[Dim], place: usize) -> Result<Vec<i64>, AllocError>
    requires valid { AreDims dims.now }
    requires small { place < 2 ^ 62 }
    ensures { IfOk result (λ v. v.items ≡ subscripts_of_place dims.now place) }
{
    let mut subscripts = Vec::new(alloc);
    let mut left = place;
    for d in dims {
        let at = divided(left, extent(*d) as u128);
        subscripts.push(subscript_at(d, at.rest).value)?;
        left = at.quotient;
    }
    Ok(subscripts)
}

/// The subscript at a place of a dimension, from 0.
fn subscript_at(d: &Dim, place: usize) -> Number
    requires valid { IsDim d.now }
    requires small { place < 2 ^ 62 }
    ensures { result.value ≡ d.now.lower +ℤ pos place }
{
    Number {
        value: d.lower + place as i64,
    }
}

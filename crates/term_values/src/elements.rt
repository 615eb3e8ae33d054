//! Elements of arrays, and the values of operators, or their faults.

ghost use Rattle.std.specs.Prelude.{◌≡◌, IfOk, IfErr, Ok, [], ◌∷◌};
ghost use Rattle.array_meaning.specs.Elementals.{operated};
ghost use Rattle.array_meaning.specs.State.{element, place_in};
ghost use Rattle.term_values.specs.States.{state_of};
ghost use Rattle.term_values.specs.Stops.{IsStop};

use crate::state::State;
use crate::stops::{Stop, fault};
use crate::wrapping::{difference, product, sum};
use array_meaning::FaultKind;
use op_tables::{Op, apply};

/// The place of an element in array element order, from 0 (6.2.2.2); a fault where a subscript is out of bounds.
pub fn element_place(s: &State, array: usize, subscripts: &[i64]) -> Result<usize, Stop>
    ensures value { IfOk result (λ k. place_in (state_of s.now) array subscripts.now ≡ Ok k) }
    ensures stopped { IfErr result (IsStop (place_in (state_of s.now) array subscripts.now)) }
{
    match s.place(array, subscripts) {
        Some(k) => Ok(k),
        None => Err(fault(FaultKind::Bounds)),
    }
}

/// The place of the element with one subscript, from 0; a fault where the subscript is out of bounds.
pub(crate) fn place_of_one(s: &State, array: usize, subscript: &i64) -> Result<usize, Stop>
    ensures value { IfOk result (λ k. place_in (state_of s.now) array (subscript.now ∷ []) ≡ Ok k) }
    ensures stopped { IfErr result (IsStop (place_in (state_of s.now) array (subscript.now ∷ []))) }
{
    match s.place_of_one(array, subscript) {
        Some(k) => Ok(k),
        None => Err(fault(FaultKind::Bounds)),
    }
}

/// The place of the element with two subscripts in array element order, from 0; a fault where a subscript is out of bounds.
pub(crate) fn place_of_two(
    s: &State,
    array: usize,
    first: &i64,
    second: &i64,
) -> Result<usize, Stop>
    ensures value { IfOk result (λ k. place_in (state_of s.now) array (first.now ∷ second.now ∷ []) ≡ Ok k) }
    ensures stopped { IfErr result (IsStop (place_in (state_of s.now) array (first.now ∷ second.now ∷ []))) }
{
    match s.place_of_two(array, first, second) {
        Some(k) => Ok(k),
        None => Err(fault(FaultKind::Bounds)),
    }
}

/// The value of an element; a fault where a subscript is out of bounds.
pub(crate) fn element(s: &State, array: usize, subscripts: &[i64]) -> Result<i64, Stop>
    ensures value { IfOk result (λ v. element (state_of s.now) array subscripts.now ≡ Ok v) }
    ensures stopped { IfErr result (IsStop (element (state_of s.now) array subscripts.now)) }
{
    match s.place(array, subscripts) {
        Some(k) => Ok(s.element_at(array, k)),
        None => Err(fault(FaultKind::Bounds)),
    }
}

/// The value of the element with one subscript; a fault where the subscript is out of bounds.
pub(crate) fn element_of_one(s: &State, array: usize, subscript: &i64) -> Result<i64, Stop>
    ensures value { IfOk result (λ v. element (state_of s.now) array (subscript.now ∷ []) ≡ Ok v) }
    ensures stopped { IfErr result (IsStop (element (state_of s.now) array (subscript.now ∷ []))) }
{
    match s.place_of_one(array, subscript) {
        Some(k) => Ok(s.element_at(array, k)),
        None => Err(fault(FaultKind::Bounds)),
    }
}

/// The value of the element with two subscripts; a fault where a subscript is out of bounds.
pub(crate) fn element_of_two(
    s: &State,
    array: usize,
    first: &i64,
    second: &i64,
) -> Result<i64, Stop>
    ensures value { IfOk result (λ v. element (state_of s.now) array (first.now ∷ second.now ∷ []) ≡ Ok v) }
    ensures stopped { IfErr result (IsStop (element (state_of s.now) array (first.now ∷ second.now ∷ []))) }
{
    match s.place_of_two(array, first, second) {
        Some(k) => Ok(s.element_at(array, k)),
        None => Err(fault(FaultKind::Bounds)),
    }
}

/// The value of an operator or elemental procedure; a fault where it divides by zero. It takes no memory.
#[inline(never)]
pub fn operated(op: Op, operands: &[i64]) -> Result<i64, Stop>
    ensures value { IfOk result (λ v. operated op operands.now ≡ Ok v) }
    ensures stopped { IfErr result (IsStop (operated op operands.now)) }
{
    match apply(op, operands) {
        Ok(v) => Ok(v),
        Err(_) => Err(fault(FaultKind::DivZero)),
    }
}

/// The value of an operator or elemental procedure of two operands; a fault where it divides by zero. It takes no memory.
pub fn operated_of_two(op: Op, a: &i64, b: &i64) -> Result<i64, Stop>
    ensures value { IfOk result (λ v. operated op (a.now ∷ b.now ∷ []) ≡ Ok v) }
    ensures stopped { IfErr result (IsStop (operated op (a.now ∷ b.now ∷ []))) }
{
    match op {
        Op::Add => Ok(sum(a, b).value),
        Op::Sub => Ok(difference(a, b).value),
        Op::Mul => Ok(product(a, b).value),
        _ => operated(op, &[*a, *b]),
    }
}

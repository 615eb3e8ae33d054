//! The values of expressions over slots.

ghost use Rattle.std.specs.Prelude.{◌≡◌, length, IfOk, IfErr, Ok, [], ◌∷◌};
ghost use Rattle.code_meaning.specs.Flat.{flat_value, flat_values, or_zero, slot};
ghost use Rattle.node_code.specs.Texts.{flat, flats_of};
ghost use Rattle.slot_values.specs.Operations.{operation_value};
ghost use Rattle.term_values.specs.Stops.{IsStop};

use node_code::Flat;
use op_tables::Op;
use smallvec::SmallVec;
use std::alloc::AllocError;
use term_values::{Stop, operated, operated_of_two};

/// Two values in order.
#[derive(Clone, Copy)]
pub(crate) struct Pair {
    pub(crate) first: i64,
    pub(crate) second: i64,
}

/// The number at a place, and 0 where there is none. It takes no memory.
pub fn slot(slots: &[i64], k: usize) -> i64
    ensures { result ≡ slot slots.now k }
{
    if k < slots.len() { slots[k] } else { 0 }
}

/// The value of an expression by the slots and the entries of a tuple, or its first fault. A read is 0. It takes no memory but for
/// operators of other than two operands.
#[inline(always)]
#[cycle(flat_value)]
pub fn flat_value(slots: &[i64], axes: &[i64], f: &Flat) -> Result<i64, Stop>
    ensures value { IfOk result (λ v. flat_value slots.now axes.now [] (flat f.now) ≡ Ok v) }
    ensures stopped { IfErr result (IsStop (flat_value slots.now axes.now [] (flat f.now))) }
{
    match f {
        Flat::Int(n) => Ok(*n),
        Flat::Slot(k) => Ok(slot(slots, *k)),
        Flat::Axis(k) => Ok(slot(axes, *k)),
        Flat::Read(_) => Ok(0),
        Flat::Operated(op, operands) => operation_value(slots, axes, *op, operands),
    }
}

/// The value of an operator.
#[inline(never)]
#[cycle(flat_value)]
fn operation_value(slots: &[i64], axes: &[i64], op: Op, operands: &Vec<Flat>) -> Result<i64, Stop>
    ensures value { IfOk result (λ v. operation_value slots.now axes.now op (flats_of operands.now.items) ≡ Ok v) }
    ensures stopped { IfErr result (IsStop (operation_value slots.now axes.now op (flats_of operands.now.items))) }
{
    if operands.len() == 2 {
        return operation_of_two(slots, axes, op, operands);
    }
    many_operands(slots, axes, op, operands)
}

/// The value of an operator of two operands.
#[cycle(flat_value)]
fn operation_of_two(slots: &[i64], axes: &[i64], op: Op, operands: &Vec<Flat>) -> Result<i64, Stop>
    requires two { length operands.now.items ≡ 2 }
    ensures value { IfOk result (λ v. operation_value slots.now axes.now op (flats_of operands.now.items) ≡ Ok v) }
    ensures stopped { IfErr result (IsStop (operation_value slots.now axes.now op (flats_of operands.now.items))) }
{
    let pair = two_values(slots, axes, operands)?;
    operated_of_two(op, &pair.first, &pair.second)
}

/// The value of an operator of any number of operands.
#[inline(never)]
#[cycle(flat_value)]
fn many_operands(slots: &[i64], axes: &[i64], op: Op, operands: &Vec<Flat>) -> Result<i64, Stop>
    ensures value { IfOk result (λ v. operation_value slots.now axes.now op (flats_of operands.now.items) ≡ Ok v) }
    ensures stopped { IfErr result (IsStop (operation_value slots.now axes.now op (flats_of operands.now.items))) }
{
    let operands = flat_values(slots, axes, operands)?;
    operated(op, operands.as_slice())
}

/// The values of two expressions in order, or the first fault.
#[inline(always)]
#[tactic(auto, using(crate::proofs::Pairs::pair_values, crate::proofs::Pairs::first_stops, crate::proofs::Pairs::second_stops))]
#[cycle(flat_value)]
pub(crate) fn two_values(slots: &[i64], axes: &[i64], fs: &Vec<Flat>) -> Result<Pair, Stop>
    requires two { length fs.now.items ≡ 2 }
    ensures value { IfOk result (λ p. flat_values slots.now axes.now [] (flats_of fs.now.items) ≡ Ok (p.first ∷ p.second ∷ [])) }
    ensures stopped { IfErr result (IsStop (flat_values slots.now axes.now [] (flats_of fs.now.items))) }
{
    let first = flat_value(slots, axes, &fs[0])?;
    let second = flat_value(slots, axes, &fs[1])?;
    Ok(Pair { first, second })
}

/// The values of expressions in order, or the first fault.
#[cycle(flat_value)]
pub(crate) fn flat_values(
    slots: &[i64],
    axes: &[i64],
    fs: &Vec<Flat>,
) -> Result<SmallVec<i64, 7>, Stop>
    ensures value { IfOk result (λ vs. flat_values slots.now axes.now [] (flats_of fs.now.items) ≡ Ok vs.items) }
    ensures stopped { IfErr result (IsStop (flat_values slots.now axes.now [] (flats_of fs.now.items))) }
{
    let mut vs = SmallVec::new(*fs.allocator());
    for f in fs {
        let v = flat_value(slots, axes, f)?;
        vs.push(v)?;
    }
    Ok(vs)
}

/// The value of an expression, and 0 where it has a fault, which one whose parts are evaluated hasn't.
pub fn flat_or_zero(slots: &[i64], axes: &[i64], f: &Flat) -> Result<i64, AllocError>
    ensures { IfOk result (λ v. v ≡ or_zero (flat_value slots.now axes.now [] (flat f.now))) }
{
    match flat_value(slots, axes, f) {
        Ok(v) => Ok(v),
        Err(Stop::Fault(_)) => Ok(0),
        Err(Stop::Memory) => Err(AllocError),
    }
}

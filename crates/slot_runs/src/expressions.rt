//! The values of expressions over slots, where they are known without memory and without a fault.

ghost use Rattle.std.specs.Prelude.{[]};
ghost use Rattle.code_meaning.specs.Flat.{flat_value};
ghost use Rattle.node_code.specs.Texts.{flat, flats_of};
ghost use Rattle.scalar_values.specs.Known.{IsKnown};
ghost use Rattle.slot_values.specs.Operations.{operation_value};

use node_code::Flat;
use op_tables::Op;
use scalar_values::{Known, found, unknown, value_of_one, value_of_two};
use slot_values::slot;

/// The value of an expression over slots, where it is known.
#[inline(always)]
#[cycle(known_flat)]
pub(crate) fn known_flat(slots: &[i64], f: &Flat) -> Known
    ensures { IsKnown (flat_value slots.now [] [] (flat f.now)) result }
{
    match f {
        Flat::Int(n) => found(*n),
        Flat::Slot(k) => found(slot(slots, *k)),
        Flat::Operated(op, operands) => known_operation(slots, *op, operands),
        _ => unknown(),
    }
}

/// The value of an operator.
#[inline(never)]
#[tactic(auto, using(crate::proofs::KnownOperations::of_two))]
#[cycle(known_flat)]
fn known_operation(slots: &[i64], op: Op, operands: &Vec<Flat>) -> Known
    ensures { IsKnown (operation_value slots.now [] op (flats_of operands.now.items)) result }
{
    if operands.len() != 2 {
        return operation_of_one(slots, op, operands);
    }
    let a = known_flat(slots, &operands[0]);
    if !a.known {
        return unknown();
    }
    let b = known_flat(slots, &operands[1]);
    if !b.known {
        return unknown();
    }
    value_of_two(op, &a.value, &b.value)
}

/// The value of an operator of one operand; where there are more or none it isn't known.
#[inline(never)]
#[tactic(auto, using(crate::proofs::KnownOperations::of_one))]
#[cycle(known_flat)]
fn operation_of_one(slots: &[i64], op: Op, operands: &Vec<Flat>) -> Known
    ensures { IsKnown (operation_value slots.now [] op (flats_of operands.now.items)) result }
{
    if operands.len() != 1 {
        return unknown();
    }
    let a = known_flat(slots, &operands[0]);
    if !a.known {
        return unknown();
    }
    value_of_one(op, &a.value)
}

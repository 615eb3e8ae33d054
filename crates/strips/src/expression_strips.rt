//! The values of an array expression at a strip of tuples: each operator is taken over the whole strip before the next one.

ghost use Rattle.std.specs.Prelude.{◌≡◌, ◌≤◌, ◌+◌, length, IfOk, IfSome};
ghost use Rattle.array_meaning.specs.declared.limits.TheConstants.{MAX_TUPLES};
ghost use Rattle.array_meaning.specs.Elementals.{NoOperand, Operand, Operation, Same};
ghost use Rattle.term_values.specs.States.{state_of};
ghost use Rattle.term_values.specs.Views.{elemental, elementals_of};
ghost use Rattle.strip_operators.specs.Strips.{IsStrip};
ghost use Rattle.strips.specs.Strips.{row_value};

use crate::elements::{same_strip, selected_strip};
use op_tables::Op;
use std::alloc::AllocError;
use strip_operators::{take_of_one, take_of_two, take_with_number};
use term_values::{Elemental, Number, State};

/// The values at so many tuples of a row, where `u` tuples of it stand before them and `rest` are its other positions. None where a value
/// is a fault, and where a part of the expression isn't of one of the forms that are known here.
#[cycle(strip)]
pub(crate) fn strip(
    s: &State,
    x: &Elemental,
    u: usize,
    rest: &[i64],
    n: usize,
) -> Result<Option<Vec<i64>>, AllocError>
    requires { u + n ≤ MAX_TUPLES }
    ensures { IfOk result (λ p. IfSome p (λ vs. IsStrip (row_value (state_of s.now) (elemental x.now) u rest.now) n vs.items)) }
{
    match x {
        Elemental::Same(v) => same_strip(s, v, u, rest, n),
        Elemental::Selected(a, ds) => selected_strip(s, *a, ds, u, rest, n),
        Elemental::Operation(op, xs) => operation_strip(s, *op, xs, u, rest, n),
    }
}

/// The values of an operator.
#[cycle(strip)]
fn operation_strip(
    s: &State,
    op: Op,
    xs: &Vec<Elemental>,
    u: usize,
    rest: &[i64],
    n: usize,
) -> Result<Option<Vec<i64>>, AllocError>
    requires { u + n ≤ MAX_TUPLES }
    ensures { IfOk result (λ p. IfSome p (λ vs. IsStrip (row_value (state_of s.now) (Operation op (elementals_of xs.now.items)) u rest.now) n vs.items)) }
{
    if xs.len() == 1 {
        return strip_of_one(s, op, xs, u, rest, n);
    }
    if xs.len() == 2 {
        return strip_of_two(s, op, xs, u, rest, n);
    }
    Ok(None)
}

/// Those of an operator of one operand.
#[cycle(strip)]
fn strip_of_one(
    s: &State,
    op: Op,
    xs: &Vec<Elemental>,
    u: usize,
    rest: &[i64],
    n: usize,
) -> Result<Option<Vec<i64>>, AllocError>
    requires few { u + n ≤ MAX_TUPLES }
    requires one { length xs.now.items ≡ 1 }
    ensures { IfOk result (λ p. IfSome p (λ vs. IsStrip (row_value (state_of s.now) (Operation op (elementals_of xs.now.items)) u rest.now) n vs.items)) }
{
    let Some(values) = strip(s, &xs[0], u, rest, n)? else {
        return Ok(None);
    };
    let taken = taken_of_one(s, op, &xs[0], values, u, rest, n);
    Ok(taken)
}

/// The same of the operand's values.
#[tactic(auto, using(crate::proofs::Joined::of_one))]
fn taken_of_one(
    s: &State,
    op: Op,
    x: &Elemental,
    values: Vec<i64>,
    u: usize,
    rest: &[i64],
    n: usize,
) -> Option<Vec<i64>>
    requires { IsStrip (row_value (state_of s.now) (elemental x.now) u rest.now) n values.items }
    ensures { IfSome result (λ vs. IsStrip (row_value (state_of s.now) (Operation op (Operand (elemental x.now) NoOperand)) u rest.now) n vs.items) }
{
    let mut values = values;
    if take_of_one(op, &mut values) {
        Some(values)
    } else {
        None
    }
}

/// Those of an operator of two operands.
#[cycle(strip)]
fn strip_of_two(
    s: &State,
    op: Op,
    xs: &Vec<Elemental>,
    u: usize,
    rest: &[i64],
    n: usize,
) -> Result<Option<Vec<i64>>, AllocError>
    requires few { u + n ≤ MAX_TUPLES }
    requires two { length xs.now.items ≡ 2 }
    ensures { IfOk result (λ p. IfSome p (λ vs. IsStrip (row_value (state_of s.now) (Operation op (elementals_of xs.now.items)) u rest.now) n vs.items)) }
{
    let Some(first) = strip(s, &xs[0], u, rest, n)? else {
        return Ok(None);
    };
    if let Some(v) = number_of(&xs[1]) {
        let taken = taken_with_number(s, op, &xs[0], &xs[1], first, &v.value, u, rest, n);
        return Ok(taken);
    }
    let Some(second) = strip(s, &xs[1], u, rest, n)? else {
        return Ok(None);
    };
    let taken = taken_of_two(s, op, &xs[0], &xs[1], first, &second, u, rest, n);
    Ok(taken)
}

/// The value that an expression has at each tuple; None where it isn't one that is the same at each.
fn number_of(x: &Elemental) -> Option<Number>
    ensures { IfSome result (λ v. elemental x.now ≡ Same v.value) }
{
    match x {
        Elemental::Same(v) => Some(Number { value: *v }),
        _ => None,
    }
}

/// The values of an operator of two operands, by those of the first and the second, which is the same at each tuple.
#[tactic(auto, using(crate::proofs::Joined::with_number))]
fn taken_with_number(
    s: &State,
    op: Op,
    x: &Elemental,
    y: &Elemental,
    first: Vec<i64>,
    second: &i64,
    u: usize,
    rest: &[i64],
    n: usize,
) -> Option<Vec<i64>>
    requires first { IsStrip (row_value (state_of s.now) (elemental x.now) u rest.now) n first.items }
    requires second { elemental y.now ≡ Same second.now }
    ensures { IfSome result (λ vs. IsStrip (row_value (state_of s.now) (Operation op (Operand (elemental x.now) (Operand (elemental y.now) NoOperand))) u rest.now) n vs.items) }
{
    let mut values = first;
    if take_with_number(op, &mut values, second) {
        Some(values)
    } else {
        None
    }
}

/// The same of the operands' values.
#[tactic(auto, using(crate::proofs::Joined::of_two))]
fn taken_of_two(
    s: &State,
    op: Op,
    x: &Elemental,
    y: &Elemental,
    first: Vec<i64>,
    second: &[i64],
    u: usize,
    rest: &[i64],
    n: usize,
) -> Option<Vec<i64>>
    requires first { IsStrip (row_value (state_of s.now) (elemental x.now) u rest.now) n first.items }
    requires second { IsStrip (row_value (state_of s.now) (elemental y.now) u rest.now) n second.now }
    ensures { IfSome result (λ vs. IsStrip (row_value (state_of s.now) (Operation op (Operand (elemental x.now) (Operand (elemental y.now) NoOperand))) u rest.now) n vs.items) }
{
    let mut values = first;
    if take_of_two(op, &mut values, second) {
        Some(values)
    } else {
        None
    }
}

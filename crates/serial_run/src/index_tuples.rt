//! The values of the indices of a FORALL, tuple by tuple.

ghost use Rattle.std.specs.Prelude.{◌≡◌, ◌+◌, ◌≤◌, ◌<◌, IfOk, IsTrue, OnOk, suc, pos};
ghost use Rattle.array_meaning.specs.declared.limits.TheConstants.{MAX_TUPLES};
ghost use Rattle.array_meaning.specs.Sections.{nth};
ghost use Rattle.array_meaning.specs.Forall.{indices_at};
ghost use Rattle.op_tables.specs.Operators.{wrapped};
ghost use Rattle.serial_run.specs.ForallParts.{IsTuple, first_place, has_next};

use array_meaning::Sequence;
use std::alloc::{AllocError, Global};
use term_values::{divided, nth, sum};

/// The values of the indices at a tuple, and the position of the first one's among its values, from 0. The first index is the fastest.
#[derive(Drop)]
pub(crate) struct IndexTuple {
    pub place: usize,
    pub values: Vec<i64>,
}

/// The tuple with a number, from 0.
pub(crate) fn tuple_at(alloc: Global, axes: &[Sequence], t: usize) -> Result<IndexTuple, AllocError>
    requires { t ≤ MAX_TUPLES }
    ensures { IfOk result (IsTuple axes.now t) }
{
    let place = first_place(axes, t);
    let values = indices_at(alloc, axes, t)?;
    Ok(IndexTuple { place, values })
}

/// Goes on from the tuple with a number to the next one.
pub(crate) fn advance(
    alloc: Global,
    axes: &[Sequence],
    t: usize,
    x: &mut IndexTuple,
) -> Result<(), AllocError>
    requires few { t < MAX_TUPLES }
    requires tuple { IsTuple axes.now t x.old }
    ensures { OnOk result (IsTuple axes.now (t + 1) x.new) }
{
    if has_next(axes, x.place) {
        step_first(axes, t, x);
        return Ok(());
    }
    *x = tuple_at(alloc, axes, t + 1)?;
    Ok(())
}

/// Whether the first index has a value after that at a position.
fn has_next(axes: &[Sequence], place: usize) -> bool
    ensures { result ≡ has_next axes.now place }
{
    !axes.is_empty() && place as u128 + 1 < axes[0].count
}

/// Takes the next value of the first index.
fn step_first(axes: &[Sequence], t: usize, x: &mut IndexTuple)
    requires next { IsTrue (has_next axes.now x.old.place) }
    requires few { t < MAX_TUPLES }
    requires tuple { IsTuple axes.now t x.old }
    ensures { IsTuple axes.now (t + 1) x.new }
{
    x.place += 1;
    let next = sum(&x.values[0], &axes[0].step);
    x.values[0] = next.value;
}

/// The position of the first index at the tuple with a number.
fn first_place(axes: &[Sequence], t: usize) -> usize
    ensures value { result ≡ first_place axes.now t }
    ensures few { result ≤ t }
{
    if axes.is_empty() {
        return 0;
    }
    divided(t, axes[0].count).rest
}

/// The values of all indices at the tuple with a number.
fn indices_at(alloc: Global, axes: &[Sequence], t: usize) -> Result<Vec<i64>, AllocError>
    requires { t ≤ MAX_TUPLES }
    ensures { IfOk result (λ v. v.items ≡ indices_at axes.now t) }
{
    let mut values = Vec::new(alloc);
    let mut left = t;
    for p in axes {
        let d = divided(left, p.count);
        values.push(index_value(p, d.rest))?;
        left = d.quotient;
    }
    Ok(values)
}

/// One of the values that an index takes, from 0.
fn index_value(p: &Sequence, place: usize) -> i64
    requires { place ≤ MAX_TUPLES }
    ensures { result ≡ wrapped (nth p.now (pos (suc place))) }
{
    nth(p, &(place as i64 + 1)).value
}

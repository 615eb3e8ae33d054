//! The values of expressions over slots and axes at the tuples of a strip.

ghost use Rattle.std.specs.Prelude.{◌≡◌, ◌<◌, length, replicate, true, IfOk, IfSome};
ghost use Rattle.node_code.specs.Flat.{AndFlat, Axis, NoFlat, Operated};
ghost use Rattle.node_code.specs.Texts.{flat, flats_of};
ghost use Rattle.tuple_values.specs.Fixed.{IsFixed};
ghost use Rattle.tuple_values.specs.FormStrips.{FlatValues};
ghost use Rattle.tuple_values.specs.Strips.{IsInRow};
ghost use Rattle.tuple_values.specs.Views.{statement};

use crate::elements::Elements;
use crate::fixed::fixed_value;
use crate::progressions::axis_values;
use crate::statement::ParallelStatement;
use crate::strips::Strip;
use array_meaning::Selection;
use hpf_base::OutOfMemory;
use node_code::Flat;
use op_tables::Op;
use std::alloc::Global;
use strip_operators::{take_of_one, take_of_two};

/// The values of an expression. None is no answer: where a value is a fault, and where a copy or an operator of
/// more than two operands stands in it.
#[cycle(flat_strip)]
pub(crate) fn flat_strip<E: Elements>(
    w: &ParallelStatement<'_>,
    s: Strip,
    f: &Flat,
    elements: &E,
) -> Result<Option<Vec<i64>>, OutOfMemory>
    requires { IsInRow (statement w.now).extents s }
    ensures { IfOk result (λ p. IfSome p (λ vs. FlatValues (statement w.now) s (E.get elements.now) (flat f.now) vs.items)) }
{
    if let Some(v) = fixed_value(w.slots, f)? {
        return one_value(w, s, f, &v.value, elements);
    }
    match f {
        Flat::Axis(k) => axis_strip(w, s, *k, elements),
        Flat::Operated(op, fs) => operated_strip(w, s, *op, fs, elements),
        _ => Ok(None),
    }
}

/// One value at all tuples.
fn one_value<E: Elements>(
    w: &ParallelStatement<'_>,
    s: Strip,
    f: &Flat,
    v: &i64,
    elements: &E,
) -> Result<Option<Vec<i64>>, OutOfMemory>
    requires { IsFixed (statement w.now).slots (flat f.now) v.now }
    ensures { IfOk result (λ p. IfSome p (λ vs. FlatValues (statement w.now) s (E.get elements.now) (flat f.now) vs.items)) }
{
    let vs = repeated(*w.space.extents.allocator(), v, s.count)?;
    Ok(Some(vs))
}

/// So many times one number.
fn repeated(alloc: Global, v: &i64, count: usize) -> Result<Vec<i64>, OutOfMemory>
    ensures { IfOk result (λ vs. vs.items ≡ replicate count v.now) }
{
    Ok(vec![in alloc; *v; count]?)
}

/// The values of an axis.
fn axis_strip<E: Elements>(
    w: &ParallelStatement<'_>,
    s: Strip,
    axis: usize,
    elements: &E,
) -> Result<Option<Vec<i64>>, OutOfMemory>
    requires { IsInRow (statement w.now).extents s }
    ensures { IfOk result (λ p. IfSome p (λ vs. FlatValues (statement w.now) s (E.get elements.now) (Axis axis) vs.items)) }
{
    match &w.space.indices {
        None => Ok(None),
        Some(ds) => {
            if is_below(axis, ds) {
                axis_values(w, s, axis)
            } else {
                Ok(None)
            }
        }
    }
}

/// Whether a number is that of one of the indices.
fn is_below(axis: usize, ds: &[Selection]) -> bool
    ensures { result ≡ true → axis < length ds.now }
{
    axis < ds.len()
}

/// The values of an operator.
#[cycle(flat_strip)]
fn operated_strip<E: Elements>(
    w: &ParallelStatement<'_>,
    s: Strip,
    op: Op,
    fs: &Vec<Flat>,
    elements: &E,
) -> Result<Option<Vec<i64>>, OutOfMemory>
    requires { IsInRow (statement w.now).extents s }
    ensures { IfOk result (λ p. IfSome p (λ vs. FlatValues (statement w.now) s (E.get elements.now) (Operated op (flats_of fs.now.items)) vs.items)) }
{
    if fs.len() == 1 {
        return operated_on_one(w, s, op, fs, elements);
    }
    if fs.len() == 2 {
        return operated_on_two(w, s, op, fs, elements);
    }
    Ok(None)
}

/// The values of an operator of one operand.
#[cycle(flat_strip)]
fn operated_on_one<E: Elements>(
    w: &ParallelStatement<'_>,
    s: Strip,
    op: Op,
    fs: &Vec<Flat>,
    elements: &E,
) -> Result<Option<Vec<i64>>, OutOfMemory>
    requires one { length fs.now.items ≡ 1 }
    requires row { IsInRow (statement w.now).extents s }
    ensures { IfOk result (λ p. IfSome p (λ vs. FlatValues (statement w.now) s (E.get elements.now) (Operated op (flats_of fs.now.items)) vs.items)) }
{
    let Some(values) = flat_strip(w, s, &fs[0], elements)? else {
        return Ok(None);
    };
    let taken = with_one(w, s, op, &fs[0], values, elements);
    Ok(taken)
}

/// By the values of the operand.
#[tactic(auto, using(crate::proofs::FlatStrips::of_one))]
fn with_one<E: Elements>(
    w: &ParallelStatement<'_>,
    s: Strip,
    op: Op,
    f: &Flat,
    values: Vec<i64>,
    elements: &E,
) -> Option<Vec<i64>>
    requires { FlatValues (statement w.now) s (E.get elements.now) (flat f.now) values.items }
    ensures { IfSome result (λ vs. FlatValues (statement w.now) s (E.get elements.now) (Operated op (AndFlat (flat f.now) NoFlat)) vs.items) }
{
    let mut values = values;
    if take_of_one(op, &mut values) {
        Some(values)
    } else {
        None
    }
}

/// The values of an operator of two operands.
#[cycle(flat_strip)]
fn operated_on_two<E: Elements>(
    w: &ParallelStatement<'_>,
    s: Strip,
    op: Op,
    fs: &Vec<Flat>,
    elements: &E,
) -> Result<Option<Vec<i64>>, OutOfMemory>
    requires two { length fs.now.items ≡ 2 }
    requires row { IsInRow (statement w.now).extents s }
    ensures { IfOk result (λ p. IfSome p (λ vs. FlatValues (statement w.now) s (E.get elements.now) (Operated op (flats_of fs.now.items)) vs.items)) }
{
    let Some(first) = flat_strip(w, s, &fs[0], elements)? else {
        return Ok(None);
    };
    let Some(second) = flat_strip(w, s, &fs[1], elements)? else {
        return Ok(None);
    };
    let taken = with_two(w, s, op, &fs[0], &fs[1], first, &second, elements);
    Ok(taken)
}

/// By the values of both operands.
#[tactic(auto, using(crate::proofs::FlatStrips::of_two))]
fn with_two<E: Elements>(
    w: &ParallelStatement<'_>,
    s: Strip,
    op: Op,
    f: &Flat,
    g: &Flat,
    first: Vec<i64>,
    second: &[i64],
    elements: &E,
) -> Option<Vec<i64>>
    requires first { FlatValues (statement w.now) s (E.get elements.now) (flat f.now) first.items }
    requires second { FlatValues (statement w.now) s (E.get elements.now) (flat g.now) second.now }
    ensures { IfSome result (λ vs. FlatValues (statement w.now) s (E.get elements.now) (Operated op (AndFlat (flat f.now) (AndFlat (flat g.now) NoFlat))) vs.items) }
{
    let mut values = first;
    if take_of_two(op, &mut values, second) {
        Some(values)
    } else {
        None
    }
}

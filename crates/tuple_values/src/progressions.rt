//! The entries of the tuples of a strip on an axis.

ghost use Rattle.std.specs.Prelude.{◌≡◌, ◌-ℤ◌, pos, slice_index_or, map, IfOk, IfSome};
ghost use Rattle.std.specs.List.{range_with_len};
ghost use Rattle.op_tables.specs.Operators.{wrapped};
ghost use Rattle.courses.specs.Entries.{axes_in};
ghost use Rattle.tuple_values.specs.FormStrips.{entries_in_strip};
ghost use Rattle.tuple_values.specs.Statements.{entries};
ghost use Rattle.tuple_values.specs.Progressions.{progressed};
ghost use Rattle.tuple_values.specs.Strips.{IsInRow};
ghost use Rattle.tuple_values.specs.Views.{statement};

use crate::statement::ParallelStatement;
use crate::strips::Strip;
use hpf_base::OutOfMemory;
use std::alloc::Global;
use term_values::{Number, sum};

/// What expressions see of an axis at the tuples of a strip; None where there is no such axis.
pub(crate) fn axis_values(
    w: &ParallelStatement<'_>,
    s: Strip,
    axis: usize,
) -> Result<Option<Vec<i64>>, OutOfMemory>
    requires { IsInRow (statement w.now).extents s }
    ensures { IfOk result (λ p. IfSome p (λ vs. vs.items
        ≡ map (λ k. slice_index_or (axes_in (statement w.now).indices (entries_in_strip (statement w.now) s k)) axis (pos 0)) (range_with_len 0 s.count))) }
{
    if s.step > usize::MAX - s.first {
        return Ok(None);
    }
    let Some(first) = seen_at(w, s.first, axis)? else {
        return Ok(None);
    };
    let Some(second) = seen_at(w, s.first + s.step, axis)? else {
        return Ok(None);
    };
    let alloc = *w.space.extents.allocator();
    let values = all_by_two(alloc, first, second, s.count)?;
    Ok(Some(values))
}

/// What expressions see of an axis at a tuple; None where there is no such axis.
fn seen_at(
    w: &ParallelStatement<'_>,
    tuple: usize,
    axis: usize,
) -> Result<Option<Number>, OutOfMemory>
    ensures { IfOk result (λ p. IfSome p (λ v. v.value
        ≡ slice_index_or (axes_in (statement w.now).indices (entries (statement w.now) tuple)) axis (pos 0))) }
{
    let x = w.space.entries(tuple)?;
    Ok(number_at(w.space.axes(x.as_slice()), axis))
}

/// The number at a place, if there is one.
fn number_at(numbers: &[i64], place: usize) -> Option<Number>
    ensures { IfSome result (λ v. v.value ≡ slice_index_or numbers.now place (pos 0)) }
{
    if place < numbers.len() {
        Some(Number {
            value: numbers[place],
        })
    } else {
        None
    }
}

/// So many numbers at equal distances, by the first two of them, in 64 bits.
fn all_by_two(
    alloc: Global,
    first: Number,
    second: Number,
    count: usize,
) -> Result<Vec<i64>, OutOfMemory>
    ensures fits { wrapped first.value ≡ first.value }
    ensures values { IfOk result (λ vs. vs.items ≡ progressed first.value (wrapped (second.value -ℤ first.value)) count) }
{
    let step = difference(&second.value, &first.value);
    progressed(alloc, &first.value, &step.value, count)
}

/// So many numbers, each so much more than the one before, in 64 bits.
fn progressed(alloc: Global, first: &i64, step: &i64, count: usize) -> Result<Vec<i64>, OutOfMemory>
    ensures { IfOk result (λ vs. vs.items ≡ progressed first.now step.now count) }
{
    let mut values = Vec::with_capacity(alloc, count)?;
    let mut next = Number { value: *first };
    for _k in 0..count {
        values.push(next.value)?;
        next = sum(&next.value, step);
    }
    Ok(values)
}

/// The difference of two numbers, in 64 bits.
#[tactic(auto, using(std::proofs::lemmas::Int::wraps))]
fn difference(a: &i64, b: &i64) -> Number
    ensures { result.value ≡ wrapped (a.now -ℤ b.now) }
{
    Number {
        value: a.wrapping_sub(*b),
    }
}

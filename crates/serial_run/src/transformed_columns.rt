//! The values that a circular shift, a transpose or a prefix sum makes of its source, column by column of the target. An `Err` is want of memory here.

ghost use Rattle.std.specs.Prelude.{◌≡◌, ◌≤◌, ◌<◌, ◌+◌, ◌*◌, ◌++◌, ◌∷◌, [], IfOk, OnOk, ℕ, map, pos, unsigned_abs, slice_index_or};
ghost use Rattle.std.specs.Int.{int_rem_euclid};
ghost use Rattle.hpf_base.specs.ElementOrder.{product};
ghost use Rattle.hpf_base.specs.declared.limits.TheConstants.{MAX_BOUND, MAX_ELEMENTS};
ghost use Rattle.expression_rules.specs.Dims.{AreDims, extent};
ghost use Rattle.array_meaning.specs.State.{array};
ghost use Rattle.array_meaning.specs.Transformations.{shifted_place, transposed_place};
ghost use Rattle.resolved_program.specs.Resolved.{transformation};
ghost use Rattle.term_values.specs.States.{state_of};
ghost use Rattle.serial_run.specs.TransformedValues.{all_values, elements_at, sums_of, turned_place};

use expression_rules::{Dim, extent, size};
use op_tables::Join;
use resolved_program::Transformation;
use std::alloc::{AllocError, Global};
use term_values::State;

/// The values that come of an array to a target with these dimensions, in order.
pub(crate) fn values_by(
    s: &State,
    source: usize,
    dims: &[Dim],
    how: &Transformation,
    by: i64,
) -> Result<Vec<i64>, AllocError>
    requires { AreDims dims.now }
    ensures { IfOk result (λ v. v.items ≡ all_values (transformation how.now) by (map extent dims.now) (array (state_of s.now) source).elements) }
{
    let elements = elements_of(s, source);
    match how {
        Transformation::CircularShift(_) => shifted(*s.scalars.allocator(), elements, dims, by),
        Transformation::Transposition => transposed(*s.scalars.allocator(), elements, dims),
        Transformation::PrefixSum => summed(*s.scalars.allocator(), elements, dims),
    }
}

/// The elements of an array in order; none where no array has this name.
fn elements_of(s: &State, a: usize) -> &[i64]
    ensures { result.now ≡ (array (state_of s.now) a).elements }
{
    if a < s.arrays.len() {
        s.arrays[a].elements()
    } else {
        &[]
    }
}

// ---- circular shifts

/// The elements that come to a target with these dimensions by a shift of so many places.
#[tactic(auto, using(crate::proofs::TransformedColumns::size_is))]
fn shifted(alloc: Global, elements: &[i64], dims: &[Dim], by: i64) -> Result<Vec<i64>, AllocError>
    requires { AreDims dims.now }
    ensures { IfOk result (λ v. v.items ≡ elements_at elements.now (shifted_place by (map extent dims.now)) 0 (product (map extent dims.now))) }
{
    match dims.split_first() {
        None => in_order(alloc, elements, 1),
        Some((first, _)) => shifted_columns(alloc, elements, extent(*first), size(dims), by),
    }
}

/// The same where the first dimension has this extent and the target so many elements.
fn shifted_columns(
    alloc: Global,
    elements: &[i64],
    n: u64,
    count: u64,
    by: i64,
) -> Result<Vec<i64>, AllocError>
    requires extent { n ≤ 2 * MAX_BOUND + 1 }
    requires few { count ≤ MAX_ELEMENTS }
    requires columns { (columns : ℕ) × (count ≡ n * columns) }
    ensures { IfOk result (λ v. v.items ≡ elements_at elements.now (shifted_place by (n ∷ [])) 0 count) }
{
    if n == 0 {
        return Ok(Vec::new(alloc));
    }
    let turn = turn(by, n);
    turned_columns(alloc, elements, n as usize, (count / n) as usize, turn)
}

/// By how many places a column of n turns.
fn turn(by: i64, n: u64) -> usize
    requires some { 1 ≤ n }
    requires extent { n ≤ 2 * MAX_BOUND + 1 }
    ensures value { result ≡ unsigned_abs (int_rem_euclid by (pos n)) }
    ensures below { result < n }
{
    by.rem_euclid(n as i64) as usize
}

/// The elements of so many columns of n, each turned by so many places.
#[tactic(auto, using(crate::proofs::TransformedColumns::columns_more))]
fn turned_columns(
    alloc: Global,
    elements: &[i64],
    n: usize,
    columns: usize,
    turn: usize,
) -> Result<Vec<i64>, AllocError>
    requires below { turn < n }
    requires few { columns * n ≤ MAX_ELEMENTS }
    ensures { IfOk result (λ v. v.items ≡ elements_at elements.now (turned_place n turn) 0 (columns * n)) }
{
    let mut values = Vec::with_capacity(alloc, columns * n)?;
    for column in 0..columns {
        add_turned(elements, column, n, turn, &mut values)?;
    }
    Ok(values)
}

/// Adds the elements of a column of n, turned by so many places.
fn add_turned(
    elements: &[i64],
    column: usize,
    n: usize,
    turn: usize,
    values: &mut Vec<i64>,
) -> Result<(), AllocError>
    requires below { turn < n }
    requires few { column * n + n ≤ MAX_ELEMENTS }
    ensures { OnOk result (values.new.items ≡ values.old.items ++ elements_at elements.now (turned_place n turn) (column * n) n) }
{
    let first = column * n;
    add_run(elements, first + turn, n - turn, values)?;
    add_run(elements, first, turn, values)
}

// ---- transposes

/// The elements that come to a target with these dimensions by a transpose.
#[tactic(auto, using(crate::proofs::TransformedColumns::size_is, crate::proofs::TransformedColumns::same_places))]
fn transposed(alloc: Global, elements: &[i64], dims: &[Dim]) -> Result<Vec<i64>, AllocError>
    requires { AreDims dims.now }
    ensures { IfOk result (λ v. v.items ≡ elements_at elements.now (transposed_place (map extent dims.now)) 0 (product (map extent dims.now))) }
{
    match dims {
        [first, second] => transposed_columns(
            alloc,
            elements,
            extent(*first) as usize,
            extent(*second) as usize,
        ),
        _ => in_order(alloc, elements, size(dims) as usize),
    }
}

/// The same where a target has two dimensions with these extents.
fn transposed_columns(
    alloc: Global,
    elements: &[i64],
    m: usize,
    n: usize,
) -> Result<Vec<i64>, AllocError>
    requires extent { n ≤ 2 * MAX_BOUND + 1 }
    requires few { m * n ≤ MAX_ELEMENTS }
    ensures { IfOk result (λ v. v.items ≡ elements_at elements.now (transposed_place (m ∷ n ∷ [])) 0 (m * n)) }
{
    if m == 0 {
        return Ok(Vec::new(alloc));
    }
    let mut values = Vec::with_capacity(alloc, m * n)?;
    for column in 0..n {
        add_steps(elements, column, n, m, &mut values)?;
    }
    Ok(values)
}

/// Adds so many elements, the first at this place and each other so many places on; 0 where there is no such place.
fn add_steps(
    elements: &[i64],
    first: usize,
    step: usize,
    count: usize,
    values: &mut Vec<i64>,
) -> Result<(), AllocError>
    requires inside { first ≤ 2 * MAX_BOUND + 1 }
    requires few { count * step ≤ MAX_ELEMENTS }
    ensures { OnOk result (values.new.items ≡ values.old.items ++ elements_at elements.now (λ t. first + step * t) 0 count) }
{
    let mut place = first;
    for _ in 0..count {
        values.push(element_at(elements, place))?;
        place += step;
    }
    Ok(())
}

// ---- prefix sums

/// The sums of the elements up to each place of a target with these dimensions.
#[tactic(auto, using(crate::proofs::TransformedColumns::size_is))]
fn summed(alloc: Global, elements: &[i64], dims: &[Dim]) -> Result<Vec<i64>, AllocError>
    requires { AreDims dims.now }
    ensures { IfOk result (λ v. v.items ≡ sums_of elements.now (product (map extent dims.now))) }
{
    sums(alloc, elements, size(dims) as usize)
}

/// The sums of the elements up to each of so many places. Each is wrapped to 64 bits, and where there is no element, nothing is added.
fn sums(alloc: Global, elements: &[i64], count: usize) -> Result<Vec<i64>, AllocError>
    requires { count ≤ MAX_ELEMENTS }
    ensures { IfOk result (λ v. v.items ≡ sums_of elements.now count) }
{
    let mut values = Vec::with_capacity(alloc, count)?;
    let mut sum = Join::Sum.unit();
    for place in 0..count {
        sum = Join::Sum.join(sum, element_at(elements, place));
        values.push(sum)?;
    }
    Ok(values)
}

// ---- elements in order

/// So many elements from the first on.
fn in_order(alloc: Global, elements: &[i64], count: usize) -> Result<Vec<i64>, AllocError>
    requires { count ≤ MAX_ELEMENTS }
    ensures { IfOk result (λ v. v.items ≡ elements_at elements.now (λ t. t) 0 count) }
{
    let mut values = Vec::new(alloc);
    add_run(elements, 0, count, &mut values)?;
    Ok(values)
}

/// Adds so many elements that follow one another, the first at this place; 0 where there is no such place.
#[tactic(auto, using(crate::proofs::TransformedColumns::elements_from))]
fn add_run(
    elements: &[i64],
    first: usize,
    count: usize,
    values: &mut Vec<i64>,
) -> Result<(), AllocError>
    requires { first + count ≤ MAX_ELEMENTS }
    ensures { OnOk result (values.new.items ≡ values.old.items ++ elements_at elements.now (λ t. t) first count) }
{
    if first + count <= elements.len() {
        values.extend_from_slice(&elements[first..first + count])?;
        return Ok(());
    }
    add_steps(elements, first, 1, count, values)
}

/// The element at a place, and 0 where there is none.
fn element_at(elements: &[i64], place: usize) -> i64
    ensures { result ≡ slice_index_or elements.now place (pos 0) }
{
    if place < elements.len() {
        elements[place]
    } else {
        0
    }
}

//! The sides of a circular shift or of a transpose as an assignment of elements (Fortran 95, 13.14.26 and 13.14.111), over an index for each dimension of
//! the target. An `Err` is want of memory here.

ghost use Rattle.std.specs.Prelude.{◌≡◌, [], ◌∷◌, ◌++◌, pos, IfOk, OnOk};
ghost use Rattle.expression_rules.specs.Dims.{extent, AreDims, IsDim};
ghost use Rattle.op_tables.specs.declared.op.Op.TheVariants as op;
ghost use Rattle.array_meaning.specs.Terms.{Number, Scalar};
ghost use Rattle.node_code.specs.Flat.{AndFlat, Int, NoFlat, Operated};
ghost use Rattle.node_code.specs.Texts.{flat, form, subs};
ghost use Rattle.statement_trail.specs.TransformedElements.{above_lower, applied, from_lower, indices_from, same_places, shifted_subscripts, source_element, source_subscripts, transposed_subscripts, turned};
ghost use Rattle.resolved_program.specs.Resolved.{transformation, whole_array};
ghost use Rattle.program_code.specs.ExpressionCode.{index_flat, index_form, index_subs};
ghost use Rattle.program_code.specs.StatementCode.{turn_in_slot};

use crate::loops::of_two;
use expression_code::{plus, slots_of};
use expression_rules::{Dim, extent};
use hpf_base::OutOfMemory;
use node_code::{ArrayForm, Flat, Sub};
use op_tables::Op;
use resolved_program::{Transformation, WholeArray};
use std::alloc::Global;

/// The subscripts of the left side: an index for each dimension.
pub(crate) fn left_subs(alloc: Global, dims: &[Dim]) -> Result<Vec<Sub>, OutOfMemory>
    ensures { IfOk result (λ ds. subs ds.items ≡ index_subs (indices_from 0 dims.now)) }
{
    let mut made = Vec::new(alloc);
    for k in 0..dims.len() {
        made.push(Sub::At(Flat::Axis(k)))?;
    }
    Ok(made)
}

/// The right side, where the code of the number of places takes slots from `b` on.
pub(crate) fn right_form(
    alloc: Global,
    b: usize,
    target: &WholeArray,
    source: &WholeArray,
    how: &Transformation,
) -> Result<ArrayForm, OutOfMemory>
    ensures { IfOk result (λ f. form f ≡ index_form (source_element (whole_array target.now) (whole_array source.now) (transformation how.now)
        (turn_in_slot b (whole_array target.now) (transformation how.now)))) }
{
    let subscripts = source_subs(alloc, b, target, source, how)?;
    Ok(ArrayForm::Section(source.array, subscripts))
}

/// Its subscripts.
fn source_subs(
    alloc: Global,
    b: usize,
    target: &WholeArray,
    source: &WholeArray,
    how: &Transformation,
) -> Result<Vec<Sub>, OutOfMemory>
    ensures { IfOk result (λ ds. subs ds.items ≡ index_subs (source_subscripts (transformation how.now)
        (turn_in_slot b (whole_array target.now) (transformation how.now)) target.now.dims source.now.dims)) }
{
    match how {
        Transformation::CircularShift(by) => {
            let turn = plus(b, slots_of(by)?)?;
            shifted_subs(alloc, turn, target.dims.as_slice(), source.dims.as_slice())
        }
        Transformation::Transposition => transposed_subs(
            alloc,
            target.dims.as_slice(),
            source.dims.as_slice(),
        ),
        Transformation::PrefixSum => same_subs(
            alloc,
            target.dims.as_slice(),
            source.dims.as_slice(),
        ),
    }
}

// ---- circular shifts

/// The subscripts of the source of a shift by so many places as stand in the slot `turn`, fewer than the first extent.
fn shifted_subs(
    alloc: Global,
    turn: usize,
    target: &[Dim],
    source: &[Dim],
) -> Result<Vec<Sub>, OutOfMemory>
    requires { AreDims target.now }
    ensures { IfOk result (λ ds. subs ds.items ≡ index_subs (shifted_subscripts (Scalar turn) target.now source.now)) }
{
    match target {
        [d, ds @ ..] => shifted_from(alloc, turn, d, ds, source),
        [] => Ok(Vec::new(alloc)),
    }
}

/// Those for a target of this first dimension and these others.
fn shifted_from(
    alloc: Global,
    turn: usize,
    d: &Dim,
    ds: &[Dim],
    source: &[Dim],
) -> Result<Vec<Sub>, OutOfMemory>
    requires { IsDim d.now }
    ensures { IfOk result (λ v. subs v.items ≡ index_subs (shifted_subscripts (Scalar turn) (d.now ∷ ds.now) source.now)) }
{
    let mut made = Vec::new(alloc);
    match source {
        [e, es @ ..] => {
            let first = turned(alloc, turn, d)?;
            made.push(Sub::At(from_lower(alloc, e, first)?))?;
            add_same_places(alloc, &mut made, 1, ds, es)?;
            Ok(made)
        }
        [] => Ok(made),
    }
}

/// How far a subscript stands above the lower bound, for the index on the first axis: so many places further, from the beginning again after the end.
fn turned(alloc: Global, turn: usize, d: &Dim) -> Result<Flat, OutOfMemory>
    requires { IsDim d.now }
    ensures { IfOk result (λ f. flat f ≡ index_flat (turned (extent d.now) (applied op.Add (above_lower 0 d.now) (Scalar turn)))) }
{
    let less = passed_extent(alloc, turn, d)?;
    let place = further(alloc, turn, d)?;
    of_two(alloc, Op::Sub, place, less)
}

/// The extent, where the place isn't below it, and else 0.
fn passed_extent(alloc: Global, turn: usize, d: &Dim) -> Result<Flat, OutOfMemory>
    requires { IsDim d.now }
    ensures { IfOk result (λ f. flat f ≡ index_flat (applied op.Mul (Number (pos (extent d.now)))
        (applied op.Ge (applied op.Add (above_lower 0 d.now) (Scalar turn)) (Number (pos (extent d.now)))))) }
{
    let n = extent(*d) as i64;
    let place = further(alloc, turn, d)?;
    let past = of_two(alloc, Op::Ge, place, Flat::Int(n))?;
    of_two(alloc, Op::Mul, Flat::Int(n), past)
}

/// The place, before it goes from the beginning again.
fn further(alloc: Global, turn: usize, d: &Dim) -> Result<Flat, OutOfMemory>
    ensures { IfOk result (λ f. flat f ≡ index_flat (applied op.Add (above_lower 0 d.now) (Scalar turn))) }
{
    let place = above_lower(alloc, 0, d)?;
    of_two(alloc, Op::Add, place, Flat::Slot(turn))
}

// ---- transposes

/// The subscripts of the source of a transpose.
fn transposed_subs(alloc: Global, target: &[Dim], source: &[Dim]) -> Result<Vec<Sub>, OutOfMemory>
    ensures { IfOk result (λ ds. subs ds.items ≡ index_subs (transposed_subscripts target.now source.now)) }
{
    match target {
        [d, d2] => transposed_from(alloc, d, d2, source),
        _ => Ok(Vec::new(alloc)),
    }
}

/// Those for a target of these two dimensions.
fn transposed_from(
    alloc: Global,
    d: &Dim,
    d2: &Dim,
    source: &[Dim],
) -> Result<Vec<Sub>, OutOfMemory>
    ensures { IfOk result (λ v. subs v.items ≡ index_subs (transposed_subscripts (d.now ∷ d2.now ∷ []) source.now)) }
{
    match source {
        [e, e2] => {
            let first = Sub::At(same_place(alloc, 1, d2, e)?);
            let second = Sub::At(same_place(alloc, 0, d, e2)?);
            Ok(vec![in alloc; first, second]?)
        }
        _ => Ok(Vec::new(alloc)),
    }
}

// ---- the same places

/// Those by the same places in all dimensions. They are a prefix sum's, whose code reads its source as a whole.
fn same_subs(alloc: Global, target: &[Dim], source: &[Dim]) -> Result<Vec<Sub>, OutOfMemory>
    ensures { IfOk result (λ ds. subs ds.items ≡ index_subs (same_places 0 target.now source.now)) }
{
    let mut made = Vec::new(alloc);
    add_same_places(alloc, &mut made, 0, target, source)?;
    Ok(made)
}

/// Puts those of dimensions from an axis on.
fn add_same_places(
    alloc: Global,
    made: &mut Vec<Sub>,
    axis: usize,
    target: &[Dim],
    source: &[Dim],
) -> Result<(), OutOfMemory>
    ensures { OnOk result (subs made.new.items ≡ subs made.old.items ++ index_subs (same_places axis target.now source.now)) }
{
    for k in 0..target.len().min(source.len()) {
        made.push(Sub::At(same_place(alloc, plus(axis, k)?, &target[k], &source[k])?))?;
    }
    Ok(())
}

/// The subscript of a dimension by the same place as the index on an axis has in another.
fn same_place(alloc: Global, axis: usize, d: &Dim, e: &Dim) -> Result<Flat, OutOfMemory>
    ensures { IfOk result (λ f. flat f ≡ index_flat (from_lower e.now (above_lower axis d.now))) }
{
    let place = above_lower(alloc, axis, d)?;
    from_lower(alloc, e, place)
}

// ---- places in a dimension

/// How far the index on an axis is above the lower bound of its dimension.
fn above_lower(alloc: Global, axis: usize, d: &Dim) -> Result<Flat, OutOfMemory>
    ensures { IfOk result (λ f. flat f ≡ index_flat (above_lower axis d.now)) }
{
    of_two(alloc, Op::Sub, Flat::Axis(axis), Flat::Int(d.lower))
}

/// The subscript that is so far above the lower bound of a dimension.
fn from_lower(alloc: Global, e: &Dim, place: Flat) -> Result<Flat, OutOfMemory>
    ensures { IfOk result (λ f. flat f ≡ Operated op.Add (AndFlat (flat place) (AndFlat (Int e.now.lower) NoFlat))) }
{
    of_two(alloc, Op::Add, place, Flat::Int(e.lower))
}

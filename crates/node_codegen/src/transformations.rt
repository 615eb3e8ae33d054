//! Circular shifts, transposes and prefix sums of whole arrays (Fortran 95, 13.14.26 and 13.14.111; HPF 2.0, 7.4).

ghost use Rattle.std.specs.Prelude.{◌≡◌, ◌+◌, [], ◌∷◌, ◌++◌, map, max, pos, slice_index_or, IfOk, OnOk};
ghost use Rattle.expression_rules.specs.Dims.{extent, AreDims};
ghost use Rattle.array_meaning.specs.Resolution.{whole};
ghost use Rattle.array_meaning.specs.Statements.{WholeArray as Whole};
ghost use Rattle.array_meaning.specs.Terms.{Apply, More, NoTerm, Number};
ghost use Rattle.array_meaning.specs.Transformations.{has_shape};
ghost use Rattle.op_tables.specs.declared.op.Op.TheVariants as op;
ghost use Rattle.node_code.specs.Instructions.{Limits, ParForall};
ghost use Rattle.node_code.specs.Texts as text;
ghost use Rattle.node_code.specs.Texts.{instructions, subs};
ghost use Rattle.resolved_program.specs.Resolved.{term, transformation, whole_array};
ghost use Rattle.program_code.specs.ExpressionCode.{code_of, subs_of, subscripts_code, subscripts_slots};
ghost use Rattle.program_code.specs.StatementCode.{agreed_code, fitted_code, in_order, misfit, transform_assignment, transform_code, turn_code, turn_slots};

use crate::array_bounds::{add_bounds, bounds_slots, bounds_subs};
use crate::loops::{of_two, set};
use crate::prefix_sums::add_prefix;
use crate::source_subs::{left_subs, right_form};
use expression_code::{code_of, flat_of, joined, plus, slots_of};
use expression_rules::{Dim, extent};
use hpf_base::OutOfMemory;
use node_code::{ArrayForm, Assignment, Flat, Instruction, Sub};
use op_tables::Op;
use resolved_program::{Term, Transformation, WholeArray};
use std::alloc::Global;

// ---- slots

/// How many slots the code of a transformation takes.
pub(crate) fn transform_slots(
    target: &WholeArray,
    source: &WholeArray,
    how: &Transformation,
) -> Result<usize, OutOfMemory>
    ensures { IfOk result (λ n. n ≡ turn_slots (whole_array target.now) (transformation how.now)
        + (subscripts_slots (whole target.now.dims) + subscripts_slots (whole source.now.dims))) }
{
    let bounds = plus(
        bounds_slots(target.dims.as_slice())?,
        bounds_slots(source.dims.as_slice())?,
    )?;
    plus(turn_slots(how)?, bounds)
}

/// How many the code of the number of places takes, with the slot that gets it.
fn turn_slots(how: &Transformation) -> Result<usize, OutOfMemory>
    ensures { IfOk result (λ n. (x : Whole) → n ≡ turn_slots x (transformation how.now)) }
{
    match how {
        Transformation::CircularShift(by) => plus(slots_of(by)?, 1),
        Transformation::Transposition | Transformation::PrefixSum => Ok(0),
    }
}

// ---- code

/// The code of a transformation: the number of places, the bounds of the target, and what comes after these. A prefix sum takes the row `copy`.
pub(crate) fn transform_code(
    alloc: Global,
    copy: usize,
    line: u32,
    b: usize,
    target: &WholeArray,
    source: &WholeArray,
    how: &Transformation,
) -> Result<Vec<Instruction>, OutOfMemory>
    ensures { IfOk result (λ v. instructions v.items ≡ transform_code copy line b (whole_array target.now) (whole_array source.now) (transformation how.now)) }
{
    let b1 = plus(b, turn_slots(how)?)?;
    let mut code = Vec::new(alloc);
    add_turn(alloc, &mut code, line, b, target, how)?;
    add_bounds(alloc, &mut code, line, b1, target.dims.as_slice())?;
    add_fitted(alloc, &mut code, copy, line, b, b1, target, source, how)?;
    Ok(code)
}

/// Puts what comes after the bounds of the target: what is done, or Shape.
fn add_fitted(
    alloc: Global,
    code: &mut Vec<Instruction>,
    copy: usize,
    line: u32,
    b: usize,
    b1: usize,
    target: &WholeArray,
    source: &WholeArray,
    how: &Transformation,
) -> Result<(), OutOfMemory>
    ensures { OnOk result (instructions code.new.items ≡ instructions code.old.items
        ++ fitted_code (has_shape (whole_array target.now) (whole_array source.now) (transformation how.now)) copy line b b1 (b1 + subscripts_slots (whole target.now.dims))
        (whole_array target.now) (whole_array source.now) (transformation how.now)) }
{
    if has_shape(alloc, target, source, how)? {
        add_agreed(alloc, code, copy, line, b, b1, target, source, how)
    } else {
        push_misfit(alloc, code, line, b1, target, source, how)
    }
}

/// Puts what is done where the shapes agree: the assignment of elements, or the prefix sums.
fn add_agreed(
    alloc: Global,
    code: &mut Vec<Instruction>,
    copy: usize,
    line: u32,
    b: usize,
    b1: usize,
    target: &WholeArray,
    source: &WholeArray,
    how: &Transformation,
) -> Result<(), OutOfMemory>
    ensures { OnOk result (instructions code.new.items ≡ instructions code.old.items
        ++ agreed_code copy line b b1 (b1 + subscripts_slots (whole target.now.dims)) (whole_array target.now) (whole_array source.now) (transformation how.now)) }
{
    match how {
        Transformation::PrefixSum => add_prefix(alloc, code, copy, line, b1, target, source),
        _ => push_elements(alloc, code, line, b, b1, target, source, how),
    }
}

/// Puts the assignment of elements, over the bounds of the target.
fn push_elements(
    alloc: Global,
    code: &mut Vec<Instruction>,
    line: u32,
    b: usize,
    b1: usize,
    target: &WholeArray,
    source: &WholeArray,
    how: &Transformation,
) -> Result<(), OutOfMemory>
    ensures { OnOk result (instructions code.new.items ≡ instructions code.old.items
        ++ ParForall (transform_assignment line b b1 (whole_array target.now) (whole_array source.now) (transformation how.now)) ∷ []) }
{
    code.push(Instruction::ParForall(elements(alloc, line, b, b1, target, source, how)?))?;
    Ok(())
}

/// The assignment of elements.
fn elements(
    alloc: Global,
    line: u32,
    b: usize,
    b1: usize,
    target: &WholeArray,
    source: &WholeArray,
    how: &Transformation,
) -> Result<Assignment, OutOfMemory>
    ensures { IfOk result (λ p. text.assignment p ≡ transform_assignment line b b1 (whole_array target.now) (whole_array source.now) (transformation how.now)) }
{
    Ok(Assignment {
        line,
        array: target.array,
        left: left_subs(alloc, target.dims.as_slice())?,
        over: bounds_subs(alloc, b1, target.dims.as_slice())?,
        right: right_form(alloc, b, target, source, how)?,
        mask: None,
        beside: None,
    })
}

/// Puts what gives Shape, where the shapes differ.
fn push_misfit(
    alloc: Global,
    code: &mut Vec<Instruction>,
    line: u32,
    b1: usize,
    target: &WholeArray,
    source: &WholeArray,
    how: &Transformation,
) -> Result<(), OutOfMemory>
    ensures { OnOk result (instructions code.new.items ≡ instructions code.old.items
        ++ (subscripts_code line (b1 + subscripts_slots (whole target.now.dims)) (whole source.now.dims)
        ++ Limits (misfit line b1 (b1 + subscripts_slots (whole target.now.dims)) (whole_array target.now) (whole_array source.now) (transformation how.now)) ∷ [])) }
{
    let b2 = plus(b1, bounds_slots(target.dims.as_slice())?)?;
    add_bounds(alloc, code, line, b2, source.dims.as_slice())?;
    code.push(Instruction::Limits(misfit(alloc, line, b1, b2, target, source, how)?))?;
    Ok(())
}

/// An assignment to the whole source over the space of the target, which has another shape.
fn misfit(
    alloc: Global,
    line: u32,
    b1: usize,
    b2: usize,
    target: &WholeArray,
    source: &WholeArray,
    how: &Transformation,
) -> Result<Assignment, OutOfMemory>
    ensures { IfOk result (λ p. text.assignment p ≡ misfit line b1 b2 (whole_array target.now) (whole_array source.now) (transformation how.now)) }
{
    Ok(Assignment {
        line,
        array: source.array,
        left: bounds_subs(alloc, b2, source.dims.as_slice())?,
        over: over_in_order(alloc, b1, target.dims.as_slice(), how)?,
        right: ArrayForm::Flat(Flat::Int(0)),
        mask: None,
        beside: None,
    })
}

// ---- the number of places

/// Puts the code of the number of places modulo the first extent.
fn add_turn(
    alloc: Global,
    code: &mut Vec<Instruction>,
    line: u32,
    b: usize,
    target: &WholeArray,
    how: &Transformation,
) -> Result<(), OutOfMemory>
    ensures { OnOk result (instructions code.new.items ≡ instructions code.old.items ++ turn_code line b (whole_array target.now) (transformation how.now)) }
{
    match how {
        Transformation::CircularShift(by) => {
            let n = first_extent(target.dims.as_slice());
            push_turn(alloc, code, line, b, by, n)
        }
        Transformation::Transposition | Transformation::PrefixSum => Ok(()),
    }
}

/// Puts that of a number modulo another.
fn push_turn(
    alloc: Global,
    code: &mut Vec<Instruction>,
    line: u32,
    b: usize,
    by: &Term,
    n: i64,
) -> Result<(), OutOfMemory>
    ensures { OnOk result (instructions code.new.items ≡ instructions code.old.items ++ code_of line b (Apply op.Modulo (More (term by.now) (More (Number n) NoTerm)))) }
{
    let slot = plus(b, slots_of(by)?)?;
    joined(code, code_of(alloc, line, b, by)?)?;
    let value = flat_of(alloc, b, by)?;
    code.push(set(line, slot, of_two(alloc, Op::Modulo, value, Flat::Int(n))?))?;
    Ok(())
}

/// The extent of the first dimension; 1 where it is empty.
fn first_extent(dims: &[Dim]) -> i64
    requires { AreDims dims.now }
    ensures { result ≡ pos (max 1 (slice_index_or (map extent dims.now) 0 1)) }
{
    match dims {
        [d, ..] => (extent(*d) as i64).max(1),
        [] => 1,
    }
}

// ---- subscripts

/// The subscripts of the whole target, in the order of the source's dimensions.
fn over_in_order(
    alloc: Global,
    b: usize,
    dims: &[Dim],
    how: &Transformation,
) -> Result<Vec<Sub>, OutOfMemory>
    ensures { IfOk result (λ ds. subs ds.items ≡ in_order (transformation how.now) (subs_of b (whole dims.now))) }
{
    let mut over = bounds_subs(alloc, b, dims)?;
    match how {
        Transformation::CircularShift(_) | Transformation::PrefixSum => Ok(over),
        Transformation::Transposition => {
            over.reverse();
            Ok(over)
        }
    }
}

// ---- shapes

/// Whether the target has the shape that the transformation gives.
fn has_shape(
    alloc: Global,
    target: &WholeArray,
    source: &WholeArray,
    how: &Transformation,
) -> Result<bool, OutOfMemory>
    ensures { IfOk result (λ b. b ≡ has_shape (whole_array target.now) (whole_array source.now) (transformation how.now)) }
{
    let own = extents(alloc, target.dims.as_slice())?;
    let mut given = extents(alloc, source.dims.as_slice())?;
    match how {
        Transformation::CircularShift(_) | Transformation::PrefixSum => {
            Ok(*given.as_slice() == *own.as_slice())
        }
        Transformation::Transposition => {
            given.reverse();
            Ok(*given.as_slice() == *own.as_slice())
        }
    }
}

/// The extents of an array.
fn extents(alloc: Global, dims: &[Dim]) -> Result<Vec<u64>, OutOfMemory>
    requires { AreDims dims.now }
    ensures { IfOk result (λ ns. ns.items ≡ map extent dims.now) }
{
    let mut ns = Vec::new(alloc);
    for d in dims {
        ns.push(extent(*d))?;
    }
    Ok(ns)
}

//! CSHIFT, TRANSPOSE and SUM_PREFIX of whole arrays with their names resolved (Fortran 95, 13.14.26 and 13.14.111; HPF 2.0, 7.4). An `Err` is
//! want of memory here.

ghost use Rattle.std.specs.Prelude.{◌≡◌, Some, option_copied, option_map, unwrap_or, IfOk};
ghost use Rattle.syntax_tree.specs.Expression.{arguments_of, expression};
ghost use Rattle.syntax_tree.specs.Statement.{designator, variable};
ghost use Rattle.syntax_tree.specs.declared.expr.Expr.TheVariants as expr;
ghost use Rattle.op_tables.specs.declared.op.Op.TheVariants as op;
ghost use Rattle.array_meaning.specs.Statements.{Statement};
ghost use Rattle.array_meaning.specs.Resolution.{array_of, transform_between, transform_or, transformation_by, transformation_of, whole_array};
ghost use Rattle.resolved_program.specs.Resolved.{statement, transformation};
ghost use Rattle.resolved_program.specs.Resolved as plan;

use crate::expressions::term;
use crate::named::place_of;
use hpf_base::OutOfMemory;
use name_table::{Names, What};
use op_tables::Op;
use resolved_program::{Action, Transformation, WholeArray};
use std::alloc::Global;
use syntax_tree::{Expr, Ref};

/// The transformation that an assignment with these sides is, if it is one.
pub(crate) fn transform(
    alloc: Global,
    names: &Names,
    left: &Ref,
    right: &Expr,
) -> Result<Option<Action>, OutOfMemory>
    ensures { IfOk result (λ a. (other : Statement) → unwrap_or (option_map statement a) other
        ≡ transform_or names.now (designator (variable left.now)) (transformation_of names.now (expression right.now)) other) }
{
    match right {
        Expr::Call(op, arguments) => called(alloc, names, left, *op, arguments),
        _ => Ok(None),
    }
}

/// The same where the right side is a call.
fn called(
    alloc: Global,
    names: &Names,
    left: &Ref,
    op: Op,
    arguments: &[Expr],
) -> Result<Option<Action>, OutOfMemory>
    ensures { IfOk result (λ a. (other : Statement) → unwrap_or (option_map statement a) other
        ≡ transform_or names.now (expression (expr.Ref left.now)) (transformation_by names.now op (arguments_of arguments.now)) other) }
{
    match op {
        Op::CShift => shift(alloc, names, left, arguments),
        Op::Transpose => transposition(alloc, names, left, arguments),
        Op::SumPrefix => prefix_sum(alloc, names, left, arguments),
        _ => Ok(None),
    }
}

/// CSHIFT of these arguments: an array, and by how many places it is shifted.
fn shift(
    alloc: Global,
    names: &Names,
    left: &Ref,
    arguments: &[Expr],
) -> Result<Option<Action>, OutOfMemory>
    ensures { IfOk result (λ a. (other : Statement) → unwrap_or (option_map statement a) other
        ≡ transform_or names.now (expression (expr.Ref left.now)) (transformation_by names.now op.CShift (arguments_of arguments.now)) other) }
{
    let Some((source, rest)) = arguments.split_first() else {
        return Ok(None);
    };
    let Some((by, more)) = rest.split_first() else {
        return Ok(None);
    };
    if let Some(_) = more.split_first() {
        return Ok(None);
    }
    let by = term(alloc, names, &[], by)?;
    between(
        alloc,
        names,
        left,
        source,
        Transformation::CircularShift(by),
    )
}

/// TRANSPOSE of this argument.
fn transposition(
    alloc: Global,
    names: &Names,
    left: &Ref,
    arguments: &[Expr],
) -> Result<Option<Action>, OutOfMemory>
    ensures { IfOk result (λ a. (other : Statement) → unwrap_or (option_map statement a) other
        ≡ transform_or names.now (expression (expr.Ref left.now)) (transformation_by names.now op.Transpose (arguments_of arguments.now)) other) }
{
    let Some((source, more)) = arguments.split_first() else {
        return Ok(None);
    };
    if let Some(_) = more.split_first() {
        return Ok(None);
    }
    between(alloc, names, left, source, Transformation::Transposition)
}

/// SUM_PREFIX of this argument.
fn prefix_sum(
    alloc: Global,
    names: &Names,
    left: &Ref,
    arguments: &[Expr],
) -> Result<Option<Action>, OutOfMemory>
    ensures { IfOk result (λ a. (other : Statement) → unwrap_or (option_map statement a) other
        ≡ transform_or names.now (expression (expr.Ref left.now)) (transformation_by names.now op.SumPrefix (arguments_of arguments.now)) other) }
{
    let Some((source, more)) = arguments.split_first() else {
        return Ok(None);
    };
    if let Some(_) = more.split_first() {
        return Ok(None);
    }
    between(alloc, names, left, source, Transformation::PrefixSum)
}

/// A transformation, if both of these are whole arrays.
fn between(
    alloc: Global,
    names: &Names,
    left: &Ref,
    source: &Expr,
    how: Transformation,
) -> Result<Option<Action>, OutOfMemory>
    ensures { IfOk result (λ a. (other : Statement) → unwrap_or (option_map statement a) other
        ≡ transform_between (whole_array names.now (expression (expr.Ref left.now))) (whole_array names.now (expression source.now)) (transformation how) other) }
{
    let Some(target) = named_array(alloc, names, left)? else {
        return Ok(None);
    };
    let Some(source) = whole_array(alloc, names, source)? else {
        return Ok(None);
    };
    Ok(Some(Action::Transform(target, source, how)))
}

/// The array that an expression names by itself, if it does.
fn whole_array(alloc: Global, names: &Names, e: &Expr) -> Result<Option<WholeArray>, OutOfMemory>
    ensures { IfOk result (λ w. option_map plan.whole_array w ≡ whole_array names.now (expression e.now)) }
{
    match e {
        Expr::Ref(reference) => named_array(alloc, names, reference),
        _ => Ok(None),
    }
}

/// The same of a name, with the subscripts after it.
fn named_array(
    alloc: Global,
    names: &Names,
    reference: &Ref,
) -> Result<Option<WholeArray>, OutOfMemory>
    ensures { IfOk result (λ w. option_map plan.whole_array w ≡ whole_array names.now (expression (expr.Ref reference.now))) }
{
    match &reference.subs {
        None => array_of(
            alloc,
            place_of(names, &reference.name),
            names.declared_as(&reference.name),
        ),
        Some(_) => Ok(None),
    }
}

/// The array of a place, if what is declared there is one.
fn array_of(
    alloc: Global,
    place: usize,
    what: Option<&What>,
) -> Result<Option<WholeArray>, OutOfMemory>
    ensures { IfOk result (λ w. option_map plan.whole_array w ≡ array_of place (option_copied what.entry)) }
{
    match what {
        Some(what) => declared_array(alloc, place, what),
        None => Ok(None),
    }
}

/// The same by what is declared there.
fn declared_array(
    alloc: Global,
    place: usize,
    what: &What,
) -> Result<Option<WholeArray>, OutOfMemory>
    ensures { IfOk result (λ w. option_map plan.whole_array w ≡ array_of place (Some what.now)) }
{
    match what {
        What::Array(dims, _) => {
            let dims = dims.copy(alloc)?;
            Ok(Some(WholeArray { array: place, dims }))
        }
        _ => Ok(None),
    }
}

//! Constant expressions (Fortran 95, 7.1.6.1).

ghost use Rattle.std.specs.Prelude.{◌≡◌, ◌∷◌, [], None, drop, option_copied, IfOk};
ghost use Rattle.expression_rules.specs.Dims.{AreDims, IsDim};
ghost use Rattle.syntax_tree.specs.Expression.{expression};
ghost use Rattle.syntax_tree.specs.OperatorValues.{truth};
ghost use Rattle.expression_rules.specs.Constants.{bound_of, called_value, inquired, lower_bound, value_of_symbol, named_first, no_dimension, processor_count, processor_count_in, numbered, of_array, of_dimensions, elemental_value, operated, upper_bound, value, values, values_after, with_more};
ghost use Rattle.expression_rules.specs.Partial.{and_one};
ghost use Rattle.syntax_tree.specs.Expression.{arguments_of};
ghost use Rattle.expression_rules.specs.declared.evaluated.Evaluated.TheVariants.{Known};

use crate::dims::{Dim, Dims, before, extent, numbered, size};
use crate::evaluated::{Evaluated, Numbers};
use crate::scope::Scope;
use crate::symbols::Symbol;
use hpf_base::Grid;
use std::alloc::{AllocError, Global};
use syntax_tree::{
    DivZero, Expr, Op, apply, is_inquiry, is_processor_count, is_transformational, takes,
};

/// The value of an expression that must be constant, over the names that are declared. `grid` is given in a directive.
#[cycle(constants)]
pub fn value(
    alloc: Global,
    grid: Option<&Grid>,
    scope: &Scope<'_>,
    e: &Expr,
) -> Result<Evaluated<i64>, AllocError>
    ensures { IfOk result (λ f. f ≡ value (option_copied grid.entry) scope.now (expression e.now)) }
{
    match e {
        Expr::Int(n) => Ok(Evaluated::Known(*n)),
        Expr::Bool(b) => Ok(Evaluated::Known(truth(*b))),
        Expr::Ref(reference) => match &reference.subs {
            None => Ok(value_of_symbol(scope.find(&reference.name))),
            Some(_) => Ok(Evaluated::Invalid),
        },
        Expr::Unary(op, a) => {
            let a = value(alloc, grid, scope, a)?;
            Ok(operated_one(*op, a))
        }
        Expr::Binary(op, a, b) => {
            let a = value(alloc, grid, scope, a)?;
            let b = value(alloc, grid, scope, b)?;
            Ok(operated_two(*op, a, b))
        }
        Expr::Call(op, arguments) => called_value(alloc, grid, scope, *op, arguments),
        Expr::Paren(a) => value(alloc, grid, scope, a),
    }
}

/// The values of expressions, in order.
#[cycle(constants)]
pub(crate) fn values(
    alloc: Global,
    grid: Option<&Grid>,
    scope: &Scope<'_>,
    expressions: &[Expr],
) -> Result<Evaluated<Numbers>, AllocError>
    ensures { IfOk result (λ f. f ≡ values (option_copied grid.entry) scope.now (arguments_of expressions.now)) }
{
    let mut found = Evaluated::Known(Numbers::new(alloc));
    for e in expressions {
        let number = value(alloc, grid, scope, e)?;
        found = and_one(found, number)?;
    }
    Ok(found)
}

/// The value of an intrinsic procedure.
#[cycle(constants)]
fn called_value(
    alloc: Global,
    grid: Option<&Grid>,
    scope: &Scope<'_>,
    op: Op,
    arguments: &[Expr],
) -> Result<Evaluated<i64>, AllocError>
    ensures { IfOk result (λ f. f ≡ called_value (option_copied grid.entry) op (named_first scope.now (arguments_of arguments.now))
        (values (option_copied grid.entry) scope.now (arguments_of arguments.now)) (values_after (option_copied grid.entry) scope.now (arguments_of arguments.now))) }
{
    if is_inquiry(op) {
        let after = values(alloc, grid, scope, rest_of(arguments))?;
        Ok(of_array(grid, op, named_first(scope, arguments), &after))
    } else if is_processor_count(op) {
        let numbers = values(alloc, grid, scope, arguments)?;
        Ok(processor_count(grid, &numbers))
    } else if is_transformational(op) {
        Ok(Evaluated::Invalid)
    } else {
        let numbers = values(alloc, grid, scope, arguments)?;
        Ok(elemental_value(op, &numbers))
    }
}

/// One value more.
fn and_one(
    found: Evaluated<Numbers>,
    number: Evaluated<i64>,
) -> Result<Evaluated<Numbers>, AllocError>
    ensures { IfOk result (λ f. f ≡ and_one found number) }
{
    match (found, number) {
        (Evaluated::Invalid, _) => Ok(Evaluated::Invalid),
        (Evaluated::Unknown, Evaluated::Invalid) => Ok(Evaluated::Invalid),
        (Evaluated::Unknown, _) => Ok(Evaluated::Unknown),
        (Evaluated::Known(_), Evaluated::Invalid) => Ok(Evaluated::Invalid),
        (Evaluated::Known(_), Evaluated::Unknown) => Ok(Evaluated::Unknown),
        (Evaluated::Known(mut numbers), Evaluated::Known(number)) => {
            numbers.push(number)?;
            Ok(Evaluated::Known(numbers))
        }
    }
}

/// All but the first.
pub(crate) fn rest_of(arguments: &[Expr]) -> &[Expr]
    ensures { result.now ≡ drop 1 arguments.now }
{
    match arguments.split_first() {
        Some((_, rest)) => rest,
        None => arguments,
    }
}

/// Symbol the first argument names.
pub(crate) fn named_first<'a>(scope: &'a Scope<'_>, arguments: &[Expr]) -> Option<&'a Symbol>
    ensures { option_copied result ≡ named_first scope.now (arguments_of arguments.now) }
{
    let (first, _) = arguments.split_first()?;
    let Expr::Ref(reference) = first else {
        return None;
    };
    match &reference.subs {
        None => scope.find(&reference.name),
        Some(_) => None,
    }
}

/// A name by itself: only a constant has a value.
fn value_of_symbol(what: Option<&Symbol>) -> Evaluated<i64>
    ensures { result ≡ value_of_symbol (option_copied what.entry) }
{
    match what {
        Some(Symbol::Constant(Some(n))) => Evaluated::Known(*n),
        Some(Symbol::Constant(None)) => Evaluated::Unknown,
        _ => Evaluated::Invalid,
    }
}

/// An operator or procedure of numbers.
fn operated_on(op: Op, numbers: &[i64]) -> Evaluated<i64>
    ensures { result ≡ operated op (Known numbers.now) }
{
    match apply(op, numbers) {
        Ok(n) => Evaluated::Known(n),
        Err(DivZero) => Evaluated::Invalid,
    }
}

/// A procedure of numbers, if it takes so many.
fn elemental_on(op: Op, numbers: &[i64]) -> Evaluated<i64>
    ensures { result ≡ elemental_value op (Known numbers.now) }
{
    if takes(op, numbers.len()) {
        operated_on(op, numbers)
    } else {
        Evaluated::Unknown
    }
}

/// A procedure of the values that are found.
fn elemental_value(op: Op, found: &Evaluated<Numbers>) -> Evaluated<i64>
    ensures { result ≡ elemental_value op found.now }
{
    match found {
        Evaluated::Invalid => Evaluated::Invalid,
        Evaluated::Unknown => Evaluated::Unknown,
        Evaluated::Known(numbers) => elemental_on(op, numbers.as_slice()),
    }
}

/// An operator with one operand.
fn operated_one(op: Op, a: Evaluated<i64>) -> Evaluated<i64>
    ensures { result ≡ operated op (with_more a (Known [])) }
{
    match a {
        Evaluated::Invalid => Evaluated::Invalid,
        Evaluated::Unknown => Evaluated::Unknown,
        Evaluated::Known(a) => operated_on(op, &[a]),
    }
}

/// An operator with two operands.
fn operated_two(op: Op, a: Evaluated<i64>, b: Evaluated<i64>) -> Evaluated<i64>
    ensures { result ≡ operated op (with_more a (with_more b (Known []))) }
{
    match (a, b) {
        (Evaluated::Invalid, _) | (_, Evaluated::Invalid) => Evaluated::Invalid,
        (Evaluated::Unknown, _) | (_, Evaluated::Unknown) => Evaluated::Unknown,
        (Evaluated::Known(a), Evaluated::Known(b)) => operated_on(op, &[a, b]),
    }
}

/// A dimension that isn't there: outside directives the rules of ranks speak of it.
fn no_dimension(grid: Option<&Grid>) -> Evaluated<i64>
    ensures { result ≡ no_dimension (option_copied grid.entry) }
{
    match grid {
        None => Evaluated::Unknown,
        Some(_) => Evaluated::Invalid,
    }
}

/// SIZE, LBOUND or UBOUND of what a name stands for.
fn of_array(
    grid: Option<&Grid>,
    op: Op,
    what: Option<&Symbol>,
    numbers: &Evaluated<Numbers>,
) -> Evaluated<i64>
    ensures { result ≡ of_array (option_copied grid.entry) op (option_copied what.entry) numbers.now }
{
    match what {
        Some(Symbol::Array(_, dims, _)) => of_dimensions(grid, op, dims, numbers),
        _ => Evaluated::Invalid,
    }
}

/// SIZE, LBOUND or UBOUND of dimensions that may be unknown.
fn of_dimensions(
    grid: Option<&Grid>,
    op: Op,
    dims: &Option<Dims>,
    numbers: &Evaluated<Numbers>,
) -> Evaluated<i64>
    ensures { result ≡ of_dimensions (option_copied grid.entry) op dims.now numbers.now }
{
    match (numbers, dims) {
        (Evaluated::Invalid, _) => Evaluated::Invalid,
        (Evaluated::Unknown, _) => Evaluated::Unknown,
        (Evaluated::Known(_), None) => Evaluated::Unknown,
        (Evaluated::Known(numbers), Some(dims)) => {
            inquired(grid, op, dims.as_slice(), numbers.as_slice())
        }
    }
}

/// SIZE, LBOUND or UBOUND of dimensions, with the values of the arguments after the array (Fortran 95, 13.14). Invalid exactly where
/// the grid of a directive is given and there is no dimension of that number; Unknown where there is another number of arguments
/// than it takes, and without a grid also where there is no such dimension. It takes no memory.
pub fn inquired(grid: Option<&Grid>, op: Op, dims: &[Dim], numbers: &[i64]) -> Evaluated<i64>
    requires { AreDims dims.now }
    ensures { result ≡ inquired (option_copied grid.entry) op dims.now numbers.now }
{
    if numbers.is_empty() {
        return whole_size(grid, op, dims);
    }
    if numbers.len() != 1 {
        return Evaluated::Unknown;
    }
    of_dimension(grid, op, dims, numbers[0])
}

/// SIZE of all dimensions.
fn whole_size(grid: Option<&Grid>, op: Op, dims: &[Dim]) -> Evaluated<i64>
    requires { AreDims dims.now }
    ensures { result ≡ inquired (option_copied grid.entry) op dims.now [] }
{
    match op {
        Op::Size => Evaluated::Known(size(dims) as i64),
        _ => Evaluated::Unknown,
    }
}

/// SIZE, LBOUND or UBOUND of one dimension.
fn of_dimension(grid: Option<&Grid>, op: Op, dims: &[Dim], number: i64) -> Evaluated<i64>
    requires { AreDims dims.now }
    ensures { result ≡ inquired (option_copied grid.entry) op dims.now (number ∷ []) }
{
    match numbered(dims, number) {
        None => no_dimension(grid),
        Some(dim) => Evaluated::Known(bound_of(op, dim)),
    }
}

/// Symbol an inquiry gives of a dimension.
fn bound_of(op: Op, dim: Dim) -> i64
    requires { IsDim dim }
    ensures { result ≡ bound_of op dim }
{
    match op {
        Op::LBound => { if extent(dim) == 0 { 1 } else { dim.lower } }
        Op::UBound => { if extent(dim) == 0 { 0 } else { dim.upper } }
        _ => extent(dim) as i64,
    }
}

/// NUMBER_OF_PROCESSORS.
fn processor_count(grid: Option<&Grid>, numbers: &Evaluated<Numbers>) -> Evaluated<i64>
    ensures { result ≡ processor_count (option_copied grid.entry) numbers.now }
{
    match grid {
        None => Evaluated::Invalid,
        Some(grid) => processor_count_in(grid, numbers),
    }
}

/// NUMBER_OF_PROCESSORS of a grid.
fn processor_count_in(grid: &Grid, numbers: &Evaluated<Numbers>) -> Evaluated<i64>
    ensures { result ≡ processor_count_in grid.now numbers.now }
{
    match numbers {
        Evaluated::Invalid => Evaluated::Invalid,
        Evaluated::Unknown => Evaluated::Unknown,
        Evaluated::Known(numbers) => nodes_at(grid, numbers.as_slice()),
    }
}

/// The number of processor_count, or of those in a dimension.
fn nodes_at(grid: &Grid, numbers: &[i64]) -> Evaluated<i64>
    ensures { result ≡ processor_count_in grid.now (Known numbers.now) }
{
    if numbers.is_empty() {
        return Evaluated::Known(grid.node_count() as i64);
    }
    if numbers.len() != 1 {
        return Evaluated::Unknown;
    }
    match extent_at(grid.dims(), numbers[0]) {
        None => Evaluated::Invalid,
        Some(extent) => Evaluated::Known(extent as i64),
    }
}

/// The extent of a dimension with a number from 1.
fn extent_at(dims: &[u32], number: i64) -> Option<u32>
    ensures { result ≡ numbered dims.now number }
{
    if number < 1 {
        return None;
    }
    dims.get(before(number)).copied()
}

/// The number of a logical value.
fn truth(value: bool) -> i64
    ensures { result ≡ truth value }
{
    if value { 1 } else { 0 }
}

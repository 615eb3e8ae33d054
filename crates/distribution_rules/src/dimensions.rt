//! The bounds of dimensions in directives, and their extents.

ghost use Rattle.std.specs.Prelude.{◌≡◌, ◌≤◌, ◌^◌, map, option_map, IfOk};
ghost use Rattle.expression_rules.specs.Dims.{extent};
ghost use Rattle.syntax_tree.specs.Directive.{bound};
ghost use Rattle.syntax_tree.specs.Expression.{expression};
ghost use Rattle.distribution_rules.specs.Dimensions.{directive_value, directive_value_or, dim_if, dim_of, is_empty_dim, is_too_wide, lower_value, upper_value};

use expression_rules::{Dim, Evaluated, Scope, SymbolTable, value};
use hpf_base::Grid;
use mappings::MAX_TEMPLATE_EXTENT;
use std::alloc::{AllocError, Global};
use syntax_tree::{Bound, Expr};

/// The value of an expression of a directive.
pub(crate) fn directive_value(
    alloc: Global,
    grid: &Grid,
    table: &SymbolTable,
    e: &Expr,
) -> Result<Evaluated<i64>, AllocError>
    ensures { IfOk result (λ v. v ≡ directive_value grid.now table.now (expression e.now)) }
{
    let scope = Scope::new(table);
    let found = value(alloc, Some(grid), &scope, e)?;
    Ok(found)
}

/// The value of an expression of a directive that may be left out, and stands for a number then.
fn directive_value_or(
    alloc: Global,
    other: i64,
    grid: &Grid,
    table: &SymbolTable,
    e: &Option<Expr>,
) -> Result<Evaluated<i64>, AllocError>
    ensures { IfOk result (λ v. v ≡ directive_value_or other grid.now table.now (option_map expression e.now)) }
{
    match e {
        None => Ok(Evaluated::Known(other)),
        Some(e) => {
            let found = directive_value(alloc, grid, table, e)?;
            Ok(found)
        }
    }
}

/// The lower bound of a dimension.
pub(crate) fn lower_value(
    alloc: Global,
    grid: &Grid,
    table: &SymbolTable,
    dimension: &Bound,
) -> Result<Evaluated<i64>, AllocError>
    ensures { IfOk result (λ v. v ≡ lower_value grid.now table.now (bound dimension.now)) }
{
    directive_value_or(alloc, 1, grid, table, &dimension.lower)
}

/// The upper bound of a dimension.
pub(crate) fn upper_value(
    alloc: Global,
    grid: &Grid,
    table: &SymbolTable,
    dimension: &Bound,
) -> Result<Evaluated<i64>, AllocError>
    ensures { IfOk result (λ v. v ≡ upper_value grid.now table.now (bound dimension.now)) }
{
    directive_value(alloc, grid, table, &dimension.upper)
}

/// A dimension, where both of its bounds are known.
fn dim_if(lower: Evaluated<i64>, upper: Evaluated<i64>) -> Option<Dim>
    ensures { result ≡ dim_if lower upper }
{
    match (lower, upper) {
        (Evaluated::Known(lower), Evaluated::Known(upper)) => Some(Dim { lower, upper }),
        _ => None,
    }
}

/// The dimension of these bounds, where they are known.
fn dim_of(
    alloc: Global,
    grid: &Grid,
    table: &SymbolTable,
    dimension: &Bound,
) -> Result<Option<Dim>, AllocError>
    ensures { IfOk result (λ d. d ≡ dim_of grid.now table.now (bound dimension.now)) }
{
    let lower = lower_value(alloc, grid, table, dimension)?;
    let upper = upper_value(alloc, grid, table, dimension)?;
    Ok(dim_if(lower, upper))
}

/// The dimensions of these bounds, each where they are known.
pub(crate) fn dims_of_bounds(
    alloc: Global,
    grid: &Grid,
    table: &SymbolTable,
    bounds: &[Bound],
) -> Result<Vec<Option<Dim>>, AllocError>
    ensures { IfOk result (λ ds. ds.items ≡ map (dim_of grid.now table.now) (map bound bounds.now)) }
{
    let mut dims = Vec::new(alloc);
    for dimension in bounds {
        let dim = dim_of(alloc, grid, table, dimension)?;
        dims.push(dim)?;
    }
    Ok(dims)
}

/// How many positions a dimension has.
pub(crate) fn position_count(dim: Dim) -> u128
    ensures value { result ≡ extent dim }
    ensures few { result ≤ 2 ^ 64 }
{
    if dim.upper < dim.lower {
        0
    } else {
        (dim.upper as i128 - dim.lower as i128) as u128 + 1
    }
}

/// The dimension is known, and empty.
pub(crate) fn is_empty_dim(dim: Option<Dim>) -> bool
    ensures { result ≡ is_empty_dim dim }
{
    match dim {
        None => false,
        Some(dim) => position_count(dim) == 0,
    }
}

/// The dimension is known, and has more positions than one of a template may have.
pub(crate) fn is_too_wide(dim: Option<Dim>) -> bool
    ensures { result ≡ is_too_wide dim }
{
    match dim {
        None => false,
        Some(dim) => position_count(dim) > MAX_TEMPLATE_EXTENT as u128,
    }
}

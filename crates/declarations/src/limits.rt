//! The limits of what a program declares, the dimensions of arrays, and the limits of arrays (Fortran 95, 5.1.2.4.1).

ghost use Rattle.std.specs.Prelude.{◌≡◌, ◌≤◌, map, option_map, All, IfOk};
ghost use Rattle.std.specs.List.{list_any};
ghost use Rattle.declarations.specs.declared.limits.TheConstants.{MAX_TOTAL_ELEMENTS};
ghost use Rattle.syntax_tree.specs.Directive.{bound};
ghost use Rattle.syntax_tree.specs.Expression.{expression};
ghost use Rattle.expression_rules.specs.Dims.{IsDim};
ghost use Rattle.declarations.specs.Declarations.{dims, if_known, is_bound_too_far, is_past_limits, is_too_far, is_too_large, known_dims, number, number_or};
ghost use Rattle.declarations.specs.Declaring.{and_dim, capped_elements};

use crate::declared_names::DeclaredNames;
use expression_rules::{Dim, Dims, Evaluated, Scope, extent, value};
use hpf_base::{MAX_BOUND, MAX_ELEMENTS, MAX_RANK};
use std::alloc::{AllocError, Global};
use syntax_tree::{Bound, Expr};

/// The greatest number of names that a program declares.
pub const MAX_NAMES: usize = 256;

/// The greatest number of elements of all arrays of a program together.
pub const MAX_TOTAL_ELEMENTS: u64 = 4_194_304;

/// The value, where it is known.
fn if_known(found: Evaluated<i64>) -> Option<i64>
    ensures { result ≡ if_known found }
{
    match found {
        Evaluated::Known(number) => Some(number),
        Evaluated::Invalid | Evaluated::Unknown => None,
    }
}

/// The value of a constant expression, where it is known.
pub(crate) fn number(alloc: Global, scope: &Scope<'_>, e: &Expr) -> Result<Option<i64>, AllocError>
    ensures { IfOk result (λ n. n ≡ number scope.now (expression e.now)) }
{
    let found = value(alloc, None, scope, e)?;
    Ok(if_known(found))
}

/// The value, where it is known, of a constant expression that may be left out, and stands for another number then.
pub(crate) fn number_or(
    alloc: Global,
    other: i64,
    scope: &Scope<'_>,
    e: &Option<Expr>,
) -> Result<Option<i64>, AllocError>
    ensures { IfOk result (λ n. n ≡ number_or other scope.now (option_map expression e.now)) }
{
    match e {
        None => Ok(Some(other)),
        Some(e) => number(alloc, scope, e),
    }
}

/// The magnitude of a bound is past the limit.
fn is_too_far(bound: Option<i64>) -> bool
    ensures { result ≡ is_too_far bound }
{
    match bound {
        None => false,
        Some(bound) => bound.unsigned_abs() > MAX_BOUND,
    }
}

/// The magnitude of one of the bounds of a dimension is past the limit.
fn is_dimension_too_far(
    alloc: Global,
    scope: &Scope<'_>,
    dimension: &Bound,
) -> Result<bool, AllocError>
    ensures { IfOk result (λ b. b ≡ is_bound_too_far scope.now (bound dimension.now)) }
{
    let lower = number_or(alloc, 1, scope, &dimension.lower)?;
    let upper = number(alloc, scope, &dimension.upper)?;
    Ok(is_too_far(lower) || is_too_far(upper))
}

/// The magnitude of one of the bounds of these dimensions is past the limit.
fn is_any_too_far(alloc: Global, scope: &Scope<'_>, bounds: &[Bound]) -> Result<bool, AllocError>
    ensures { IfOk result (λ b. b ≡ list_any (is_bound_too_far scope.now) (map bound bounds.now)) }
{
    let mut far = false;
    for dimension in bounds {
        let found = is_dimension_too_far(alloc, scope, dimension)?;
        far |= found;
    }
    Ok(far)
}

/// One dimension more, where all are known.
fn and_dim(
    dims: Option<Vec<Dim>>,
    lower: Option<i64>,
    upper: Option<i64>,
) -> Result<Option<Vec<Dim>>, AllocError>
    ensures { IfOk result (λ ds. option_map (λ v. v.items) ds ≡ and_dim (option_map (λ v. v.items) dims) lower upper) }
{
    match (dims, lower, upper) {
        (Some(mut dims), Some(lower), Some(upper)) => {
            dims.push(Dim { lower, upper })?;
            Ok(Some(dims))
        }
        _ => Ok(None),
    }
}

/// The dimensions, where the bounds of all are known.
fn dims(alloc: Global, scope: &Scope<'_>, bounds: &[Bound]) -> Result<Option<Vec<Dim>>, AllocError>
    ensures { IfOk result (λ ds. option_map (λ v. v.items) ds ≡ dims scope.now (map bound bounds.now)) }
{
    let mut dims = Some(Vec::new(alloc));
    for dimension in bounds {
        let lower = number_or(alloc, 1, scope, &dimension.lower)?;
        let upper = number(alloc, scope, &dimension.upper)?;
        dims = and_dim(dims, lower, upper)?;
    }
    Ok(dims)
}

/// How many elements an array of these dimensions has, or one more than the limit where it has more than that.
fn capped_elements(dims: &[Dim]) -> u64
    requires { All IsDim dims.now }
    ensures { result ≡ capped_elements dims.now }
{
    let mut elements = 1;
    for dim in dims {
        elements = u64::min(elements * extent(*dim), MAX_ELEMENTS + 1);
    }
    elements
}

/// An array of these dimensions has too many elements, by itself or with those of the arrays before it.
fn is_too_large(before: u64, dims: &[Dim]) -> bool
    requires each { All IsDim dims.now }
    requires few { before ≤ MAX_TOTAL_ELEMENTS }
    ensures { result ≡ is_too_large before (Some dims.now) }
{
    let elements = capped_elements(dims);
    elements > MAX_ELEMENTS || before + elements > MAX_TOTAL_ELEMENTS
}

/// The rank, a bound or the number of elements of an array is past its limit.
pub(crate) fn is_past_limits(
    alloc: Global,
    names: &DeclaredNames,
    bounds: &[Bound],
) -> Result<bool, AllocError>
    ensures { IfOk result (λ b. b ≡ is_past_limits names.now (map bound bounds.now)) }
{
    let scope = Scope::new(names.table());
    let far = is_any_too_far(alloc, &scope, bounds)?;
    if bounds.len() > MAX_RANK || far {
        return Ok(true);
    }
    let dims = dims(alloc, &scope, bounds)?;
    match dims {
        None => Ok(false),
        Some(dims) => Ok(is_too_large(names.elements(), &dims)),
    }
}

/// The dimensions of an array, where all are known and it is within the limits.
pub(crate) fn known_dims(
    alloc: Global,
    names: &DeclaredNames,
    bounds: &[Bound],
) -> Result<Option<Dims>, AllocError>
    ensures { IfOk result (λ ds. ds ≡ known_dims names.now (map bound bounds.now)) }
{
    let past = is_past_limits(alloc, names, bounds)?;
    if past {
        return Ok(None);
    }
    let scope = Scope::new(names.table());
    let dims = dims(alloc, &scope, bounds)?;
    match dims {
        None => Ok(None),
        Some(dims) => Ok(Some(Dims::new(dims))),
    }
}

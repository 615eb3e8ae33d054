//! The expressions of declarations, which must be constant (Fortran 95, 7.1.6.1).

ghost use Rattle.std.specs.Prelude.{◌≡◌, [], ◌∷◌, map, option_map, IfOk};
ghost use Rattle.std.specs.List.{flat_map};
ghost use Rattle.syntax_tree.specs.Directive.{bound};
ghost use Rattle.syntax_tree.specs.Expression.{expression};
ghost use Rattle.declarations.specs.Declarations.{bounds_of};
ghost use Rattle.declarations.specs.Declaring.{bounds_held, constant_reason};
ghost use Rattle.declarations.specs.DeclarationRules.{is_invalid};
ghost use Rattle.expression_rules.specs.Inner.{bound_expressions, present};

use crate::least_reason::{lesser, reason_if};
use expression_rules::{Evaluated, Scope, are_operands, value};
use hpf_base::Reason;
use std::alloc::{AllocError, Global};
use syntax_tree::{Bound, Expr};

/// The value breaks a rule: the expression isn't constant, or divides by zero.
fn is_invalid(found: &Evaluated<i64>) -> bool
    ensures { result ≡ is_invalid found.now }
{
    matches!(found, Evaluated::Invalid)
}

/// The least reason for which an expression that must be constant breaks a rule.
#[tactic(auto, using(crate::proofs::ConstantLists::constant_one))]
pub(crate) fn expression_reason(
    alloc: Global,
    scope: &Scope<'_>,
    e: &Expr,
) -> Result<Option<Reason>, AllocError>
    ensures { IfOk result (λ r. r ≡ constant_reason scope.now (expression e.now ∷ [])) }
{
    let found = value(alloc, None, scope, e)?;
    let named = reason_if(!are_operands(scope, e), Reason::BadName);
    let valued = reason_if(is_invalid(&found), Reason::BadConstant);
    Ok(lesser(named, valued))
}

/// The least reason for which a constant expression that may be there breaks a rule.
pub(crate) fn option_reason(
    alloc: Global,
    scope: &Scope<'_>,
    e: &Option<Expr>,
) -> Result<Option<Reason>, AllocError>
    ensures { IfOk result (λ r. r ≡ constant_reason scope.now (present (option_map expression e.now))) }
{
    match e {
        None => Ok(None),
        Some(e) => expression_reason(alloc, scope, e),
    }
}

/// The least reason for which the bounds of a dimension, which must be constant, break a rule.
#[tactic(auto, using(crate::proofs::ConstantLists::constant_append))]
fn dimension_reason(
    alloc: Global,
    scope: &Scope<'_>,
    dimension: &Bound,
) -> Result<Option<Reason>, AllocError>
    ensures { IfOk result (λ r. r ≡ constant_reason scope.now (bound_expressions (bound dimension.now))) }
{
    let lower = option_reason(alloc, scope, &dimension.lower)?;
    let upper = expression_reason(alloc, scope, &dimension.upper)?;
    Ok(lesser(lower, upper))
}

/// The least reason for which the bounds of dimensions, which must be constant, break a rule.
pub(crate) fn bounds_reason(
    alloc: Global,
    scope: &Scope<'_>,
    bounds: &[Bound],
) -> Result<Option<Reason>, AllocError>
    ensures { IfOk result (λ r. r ≡ constant_reason scope.now (flat_map bound_expressions (map bound bounds.now))) }
{
    let mut least = None;
    for dimension in bounds {
        let found = dimension_reason(alloc, scope, dimension)?;
        least = lesser(least, found);
    }
    Ok(least)
}

/// The least reason for which bounds that may be there, and must be constant, break a rule.
pub(crate) fn dims_reason(
    alloc: Global,
    scope: &Scope<'_>,
    dims: &Option<Vec<Bound>>,
) -> Result<Option<Reason>, AllocError>
    ensures { IfOk result (λ r. r ≡ constant_reason scope.now (flat_map bound_expressions (bounds_of (bounds_held dims.now)))) }
{
    match dims {
        None => Ok(None),
        Some(bounds) => bounds_reason(alloc, scope, bounds),
    }
}

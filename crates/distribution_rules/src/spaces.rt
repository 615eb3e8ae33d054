//! The rules of templates and processor arrangements (HPF 2.0, 3.6 and 3.7).

ghost use Rattle.std.specs.Prelude.{◌≡◌, map, IfOk};
ghost use Rattle.std.specs.List.{flat_map, list_any};
ghost use Rattle.syntax_tree.specs.Directive.{arrangement, bound, directive_of};
ghost use Rattle.syntax_tree.specs.MainProgram.{Directed};
ghost use Rattle.declarations.specs.Declarations.{bounds_of, if_known, is_too_far};
ghost use Rattle.declarations.specs.DeclarationRules.{is_invalid};
ghost use Rattle.declarations.specs.Declaring.{least_reason};
ghost use Rattle.distribution_rules.specs.Dimensions.{is_empty_dim, is_too_wide};
ghost use Rattle.distribution_rules.specs.SpaceRules.{arrangement_reasons, bound_reasons, is_misfit, space_reasons, template_reasons};

use crate::dimensions::{dims_of_bounds, is_empty_dim, is_too_wide, lower_value, upper_value};
use crate::least_reason::{lesser, reason_if};
use crate::processors::{extents, has_nodes};
use crate::program_objects::space_bounds;
use crate::setting::Setting;
use expression_rules::{Dim, Evaluated, SymbolTable};
use hpf_base::{Grid, MAX_BOUND, Reason};
use std::alloc::{AllocError, Global};
use syntax_tree::{Bound, Directive, Entity};

/// The least reason for which the templates or the processor arrangements of a directive break a rule; None exactly where they break none,
/// and for any other directive. An `Err` is want of memory.
pub fn bad_space(
    alloc: Global,
    setting: &Setting<'_>,
    directive: &Directive,
) -> Result<Option<Reason>, AllocError>
    ensures { IfOk result (λ r. r ≡ least_reason (space_reasons setting.now (Directed (directive_of directive.now)))) }
{
    match directive {
        Directive::Template(entities) => {
            let found = bad_templates(alloc, setting, entities)?;
            Ok(found)
        }
        Directive::Processors(entities) => {
            let found = bad_arrangements(alloc, setting, entities)?;
            Ok(found)
        }
        _ => Ok(None),
    }
}

/// The least reason for which the templates of a directive break a rule.
fn bad_templates(
    alloc: Global,
    setting: &Setting<'_>,
    entities: &[Entity],
) -> Result<Option<Reason>, AllocError>
    ensures { IfOk result (λ r. r ≡ least_reason (flat_map (λ e. template_reasons setting.now.grid setting.now.names (bounds_of e.bounds)) (map arrangement entities.now))) }
{
    let mut least = None;
    for entity in entities {
        let found = template_reason(alloc, setting.grid(), setting.table(), space_bounds(entity))?;
        least = lesser(least, found);
    }
    Ok(least)
}

/// The least reason for which the processor arrangements of a directive break a rule.
fn bad_arrangements(
    alloc: Global,
    setting: &Setting<'_>,
    entities: &[Entity],
) -> Result<Option<Reason>, AllocError>
    ensures { IfOk result (λ r. r ≡ least_reason (flat_map (λ e. arrangement_reasons setting.now.grid setting.now.names (bounds_of e.bounds)) (map arrangement entities.now))) }
{
    let mut least = None;
    for entity in entities {
        let found = arrangement_reason(
            alloc,
            setting.grid(),
            setting.table(),
            space_bounds(entity),
        )?;
        least = lesser(least, found);
    }
    Ok(least)
}

/// The least reason for which a template with these bounds breaks a rule.
#[tactic(auto, using(crate::proofs::LeastReasons::reason_more))]
fn template_reason(
    alloc: Global,
    grid: &Grid,
    table: &SymbolTable,
    bounds: &[Bound],
) -> Result<Option<Reason>, AllocError>
    ensures { IfOk result (λ r. r ≡ least_reason (template_reasons grid.now table.now (map bound bounds.now))) }
{
    let own = bounds_reason(alloc, grid, table, bounds)?;
    let dims = dims_of_bounds(alloc, grid, table, bounds)?;
    Ok(lesser(own, reason_if(has_wide(&dims), Reason::Limit)))
}

/// The least reason for which an arrangement with these bounds breaks a rule.
#[tactic(auto, using(crate::proofs::LeastReasons::reason_more))]
fn arrangement_reason(
    alloc: Global,
    grid: &Grid,
    table: &SymbolTable,
    bounds: &[Bound],
) -> Result<Option<Reason>, AllocError>
    ensures { IfOk result (λ r. r ≡ least_reason (arrangement_reasons grid.now table.now (map bound bounds.now))) }
{
    let own = bounds_reason(alloc, grid, table, bounds)?;
    let dims = dims_of_bounds(alloc, grid, table, bounds)?;
    let misfit = is_misfit(alloc, grid, &dims)?;
    Ok(lesser(own, reason_if(misfit, Reason::BadArrangement)))
}

/// The least reason for which bounds break a rule.
fn bounds_reason(
    alloc: Global,
    grid: &Grid,
    table: &SymbolTable,
    bounds: &[Bound],
) -> Result<Option<Reason>, AllocError>
    ensures { IfOk result (λ r. r ≡ least_reason (flat_map (bound_reasons grid.now table.now) (map bound bounds.now))) }
{
    let mut least = None;
    for dimension in bounds {
        let found = dimension_reason(alloc, grid, table, dimension)?;
        least = lesser(least, found);
    }
    Ok(least)
}

/// The least reason for which the bounds of one dimension break a rule.
#[tactic(auto, using(crate::proofs::LeastReasons::two_reasons))]
fn dimension_reason(
    alloc: Global,
    grid: &Grid,
    table: &SymbolTable,
    dimension: &Bound,
) -> Result<Option<Reason>, AllocError>
    ensures { IfOk result (λ r. r ≡ least_reason (bound_reasons grid.now table.now (bound dimension.now))) }
{
    let lower = lower_value(alloc, grid, table, dimension)?;
    let upper = upper_value(alloc, grid, table, dimension)?;
    let invalid = is_invalid(&lower) | is_invalid(&upper);
    let far = is_too_far(&lower) | is_too_far(&upper);
    Ok(lesser(
        reason_if(invalid, Reason::BadConstant),
        reason_if(far, Reason::Limit),
    ))
}

/// The value breaks a rule: the expression isn't constant, or divides by zero.
fn is_invalid(found: &Evaluated<i64>) -> bool
    ensures { result ≡ is_invalid found.now }
{
    matches!(found, Evaluated::Invalid)
}

/// The magnitude of a bound is past the limit.
fn is_too_far(found: &Evaluated<i64>) -> bool
    ensures { result ≡ is_too_far (if_known found.now) }
{
    match found {
        Evaluated::Known(bound) => bound.unsigned_abs() > MAX_BOUND,
        Evaluated::Invalid | Evaluated::Unknown => false,
    }
}

/// A dimension has more positions than one of a template may have.
pub(crate) fn has_wide(dims: &[Option<Dim>]) -> bool
    ensures { result ≡ list_any is_too_wide dims.now }
{
    dims.iter().any(|dim| is_too_wide(*dim))
}

/// A dimension is empty.
pub(crate) fn has_empty(dims: &[Option<Dim>]) -> bool
    ensures { result ≡ list_any is_empty_dim dims.now }
{
    dims.iter().any(|dim| is_empty_dim(*dim))
}

/// An arrangement of these dimensions has none, or an empty one, or another number of processors than the grid.
fn is_misfit(alloc: Global, grid: &Grid, dims: &[Option<Dim>]) -> Result<bool, AllocError>
    ensures { IfOk result (λ b. b ≡ is_misfit grid.now dims.now) }
{
    if dims.is_empty() || has_empty(dims) {
        return Ok(true);
    }
    match extents(alloc, dims)? {
        None => Ok(false),
        Some(extents) => Ok(!has_nodes(grid, extents.as_slice())),
    }
}

//! Arrangements of processors (HPF 2.0, 3.7).

ghost use Rattle.std.specs.Prelude.{◌≡◌, ◌==◌, ◌≤◌, ◌^◌, ◌∷◌, [], Some, All, min, option_copied, IfOk};
ghost use Rattle.hpf_base.specs.ElementOrder.{product};
ghost use Rattle.distribution_rules.specs.Dimensions.{extents};
ghost use Rattle.distribution_rules.specs.DistributionRules.{known_extents, on_grid, onto_object};
ghost use Rattle.distribution_rules.specs.Setting.{is_arrangement_kind};
ghost use Rattle.distribution_rules.specs.ProgramObjects.{and_extent};

use crate::dimensions::position_count;
use crate::evaluated_formats::{ProcessorExtents, Processors};
use crate::objects::{Object, ObjectKind};
use crate::spaces::has_empty;
use expression_rules::Dim;
use hpf_base::{Grid, Reason};
use std::alloc::{AllocError, Global};

/// The extents of dimensions, where all are known.
pub(crate) fn extents(
    alloc: Global,
    dims: &[Option<Dim>],
) -> Result<Option<ProcessorExtents>, AllocError>
    ensures { IfOk result (λ ns. ns ≡ extents dims.now) }
{
    let mut extents = Some(ProcessorExtents::new(alloc));
    for dim in dims {
        extents = and_extent(extents, *dim)?;
    }
    Ok(extents)
}

/// One extent more, where all are known.
fn and_extent(
    extents: Option<ProcessorExtents>,
    dim: Option<Dim>,
) -> Result<Option<ProcessorExtents>, AllocError>
    ensures { IfOk result (λ ns. ns ≡ and_extent extents dim) }
{
    match (extents, dim) {
        (Some(mut extents), Some(dim)) => {
            extents.push(position_count(dim))?;
            Ok(Some(extents))
        }
        _ => Ok(None),
    }
}

/// Whether an arrangement of these extents has as many processors as the grid.
pub(crate) fn has_nodes(grid: &Grid, extents: &[u128]) -> bool
    requires { All (λ n. n ≤ 2 ^ 64) extents.now }
    ensures { result ≡ (product extents.now == product grid.now) }
{
    capped_product(extents) == grid.node_count() as u128
}

/// The product of extents, or 65 where it is more than that.
fn capped_product(extents: &[u128]) -> u128
    requires { All (λ n. n ≤ 2 ^ 64) extents.now }
    ensures { result ≡ min (product extents.now) 65 }
{
    let mut nodes = 1;
    for extent in extents {
        nodes = u128::min(nodes * *extent, 65);
    }
    nodes
}

/// The arrangement without ONTO, where so many dimensions are distributed.
pub(crate) fn on_grid(alloc: Global, grid: &Grid, count: usize) -> Result<Processors, AllocError>
    ensures { IfOk result (λ p. p ≡ on_grid grid.now count) }
{
    if count == 0 || count == grid.dims().len() {
        let extents = grid_extents(alloc, grid)?;
        return Ok(Processors::Extents(extents));
    }
    if count == 1 {
        let extents = one_line(alloc, grid)?;
        return Ok(Processors::Extents(extents));
    }
    Ok(Processors::Missing(Reason::BadArrangement))
}

/// The extents of a grid.
fn grid_extents(alloc: Global, grid: &Grid) -> Result<ProcessorExtents, AllocError>
    ensures { IfOk result (λ ns. ns ≡ grid.now) }
{
    let dims = grid.dims();
    let mut extents = ProcessorExtents::new(alloc);
    for place in 0..dims.len() {
        extents.push(dims[place] as u128)?;
    }
    Ok(extents)
}

/// All nodes of a grid in one line.
fn one_line(alloc: Global, grid: &Grid) -> Result<ProcessorExtents, AllocError>
    ensures { IfOk result (λ ns. ns ≡ product grid.now ∷ []) }
{
    let mut extents = ProcessorExtents::new(alloc);
    extents.push(grid.node_count() as u128)?;
    Ok(extents)
}

/// The arrangement after ONTO, where so many dimensions are distributed. The object None stands for a name that is no array, template or
/// arrangement.
pub(crate) fn onto_object(
    alloc: Global,
    object: Option<&Object>,
    count: usize,
) -> Result<Processors, AllocError>
    ensures { IfOk result (λ p. p ≡ onto_object (option_copied object.entry) count) }
{
    match object {
        None => Ok(Processors::Missing(Reason::BadDirective)),
        Some(object) => arrangement_of(alloc, object, count),
    }
}

/// The arrangement after ONTO, where its name is that of this object and so many dimensions are distributed.
fn arrangement_of(alloc: Global, object: &Object, count: usize) -> Result<Processors, AllocError>
    ensures { IfOk result (λ p. p ≡ onto_object (Some object.now) count) }
{
    let dims = object.dims.as_slice();
    if !is_arrangement(object.kind) || dims.len() != count {
        return Ok(Processors::Missing(Reason::BadDirective));
    }
    known_extents(alloc, dims)
}

/// Whether it is an arrangement.
fn is_arrangement(kind: ObjectKind) -> bool
    ensures { result ≡ is_arrangement_kind kind }
{
    matches!(kind, ObjectKind::Arrangement)
}

/// An arrangement of these dimensions, where all extents are known and none is 0.
fn known_extents(alloc: Global, dims: &[Option<Dim>]) -> Result<Processors, AllocError>
    ensures { IfOk result (λ p. p ≡ known_extents dims.now (extents dims.now)) }
{
    match extents(alloc, dims)? {
        None => Ok(Processors::Unknown),
        Some(extents) => {
            if has_empty(dims) {
                Ok(Processors::Unknown)
            } else {
                Ok(Processors::Extents(extents))
            }
        }
    }
}

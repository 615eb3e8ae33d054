//! The distributed dimensions of an object, and blocks that don't fit (HPF 2.0, 3.3).

ghost use Rattle.std.specs.Prelude.{◌≡◌, ◌+◌, ◌<◌, ◌≤◌, ◌^◌, All, drop, length, IfSome};
ghost use Rattle.std.specs.List.{list_any};
ghost use Rattle.distribution_rules.specs.DistributionRules.{are_unfit, distributed_dims, distributed_from, has_other_count, is_unfit, leaves_some};
ghost use Rattle.distribution_rules.specs.DistributedSteps.{procs_for, unfit_at, used};

use crate::dimensions::position_count;
use crate::evaluated_formats::{DistributionValues, FormatValue, Processors};
use expression_rules::{Dim, Evaluated};

/// The blocks of a dimension don't fit, of an object of these dimensions, which are as many as the formats.
pub(crate) fn has_unfit(values: &DistributionValues, dims: &[Option<Dim>]) -> bool
    requires { length values.now.formats ≡ length dims.now }
    ensures { result ≡ list_any is_unfit (distributed_dims values.now dims.now) }
{
    match &values.processors {
        Processors::Extents(extents) => {
            is_any_unfit(values.formats.as_slice(), dims, extents.as_slice())
        }
        Processors::Unknown | Processors::Missing(_) => false,
    }
}

/// The blocks of a dimension don't fit, of an object of these dimensions, on an arrangement of these extents.
fn is_any_unfit(formats: &[FormatValue], dims: &[Option<Dim>], extents: &[u128]) -> bool
    requires rank { length formats.now ≡ length dims.now }
    requires few { All (λ n. n ≤ 2 ^ 64) extents.now }
    ensures { result ≡ list_any is_unfit (distributed_from 0 0 formats.now dims.now extents.now) }
{
    let mut unfit = false;
    let mut grid_dim = 0;
    for place in 0..formats.len() {
        let format = &formats[place];
        let procs = procs_for(format, extents, grid_dim);
        unfit |= is_unfit_on(format, dims[place], procs);
        grid_dim = next_grid_dim(grid_dim, procs);
    }
    unfit
}

/// The extent of the next dimension of an arrangement, where a format distributes.
pub(crate) fn procs_for(format: &FormatValue, extents: &[u128], grid_dim: usize) -> Option<u128>
    ensures value { result ≡ procs_for format.now (drop grid_dim extents.now) }
    ensures few { All (λ n. n ≤ 2 ^ 64) extents.now → IfSome result (λ n. n ≤ 2 ^ 64) }
{
    match format {
        FormatValue::Undistributed => None,
        _ => extents.get(grid_dim).copied(),
    }
}

/// The dimension of an arrangement after one that is taken, if one is.
pub(crate) fn next_grid_dim(grid_dim: usize, procs: Option<u128>) -> usize
    requires { grid_dim + used procs < 2 ^ 64 }
    ensures { result ≡ grid_dim + used procs }
{
    match procs {
        None => grid_dim,
        Some(_) => grid_dim + 1,
    }
}

/// The blocks of a dimension don't fit, if it lies on a dimension of an arrangement.
fn is_unfit_on(format: &FormatValue, dim: Option<Dim>, procs: Option<u128>) -> bool
    requires { IfSome procs (λ n. n ≤ 2 ^ 64) }
    ensures { result ≡ unfit_at format.now dim procs }
{
    match procs {
        None => false,
        Some(procs) => are_unfit(format, procs, dim),
    }
}

/// The blocks of a dimension don't fit on so many processors.
fn are_unfit(format: &FormatValue, procs: u128, dim: Option<Dim>) -> bool
    requires { procs ≤ 2 ^ 64 }
    ensures { result ≡ are_unfit format.now procs dim }
{
    if has_other_count(format, procs) {
        return true;
    }
    match dim {
        None => false,
        Some(dim) => leaves_some(format, procs, dim),
    }
}

/// GEN_BLOCK has another number of sizes than so many.
fn has_other_count(format: &FormatValue, procs: u128) -> bool
    ensures { result ≡ has_other_count format.now procs }
{
    match format {
        FormatValue::GenBlock(sizes) => sizes.as_slice().len() as u128 != procs,
        _ => false,
    }
}

/// Blocks of m positions on so many processors don't take all positions of a dimension.
fn leaves_some(format: &FormatValue, procs: u128, dim: Dim) -> bool
    requires { procs ≤ 2 ^ 64 }
    ensures { result ≡ leaves_some format.now procs dim }
{
    match format {
        FormatValue::Block(Evaluated::Known(m)) => {
            m.unsigned_abs() as u128 * procs < position_count(dim)
        }
        _ => false,
    }
}

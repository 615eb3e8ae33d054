//! The mapping that DISTRIBUTE gives its object (HPF 2.0, 3.3).

ghost use Rattle.std.specs.Prelude.{◌≡◌, ◌<◌, ◌≤◌, ◌^◌, All, Some, length, option_and_then, option_map, IfOk, IfSome};
ghost use Rattle.hpf_base.specs.Grid.{IsGrid};
ghost use Rattle.hpf_base.specs.declared.limits.TheConstants.{MAX_NODES, MAX_RANK};
ghost use Rattle.mappings.specs.declared.limits.TheConstants.{MAX_TEMPLATE_EXTENT};
ghost use Rattle.distribution_rules.specs.Distributed.{all_or_none, distributed, form_of, has_all_nodes, map_dim, mapping_onto};
ghost use Rattle.distribution_rules.specs.DistributedSteps.{and_entries, distributed_dim, entry_if, entry_list};
ghost use Rattle.distribution_rules.specs.DistributionRules.{distributed_from};

use crate::block_sizes::known_blocks;
use crate::blocks::{next_grid_dim, procs_for};
use crate::dimensions::{is_too_wide, position_count};
use crate::evaluated_formats::{DistributionValues, FormatValue, Processors};
use crate::processors::has_nodes;
use crate::setting::Setting;
use expression_rules::{Dim, Evaluated};
use hpf_base::{Grid, MAX_RANK};
use mappings::{AlignDim, Form, Line, MapDim, MapDims, Mapping};
use std::alloc::{AllocError, Global};

/// The mapping that a distribution gives an object of these dimensions; None where something that it needs isn't known, is past a limit, or
/// breaks a rule of arrangements. An `Err` is want of memory.
pub fn distributed(
    alloc: Global,
    setting: &Setting<'_>,
    values: &DistributionValues,
    dims: &[Option<Dim>],
) -> Result<Option<Mapping>, AllocError>
    ensures { IfOk result (λ m. m ≡ distributed setting.now values.now dims.now) }
{
    let formats = values.formats.as_slice();
    if dims.len() > MAX_RANK || formats.len() != dims.len() {
        return Ok(None);
    }
    match &values.processors {
        Processors::Extents(extents) => {
            mapping_onto(alloc, setting.grid(), formats, dims, extents.as_slice())
        }
        Processors::Unknown | Processors::Missing(_) => Ok(None),
    }
}

/// The mapping that these formats give an object of these dimensions, onto an arrangement of these extents.
fn mapping_onto(
    alloc: Global,
    grid: &Grid,
    formats: &[FormatValue],
    dims: &[Option<Dim>],
    extents: &[u128],
) -> Result<Option<Mapping>, AllocError>
    requires rank { length formats.now ≡ length dims.now }
    requires short { length dims.now ≤ MAX_RANK }
    requires few { All (λ n. n ≤ 2 ^ 64) extents.now }
    ensures { IfOk result (λ m. m ≡ mapping_onto grid.now extents.now (all_or_none map_dim (distributed_from 0 0 formats.now dims.now extents.now))) }
{
    if !has_all_nodes(grid, extents) {
        return Ok(None);
    }
    let entries = entries(alloc, formats, dims, extents)?;
    let own = grid_of(alloc, extents)?;
    Ok(with_entries(own, entries))
}

/// Whether an arrangement of these extents has a rank and all nodes of the grid.
fn has_all_nodes(grid: &Grid, extents: &[u128]) -> bool
    requires { All (λ n. n ≤ 2 ^ 64) extents.now }
    ensures value { result ≡ has_all_nodes grid.now extents.now }
    ensures grid { IsGrid grid.now }
{
    let _ = grid.dims();
    !extents.is_empty() && extents.len() <= MAX_RANK && has_nodes(grid, extents)
}

/// An arrangement of nodes.
fn grid_of(alloc: Global, extents: &[u128]) -> Result<Grid, AllocError>
    requires { IsGrid extents.now }
    ensures { IfOk result (λ g. g ≡ extents.now) }
{
    let mut narrow = Vec::new(alloc);
    for extent in extents {
        narrow.push(*extent as u32)?;
    }
    match Grid::new(alloc, &narrow) {
        Some(grid) => Ok(grid),
        None => unreachable!(),
    }
}

/// A mapping onto an arrangement, where its entries are known.
fn with_entries(grid: Grid, entries: Option<Vec<MapDim>>) -> Option<Mapping>
    ensures { result ≡ option_map (λ entries. record { grid = grid; dims = entries }) (entry_list entries) }
{
    match entries {
        None => None,
        Some(entries) => Some(Mapping {
            grid,
            dims: MapDims::new(entries),
        }),
    }
}

/// The distributed dimensions, where all are known.
fn entries(
    alloc: Global,
    formats: &[FormatValue],
    dims: &[Option<Dim>],
    extents: &[u128],
) -> Result<Option<Vec<MapDim>>, AllocError>
    requires rank { length formats.now ≡ length dims.now }
    requires short { length dims.now ≤ MAX_RANK }
    requires grid { IsGrid extents.now }
    ensures { IfOk result (λ ms. entry_list ms ≡ all_or_none map_dim (distributed_from 0 0 formats.now dims.now extents.now)) }
{
    let mut entries = Some(Vec::new(alloc));
    let mut grid_dim = 0;
    for place in 0..formats.len() {
        let format = &formats[place];
        let procs = procs_for(format, extents, grid_dim);
        let entry = entry_on(alloc, format, place, dims[place], grid_dim, procs)?;
        entries = and_entry(entries, procs, entry)?;
        grid_dim = next_grid_dim(grid_dim, procs);
    }
    Ok(entries)
}

/// One entry more, if the dimension lies on one of the arrangement, where all are known.
fn and_entry(
    entries: Option<Vec<MapDim>>,
    procs: Option<u128>,
    entry: Option<MapDim>,
) -> Result<Option<Vec<MapDim>>, AllocError>
    ensures { IfOk result (λ ms. entry_list ms ≡ and_entries (entry_list entries) (entry_if procs entry)) }
{
    match (entries, procs, entry) {
        (entries, None, _) => Ok(entries),
        (Some(mut entries), Some(_), Some(entry)) => {
            entries.push(entry)?;
            Ok(Some(entries))
        }
        _ => Ok(None),
    }
}

/// The entry of a dimension that lies on one of the arrangement, where it is known.
fn entry_on(
    alloc: Global,
    format: &FormatValue,
    place: usize,
    dim: Option<Dim>,
    grid_dim: usize,
    procs: Option<u128>,
) -> Result<Option<MapDim>, AllocError>
    requires place { place < 2 ^ 32 }
    requires grid_dim { grid_dim < 2 ^ 32 }
    requires procs { IfSome procs (λ n. (1 ≤ n) × (n ≤ MAX_NODES)) }
    ensures { IfOk result (λ m. m ≡ option_and_then (λ p. map_dim (distributed_dim format.now place dim grid_dim p)) procs) }
{
    match (dim, procs) {
        (Some(dim), Some(procs)) => map_dim(
            alloc,
            format,
            place as u32,
            dim,
            grid_dim as u32,
            procs as u32,
        ),
        _ => Ok(None),
    }
}

/// The entry of a dimension of these bounds.
fn map_dim(
    alloc: Global,
    format: &FormatValue,
    place: u32,
    dim: Dim,
    grid_dim: u32,
    procs: u32,
) -> Result<Option<MapDim>, AllocError>
    requires some { 1 ≤ procs }
    requires nodes { procs ≤ MAX_NODES }
    ensures { IfOk result (λ m. m ≡ map_dim (distributed_dim format.now place (Some dim) grid_dim procs)) }
{
    if is_too_wide(Some(dim)) {
        return Ok(None);
    }
    let extent = position_count(dim) as u64;
    match form_of(alloc, format, extent, procs)? {
        None => Ok(None),
        Some(form) => Ok(Some(MapDim {
            line: Line {
                lower: dim.lower,
                extent,
                form,
                procs,
            },
            grid_dim,
            align: AlignDim::Linear {
                dim: place,
                a: 1,
                b: 0,
            },
        })),
    }
}

/// The format of a dimension of this extent on so many processors, where it is known.
fn form_of(
    alloc: Global,
    format: &FormatValue,
    extent: u64,
    procs: u32,
) -> Result<Option<Form>, AllocError>
    requires some { 1 ≤ procs }
    requires nodes { procs ≤ MAX_NODES }
    requires few { extent ≤ MAX_TEMPLATE_EXTENT }
    ensures { IfOk result (λ f. f ≡ form_of format.now extent procs) }
{
    match format {
        FormatValue::DefaultBlock => {
            let size = u64::max(1, extent.div_ceil(procs as u64));
            Ok(Some(Form::Block(size)))
        }
        FormatValue::Block(Evaluated::Known(m)) => Ok(Some(Form::Block(m.unsigned_abs()))),
        FormatValue::Cyclic(Evaluated::Known(k)) => Ok(Some(Form::Cyclic(k.unsigned_abs()))),
        FormatValue::GenBlock(sizes) => known_blocks(alloc, procs, sizes.as_slice()),
        _ => Ok(None),
    }
}

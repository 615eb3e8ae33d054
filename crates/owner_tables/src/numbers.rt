//! The least owners and the local addresses of the elements of an array, by its dimensions.

ghost use Rattle.std.specs.Prelude.{◌≡◌, ℕ, ◌*◌, ◌<◌, ◌≤◌, ◌^◌, pos, All, IfOk, length, map, replicate, slice_index_or, if◌then◌else◌};
ghost use Rattle.std.specs.List.{list_all, range_with_len};
ghost use Rattle.hpf_base.specs.declared.limits.TheConstants.{MAX_NODES};
ghost use Rattle.hpf_base.specs.ElementOrder.{elements, extents_of, product};
ghost use Rattle.hpf_base.specs.Grid.{node_coordinates};
ghost use Rattle.hpf_base.specs.Shape.{IsShape};
ghost use Rattle.mappings.specs.Mapping.{InLine, IsMapDim, IsMapping, MapsInside};
ghost use Rattle.local_address.specs.Runs.{fixed_agrees, fixed_subscript};
ghost use Rattle.machine_steps.specs.Layout.{count_passing, owned_by, size_of};
ghost use Rattle.owner_tables.specs.Columns.{asked, asked_number, columns_of, totals_of, weight};
ghost use Rattle.owner_tables.specs.Layouts.{IsLaid};

use crate::columns::{Column, Grown, column_along, weight, zeros};
use align_map::coordinate_of;
use hpf_base::{Grid, NodeId, OutOfMemory, Shape};
use local_address::{element_count, extent_of, fixed_agree, fixed_subscript};
use mappings::{MapDim, Mapping};
use std::alloc::Global;

/// What tells the least owner of an element, and its local address.
#[derive(Drop)]
pub(crate) struct Numbers {
    /// The least node that has the coordinates which all elements are given alike.
    pub(crate) base: u32,
    /// The dimensions; none where there is no element.
    pub(crate) columns: Vec<Column>,
    /// For each node how many elements it owns.
    pub(crate) owned: Vec<u32>,
}

/// The numbers of the elements of an array on so many nodes.
pub(crate) fn numbered(
    alloc: Global,
    nodes: u32,
    shape: &Shape,
    mapping: &Mapping,
) -> Result<Numbers, OutOfMemory>
    requires some { 1 ≤ nodes }
    requires few { nodes ≤ MAX_NODES }
    requires laid { IsLaid nodes (record { shape = shape.now; mapping = mapping.now }) }
    ensures base { IfOk result (λ n. 1 ≤ size_of (record { shape = shape.now; mapping = mapping.now })
        → n.base ≡ asked_number mapping.now.grid fixed_subscript mapping.now.dims) }
    ensures columns { IfOk result (λ n. 1 ≤ size_of (record { shape = shape.now; mapping = mapping.now })
        → n.columns.items ≡ columns_of mapping.now shape.now.lower 0 (extents_of shape.now) (replicate nodes 1)) }
    ensures owned { IfOk result (λ n. n.owned.items ≡ map (λ node. count_passing (owned_by (record { shape = shape.now; mapping = mapping.now }) node) 0
        (size_of (record { shape = shape.now; mapping = mapping.now }))) (range_with_len 0 nodes)) }
{
    if element_count(shape) == 0 {
        return Ok(Numbers {
            base: 0,
            columns: Vec::new(alloc),
            owned: zeros(alloc, nodes)?,
        });
    }
    let Columns { columns, totals } = columns_of(alloc, nodes, shape, mapping)?;
    Ok(Numbers {
        base: base(mapping),
        columns,
        owned: owned(alloc, nodes, mapping, &totals)?,
    })
}

/// The dimensions of an array, and how many tuples of places each node owns.
#[derive(Drop)]
struct Columns {
    columns: Vec<Column>,
    totals: Vec<u32>,
}

/// The dimensions of an array that has an element.
fn columns_of(
    alloc: Global,
    nodes: u32,
    shape: &Shape,
    mapping: &Mapping,
) -> Result<Columns, OutOfMemory>
    requires nodes { product mapping.now.grid ≡ nodes }
    requires mapping { IsMapping (length shape.now.lower) mapping.now }
    requires shape { IsShape shape.now }
    requires inside { All (MapsInside mapping.now) (elements shape.now) }
    requires some { 1 ≤ product (extents_of shape.now) }
    ensures columns { IfOk result (λ c. c.columns.items ≡ columns_of mapping.now shape.now.lower 0 (extents_of shape.now) (replicate nodes 1)) }
    ensures totals { IfOk result (λ c. c.totals.items ≡ totals_of mapping.now shape.now.lower 0 (extents_of shape.now) (replicate nodes 1)) }
{
    let lower = shape.lower.numbers();
    let extent = shape.extent.numbers();
    let mut columns = Vec::new(alloc);
    let mut strides = ones(alloc, nodes)?;
    for dim in 0..lower.len() {
        let Grown { column, next } = column_along(
            alloc,
            mapping,
            dim as u32,
            lower_of(lower, dim),
            extent_of(extent, dim) as u32,
            strides,
        )?;
        columns.push(column)?;
        strides = next;
    }
    Ok(Columns {
        columns,
        totals: strides,
    })
}

/// So many ones.
fn ones(alloc: Global, count: u32) -> Result<Vec<u32>, OutOfMemory>
    ensures { IfOk result (λ ones. ones.items ≡ replicate count 1) }
{
    Ok(vec![in alloc; 1; count as usize]?)
}

/// The lower bound of a dimension, counted from 0.
pub(crate) fn lower_of(lower: &[i64], dim: usize) -> i64
    requires { dim < length lower.now }
    ensures { result ≡ slice_index_or lower.now dim (pos 0) }
{
    lower[dim]
}

/// The least node that has the coordinates which all elements are given alike.
fn base(mapping: &Mapping) -> u32
    requires entries { (rank : ℕ) × All (IsMapDim mapping.now.grid rank) mapping.now.dims }
    requires inside { All (λ entry. InLine entry.line (fixed_subscript entry.align)) mapping.now.dims }
    requires small { asked_number mapping.now.grid fixed_subscript mapping.now.dims < 2 ^ 32 }
    ensures { result ≡ asked_number mapping.now.grid fixed_subscript mapping.now.dims }
{
    let mut sum = 0;
    for entry in mapping.dims.as_slice() {
        sum += fixed_part(&mapping.grid, entry);
    }
    sum
}

/// What an entry adds to it.
fn fixed_part(grid: &Grid, entry: &MapDim) -> u32
    requires entry { (rank : ℕ) × IsMapDim grid.now rank entry.now }
    requires inside { InLine entry.now.line (fixed_subscript entry.now.align) }
    ensures { result ≡ asked entry.now.line (fixed_subscript entry.now.align) * weight grid.now entry.now.grid_dim }
{
    match fixed_subscript(&entry.align) {
        None => 0,
        Some(subscript) => {
            coordinate_of(&entry.line, subscript as i128) * weight(grid, entry.grid_dim)
        }
    }
}

/// For each node how many elements it owns, by how many tuples of places it owns.
fn owned(
    alloc: Global,
    nodes: u32,
    mapping: &Mapping,
    totals: &[u32],
) -> Result<Vec<u32>, OutOfMemory>
    requires nodes { product mapping.now.grid ≡ nodes }
    requires totals { length totals.now ≡ nodes }
    requires entries { (rank : ℕ) × All (IsMapDim mapping.now.grid rank) mapping.now.dims }
    requires inside { All (λ entry. InLine entry.line (fixed_subscript entry.align)) mapping.now.dims }
    ensures { IfOk result (λ owned. owned.items ≡ map (λ node. if list_all (fixed_agrees (node_coordinates mapping.now.grid node)) mapping.now.dims
        then slice_index_or totals.now node 0 else 0) (range_with_len 0 nodes)) }
{
    let mut owned = Vec::new(alloc);
    for node in 0..nodes {
        owned.push(owned_of(mapping, node, totals))?;
    }
    Ok(owned)
}

/// How many elements a node owns.
fn owned_of(mapping: &Mapping, node: u32, totals: &[u32]) -> u32
    requires node { node < product mapping.now.grid }
    requires totals { node < length totals.now }
    requires entries { (rank : ℕ) × All (IsMapDim mapping.now.grid rank) mapping.now.dims }
    requires inside { All (λ entry. InLine entry.line (fixed_subscript entry.align)) mapping.now.dims }
    ensures { result ≡ (if list_all (fixed_agrees (node_coordinates mapping.now.grid node)) mapping.now.dims then slice_index_or totals.now node 0 else 0) }
{
    if fixed_agree(mapping, NodeId(node)) {
        totals[node as usize]
    } else {
        0
    }
}

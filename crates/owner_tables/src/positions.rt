//! The positions of the elements that a node owns, from the places that it owns on each dimension.

ghost use Rattle.std.specs.Prelude.{◌≡◌, ◌≢◌, ℕ, ◌+◌, ◌*◌, ◌<◌, ◌≤◌, ◌++◌, ◌==◌, ◌^◌, ℤ, pos, ◌+ℤ◌, ◌*ℤ◌, unsigned_abs, All, IfOk, OnOk, Some, drop, filter, length, map, slice_index_or};
ghost use Rattle.std.specs.List.{flat_map, range_with_len};
ghost use Rattle.hpf_base.specs.declared.limits.TheConstants.{MAX_BOUND, MAX_ELEMENTS};
ghost use Rattle.hpf_base.specs.ElementOrder.{extents_of, product};
ghost use Rattle.hpf_base.specs.Grid.{node_coordinates};
ghost use Rattle.gap_table.specs.GapTable.{nth_of, places_of};
ghost use Rattle.local_address.specs.Runs.{HasLine, InAxis, IsMoving, IsOfGrid, along, axis_along, coordinate_on, own_on};
ghost use Rattle.machine_steps.specs.Layout.{owned_by, size_of};
ghost use Rattle.owner_tables.specs.Layouts.{IsLaid};

use crate::numbers::lower_of;
use gap_table::GapTable;
use hpf_base::{Grid, NodeId, OutOfMemory, Shape};
use local_address::{Axis, axis_along, element_count, extent_of, fixed_agree, node_places};
use mappings::Mapping;
use std::alloc::Global;

/// The positions of the elements that the node owns, ascending. It goes over these alone, and over the places that the node owns on each
/// dimension.
pub(crate) fn positions(
    alloc: Global,
    nodes: u32,
    shape: &Shape,
    mapping: &Mapping,
    node: u32,
) -> Result<Vec<u32>, OutOfMemory>
    requires some { 1 ≤ nodes }
    requires laid { IsLaid nodes (record { shape = shape.now; mapping = mapping.now }) }
    requires node { node < nodes }
    ensures { IfOk result (λ ps. ps.items ≡ filter (owned_by (record { shape = shape.now; mapping = mapping.now }) node)
        (range_with_len 0 (size_of (record { shape = shape.now; mapping = mapping.now })))) }
{
    let mut positions = Vec::new(alloc);
    if element_count(shape) == 0 {
        return Ok(positions);
    }
    if !fixed_agree(mapping, NodeId(node)) {
        return Ok(positions);
    }
    positions.push(0)?;
    for done in 0..shape.lower.numbers().len() {
        let dim = shape.lower.numbers().len() - 1 - done;
        positions = with_dimension(alloc, nodes, shape, mapping, node, dim, &positions)?;
    }
    Ok(positions)
}

/// The numbers of tuples of the slower dimensions, each with each place that the node owns on this dimension, counted from 0.
fn with_dimension(
    alloc: Global,
    nodes: u32,
    shape: &Shape,
    mapping: &Mapping,
    node: u32,
    dim: usize,
    numbers: &[u32],
) -> Result<Vec<u32>, OutOfMemory>
    requires laid { IsLaid nodes (record { shape = shape.now; mapping = mapping.now }) }
    requires node { node < nodes }
    requires dim { dim < length shape.now.lower }
    requires some { 1 ≤ product (extents_of shape.now) }
    requires few { All (λ n. n < product (drop (dim + 1) (extents_of shape.now))) numbers.now }
    ensures { IfOk result (λ all. all.items ≡ flat_map (λ n. map (λ place. n * slice_index_or (extents_of shape.now) dim 0 + place)
        (filter (λ place. along mapping.now node dim (slice_index_or shape.now.lower dim (pos 0) +ℤ pos place))
        (range_with_len 0 (slice_index_or (extents_of shape.now) dim 0)))) numbers.now) }
{
    let _nodes = nodes;
    let lower = lower_of(shape.lower.numbers(), dim);
    let extent = extent_of(shape.extent.numbers(), dim) as u32;
    let own = own_places(alloc, mapping, dim as u32, lower, extent, node)?;
    let all = with_places(alloc, numbers, &own, extent)?;
    Ok(all)
}

/// Each number with each of these places of a faster dimension.
pub(crate) fn with_places(
    alloc: Global,
    numbers: &[u32],
    places: &[u32],
    extent: u32,
) -> Result<Vec<u32>, OutOfMemory>
    requires few { (most : ℕ) × All (λ n. n < most) numbers.now × (most * extent ≤ MAX_ELEMENTS) }
    requires places { All (λ place. place < extent) places.now }
    ensures { IfOk result (λ all. all.items ≡ flat_map (λ n. map (λ place. n * extent + place) places.now) numbers.now) }
{
    let mut all = Vec::new(alloc);
    for number in numbers {
        push_row(&mut all, *number * extent, places)?;
    }
    Ok(all)
}

/// Adds a number with each of these places.
fn push_row(all: &mut Vec<u32>, number: u32, places: &[u32]) -> Result<(), OutOfMemory>
    requires { All (λ place. number + place ≤ MAX_ELEMENTS) places.now }
    ensures { OnOk result (all.new.items ≡ all.old.items ++ map (λ place. number + place) places.now) }
{
    for place in places {
        all.push(number + *place)?;
    }
    Ok(())
}

/// The places that the node owns on a dimension, counted from 0, that begins at `lower`.
fn own_places(
    alloc: Global,
    mapping: &Mapping,
    dim: u32,
    lower: i64,
    extent: u32,
    node: u32,
) -> Result<Vec<u32>, OutOfMemory>
    requires line { HasLine (axis_along dim mapping.now.dims) }
    requires axis { IsOfGrid mapping.now.grid (axis_along dim mapping.now.dims) }
    requires moving { IsMoving (axis_along dim mapping.now.dims) }
    requires lower { unsigned_abs lower ≤ MAX_BOUND }
    requires some { 1 ≤ extent }
    requires extent { extent ≤ MAX_ELEMENTS }
    requires inside { (place : ℕ) → place < extent → InAxis (axis_along dim mapping.now.dims) (lower +ℤ pos place) }
    requires node { node < product mapping.now.grid }
    ensures { IfOk result (λ ps. ps.items ≡ filter (λ place. along mapping.now node dim (lower +ℤ pos place)) (range_with_len 0 extent)) }
{
    let axis = axis_along(alloc, mapping, dim)?;
    places_along(alloc, &mapping.grid, &axis, lower, extent, node)
}

/// The places that the node owns on a dimension of which this is the axis.
fn places_along(
    alloc: Global,
    grid: &Grid,
    axis: &Option<Axis>,
    lower: i64,
    extent: u32,
    node: u32,
) -> Result<Vec<u32>, OutOfMemory>
    requires line { HasLine axis.now }
    requires axis { IsOfGrid grid.now axis.now }
    requires moving { IsMoving axis.now }
    requires lower { unsigned_abs lower ≤ MAX_BOUND }
    requires some { 1 ≤ extent }
    requires extent { extent ≤ MAX_ELEMENTS }
    requires inside { (place : ℕ) → place < extent → InAxis axis.now (lower +ℤ pos place) }
    requires node { node < product grid.now }
    ensures { IfOk result (λ ps. ps.items
        ≡ filter (λ place. coordinate_on axis.now (lower +ℤ pos place) == own_on (node_coordinates grid.now node) axis.now) (range_with_len 0 extent)) }
{
    match axis {
        None => Ok(numbers_below(alloc, extent)?),
        Some(_) => Ok(moving_places(alloc, grid, axis, lower, extent, node)?),
    }
}

/// The numbers below a limit.
pub(crate) fn numbers_below(alloc: Global, limit: u32) -> Result<Vec<u32>, OutOfMemory>
    ensures { IfOk result (λ ns. ns.items ≡ range_with_len 0 limit) }
{
    let mut numbers = Vec::new(alloc);
    for number in 0..limit {
        numbers.push(number)?;
    }
    Ok(numbers)
}

/// Those of a dimension along which something moves.
fn moving_places(
    alloc: Global,
    grid: &Grid,
    axis: &Option<Axis>,
    lower: i64,
    extent: u32,
    node: u32,
) -> Result<Vec<u32>, OutOfMemory>
    requires line { HasLine axis.now }
    requires axis { IsOfGrid grid.now axis.now }
    requires moving { IsMoving axis.now }
    requires lower { unsigned_abs lower ≤ MAX_BOUND }
    requires some { 1 ≤ extent }
    requires extent { extent ≤ MAX_ELEMENTS }
    requires inside { (place : ℕ) → place < extent → InAxis axis.now (lower +ℤ pos place) }
    requires node { node < product grid.now }
    ensures { IfOk result (λ ps. ps.items
        ≡ filter (λ place. coordinate_on axis.now (lower +ℤ pos place) == own_on (node_coordinates grid.now node) axis.now) (range_with_len 0 extent)) }
{
    let table = node_places(alloc, grid, axis, NodeId(node), lower, extent as u64)?;
    let places = listed(alloc, &table)?;
    Ok(places)
}

/// The places of a table.
fn listed(alloc: Global, table: &GapTable) -> Result<Vec<u32>, OutOfMemory>
    requires { All (λ place. place < 2 ^ 32) (places_of table.now) }
    ensures { IfOk result (λ ps. ps.items ≡ places_of table.now) }
{
    let mut places = Vec::new(alloc);
    for number in 0..table.len() {
        places.push(nth(table, number))?;
    }
    Ok(places)
}

/// A place of a table.
fn nth(table: &GapTable, number: u64) -> u32
    requires number { number < table.now.len }
    requires small { nth_of table.now number < 2 ^ 32 }
    ensures { result ≡ nth_of table.now number }
{
    match table.nth(number) {
        Some(place) => place as u32,
        None => unreachable!(),
    }
}

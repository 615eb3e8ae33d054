//! What the nodes own along each dimension of an array.

ghost use Rattle.std.specs.Prelude.{◌≡◌, ℕ, ◌<◌, ◌≤◌, ◌^◌, ℤ, pos, ◌+ℤ◌, unsigned_abs, All, length, IfOk, Some, slice_get, slice_index_or, map, [], List};
ghost use Rattle.hpf_base.specs.declared.limits.TheConstants.{MAX_RANK};
ghost use Rattle.hpf_base.specs.ElementOrder.{elements, extents_of, product};
ghost use Rattle.hpf_base.specs.Shape.{IsShape};
ghost use Rattle.mappings.specs.Mapping.{IsMapping, MapsInside};
ghost use Rattle.local_address.specs.Runs.{HasLine, InAxis, IsOfGrid, axis_along, column_of, columns_of, run_of};

use crate::axes::{axis_along, own_on};
use crate::element::{element_count, extent_of};
use crate::runs::{Run, runs_on};
use hpf_base::{NodeId, OutOfMemory, Shape};
use mappings::Mapping;
use std::alloc::Global;
use std::marker::Model;

/// What each node owns along a dimension, node 0 first. Contracts see the list.
#[derive(Drop)]
pub struct Column {
    runs: Vec<Run>,
}

impl Model for Column {
    ghost use Rattle.std.specs.Prelude.{List};
    ghost use Rattle.local_address.specs.declared.runs.Run.{Run};

    ghost Value = { List Run };

    ghost view = { λ c. c.runs.items };
}

impl Column {
    /// What a node owns.
    pub fn at(&self, node: u32) -> Run
        requires { node < length self.now }
        ensures { slice_get self.now node ≡ Some result }
    {
        self.runs[node as usize]
    }
}

/// What the nodes own along each dimension of an array, a column a dimension, where the array has an element; else nothing.
pub fn columns(alloc: Global, map: &Mapping, shape: &Shape) -> Result<Vec<Column>, OutOfMemory>
    requires mapping { IsMapping (length shape.now.lower) map.now }
    requires shape { IsShape shape.now }
    requires inside { All (MapsInside map.now) (elements shape.now) }
    ensures short { IfOk result (λ columns. length columns.items ≤ MAX_RANK) }
    ensures value { IfOk result (λ columns. 1 ≤ product (extents_of shape.now) → columns.items ≡ columns_of map.now 0 shape.now.lower (extents_of shape.now)) }
{
    let mut columns = Vec::new(alloc);
    if element_count(shape) == 0 {
        return Ok(columns);
    }
    let lower = shape.lower.numbers();
    let extent = shape.extent.numbers();
    for dim in 0..lower.len() {
        columns.push(column_along(
            alloc,
            map,
            dim as u32,
            lower_of(lower, dim),
            extent_of(extent, dim),
        )?)?;
    }
    Ok(columns)
}

/// What the nodes own along one dimension, counted from 0.
fn column_along(
    alloc: Global,
    map: &Mapping,
    dim: u32,
    lower: i64,
    extent: u64,
) -> Result<Column, OutOfMemory>
    requires line { HasLine (axis_along dim map.now.dims) }
    requires axis { IsOfGrid map.now.grid (axis_along dim map.now.dims) }
    requires lower { unsigned_abs lower ≤ 2 ^ 41 }
    requires extent { extent ≤ 2 ^ 20 }
    requires inside { (place : ℕ) → place < extent → InAxis (axis_along dim map.now.dims) (lower +ℤ pos place) }
    ensures { IfOk result (λ column. column ≡ column_of map.now dim lower extent) }
{
    let axis = &axis_along(alloc, map, dim)?;
    let by_coordinate = runs_on(alloc, axis, lower, extent)?;
    let mut runs = Vec::new(alloc);
    for node in 0..map.grid.node_count() {
        let own = own_on(&map.grid, axis, NodeId(node));
        runs.push(by_coordinate[own as usize])?;
    }
    Ok(Column { runs })
}

/// The lower bound of a dimension, counted from 0.
pub fn lower_of(lower: &[i64], dim: usize) -> i64
    requires { dim < length lower.now }
    ensures { result ≡ slice_index_or lower.now dim (pos 0) }
{
    lower[dim]
}

/// What a node owns along each dimension.
pub(crate) fn runs_of_node(
    alloc: Global,
    columns: &[Column],
    node: u32,
) -> Result<Vec<Run>, OutOfMemory>
    requires { All (λ column. node < length column) columns.now }
    ensures { IfOk result (λ runs. runs.items ≡ map (λ column. slice_index_or column node (run_of [])) columns.now) }
{
    let mut runs = Vec::new(alloc);
    for column in columns {
        runs.push(column.at(node))?;
    }
    Ok(runs)
}

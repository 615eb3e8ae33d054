//! Along which dimension of an array an entry of its mapping moves, and what it gives all elements alike.

ghost use Rattle.std.specs.Prelude.{◌≡◌, ℕ, ◌<◌, All, IfOk, Some, slice_get};
ghost use Rattle.std.specs.List.{list_all};
ghost use Rattle.hpf_base.specs.ElementOrder.{product};
ghost use Rattle.hpf_base.specs.Grid.{node_coordinates};
ghost use Rattle.mappings.specs.Mapping.{InLine, IsLine, IsMapDim};
ghost use Rattle.local_address.specs.Runs.{HasLine, InAxis, IsOfGrid, axis_along, axis_by, coordinate_on, fixed_agrees, fixed_subscript, own_on, procs_on};

use align_map::{coordinate_of, linear, node_coordinate};
use hpf_base::{Grid, NodeId};
use mappings::{AlignDim, Line, MapDim, Mapping};
use std::alloc::{AllocError, Global};

/// An entry of a mapping that moves along a dimension of the array: what has the subscript i there has `factor * i + offset` in the line.
#[derive(Drop)]
pub struct Axis {
    pub line: Line,
    pub grid_dim: u32,
    pub factor: i64,
    pub offset: i64,
}

/// The entry that moves along a dimension, counted from 0, where there is one. An `Err` is want of memory.
pub fn axis_along(alloc: Global, map: &Mapping, dim: u32) -> Result<Option<Axis>, AllocError>
    ensures { IfOk result (λ axis. axis ≡ axis_along dim map.now.dims) }
{
    for entry in map.dims.as_slice() {
        let axis = axis_by(alloc, entry, dim)?;
        if axis.is_some() {
            return Ok(axis);
        }
    }
    Ok(None)
}

/// The entry, where it moves along the dimension.
fn axis_by(alloc: Global, entry: &MapDim, dim: u32) -> Result<Option<Axis>, AllocError>
    ensures { IfOk result (λ axis. axis ≡ axis_by dim entry.now entry.now.align) }
{
    match entry.align {
        AlignDim::Linear { dim: d, a, b } if a != 0 && d == dim => {
            let line = entry.line.copy(alloc)?;
            Ok(Some(Axis {
                line,
                grid_dim: entry.grid_dim,
                factor: a,
                offset: b,
            }))
        }
        _ => Ok(None),
    }
}

/// How many coordinates there are on an axis; 1 without one.
pub fn procs_on(axis: &Option<Axis>) -> u32
    ensures { result ≡ procs_on axis.now }
{
    match axis {
        None => 1,
        Some(axis) => axis.line.procs,
    }
}

/// The coordinate on an axis of what has the subscript i; 0 without one.
pub fn coordinate_on(axis: &Option<Axis>, i: i64) -> u32
    requires line { HasLine axis.now }
    requires inside { InAxis axis.now i }
    ensures value { result ≡ coordinate_on axis.now i }
    ensures below { result < procs_on axis.now }
{
    match axis {
        None => 0,
        Some(axis) => coordinate_of(&axis.line, linear(axis.factor, i, axis.offset)),
    }
}

/// The coordinate on an axis of a node of the grid; 0 without one.
pub fn own_on(grid: &Grid, axis: &Option<Axis>, node: NodeId) -> u32
    requires axis { IsOfGrid grid.now axis.now }
    requires node { node.0 < product grid.now }
    ensures value { result ≡ own_on (node_coordinates grid.now node.0) axis.now }
    ensures below { result < procs_on axis.now }
{
    match axis {
        None => 0,
        Some(axis) => node_coordinate(grid, node, axis.grid_dim),
    }
}

/// Whether the node has the coordinate of all elements in every entry that gives them one subscript.
pub fn fixed_agree(map: &Mapping, node: NodeId) -> bool
    requires entries { (rank : ℕ) × All (IsMapDim map.now.grid rank) map.now.dims }
    requires inside { All (λ entry. InLine entry.line (fixed_subscript entry.align)) map.now.dims }
    requires node { node.0 < product map.now.grid }
    ensures { result ≡ list_all (fixed_agrees (node_coordinates map.now.grid node.0)) map.now.dims }
{
    for entry in map.dims.as_slice() {
        if !entry_agrees(&map.grid, entry, node) {
            return false;
        }
    }
    true
}

/// Whether the node has the coordinate of the subscript that the entry gives all elements, where it gives them one.
fn entry_agrees(grid: &Grid, entry: &MapDim, node: NodeId) -> bool
    requires entry { (rank : ℕ) × IsMapDim grid.now rank entry.now }
    requires inside { InLine entry.now.line (fixed_subscript entry.now.align) }
    requires node { node.0 < product grid.now }
    ensures { result ≡ fixed_agrees (node_coordinates grid.now node.0) entry.now }
{
    match fixed_subscript(&entry.align) {
        None => true,
        Some(subscript) => {
            coordinate_of(&entry.line, subscript as i128)
                == node_coordinate(grid, node, entry.grid_dim)
        }
    }
}

/// The subscript that an alignment gives all elements alike, where it does.
pub fn fixed_subscript(align: &AlignDim) -> Option<i64>
    ensures { result ≡ fixed_subscript align.now }
{
    match *align {
        AlignDim::Linear { a: 0, b, .. } => Some(b),
        AlignDim::At(v) => Some(v),
        AlignDim::Linear { .. } | AlignDim::Every => None,
    }
}

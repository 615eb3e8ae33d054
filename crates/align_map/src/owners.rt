//! The owners of an element.

ghost use Rattle.std.specs.Prelude.{◌≡◌, ◌+◌, ◌<◌, ◌≤◌, ℤ, pos, ◌+ℤ◌, ◌-ℤ◌, ◌*ℤ◌, unsigned_abs, length, map, Some, slice_index, IsTrue};
ghost use Rattle.mappings.specs.Alignment.{agrees, aligned, least_owner, owns, position_at};
ghost use Rattle.hpf_base.specs.ElementOrder.{product};
ghost use Rattle.hpf_base.specs.Grid.{node_coordinates};
ghost use Rattle.mappings.specs.Mapping.{InLine, IsAlign, IsLine, IsMapDim, IsMapping, MapsInside};
ghost use Rattle.mappings.specs.Owner.{coordinate};

use crate::subscripts::linear;
use distribution::owner;
use hpf_base::{Grid, Index, NodeId};
use mappings::{AlignDim, Line, MapDim, Mapping};

/// Whether the node owns the element with the subscripts `index`: its coordinate in the grid is that of the
/// position that the element is given, in every distributed dimension of the template; a dimension over which the
/// element is replicated takes any coordinate (HPF 2.0, ALIGN and DISTRIBUTE). The element lies inside the template,
/// and the node in the grid. It takes no memory.
pub fn owns(map: &Mapping, index: &Index, node: NodeId) -> bool
    requires mapping { IsMapping (length index.now) map.now }
    requires inside { MapsInside map.now index.now }
    requires node { node.0 < product map.now.grid }
    ensures { result ≡ owns map.now index.now node.0 }
{
    for entry in map.dims.as_slice() {
        if !entry_agrees(&map.grid, entry, index, node) {
            return false;
        }
    }
    true
}

/// The owner of the element with the subscripts `index` that has the least number; each element has one. The element
/// lies inside the template. It takes no memory.
pub fn least_owner(map: &Mapping, index: &Index) -> NodeId
    requires mapping { IsMapping (length index.now) map.now }
    requires inside { MapsInside map.now index.now }
    ensures value { least_owner map.now index.now ≡ Some result.0 }
    ensures node { result.0 < product map.now.grid }
    ensures owner { IsTrue (owns map.now index.now result.0) }
{
    for node in 0..map.grid.node_count() {
        if owns(map, index, NodeId(node)) {
            return NodeId(node);
        }
    }
    unreachable!()
}

/// Whether the node's coordinate is that of the position that the entry gives the element.
fn entry_agrees(grid: &Grid, entry: &MapDim, index: &Index, node: NodeId) -> bool
    requires entry { IsMapDim grid.now (length index.now) entry.now }
    requires inside { InLine entry.now.line (aligned entry.now.align (map Some index.now)) }
    requires node { node.0 < product grid.now }
    ensures { result ≡ agrees (node_coordinates grid.now node.0) (map Some index.now) entry.now }
{
    match subscript(&entry.align, index) {
        Some(subscript) => {
            coordinate_of(&entry.line, subscript) == node_coordinate(grid, node, entry.grid_dim)
        }
        None => true,
    }
}

/// The subscript that the template's dimension is given for an element; None where it is every one.
fn subscript(align: &AlignDim, index: &Index) -> Option<i128>
    requires { IsAlign (length index.now) align.now }
    ensures { result ≡ aligned align.now (map Some index.now) }
{
    match *align {
        AlignDim::Linear { dim, a, b } => Some(linear(a, index.numbers()[dim as usize], b)),
        AlignDim::At(v) => Some(v as i128),
        AlignDim::Every => None,
    }
}

/// The coordinate, from 0, of the processor that owns the position at which a subscript of the template's dimension stands. It takes no memory.
pub fn coordinate_of(line: &Line, subscript: i128) -> u32
    requires line { IsLine line.now }
    requires inside { InLine line.now (Some subscript) }
    ensures value { result ≡ coordinate line.now (unsigned_abs (position_at line.now subscript)) }
    ensures below { result < line.now.procs }
{
    owner(line, position(line, subscript))
}

/// The position, from 1, at which a subscript stands in a line. It takes no memory.
pub fn position(line: &Line, subscript: i128) -> u64
    requires line { IsLine line.now }
    requires inside { InLine line.now (Some subscript) }
    ensures value { result ≡ unsigned_abs (position_at line.now subscript) }
    ensures from { 1 ≤ result }
    ensures upto { result ≤ line.now.extent }
{
    (subscript - line.lower as i128 + 1) as u64
}

/// The node's coordinate, from 0, in a dimension of the grid, counted from 0. It takes no memory.
pub fn node_coordinate(grid: &Grid, node: NodeId, dim: u32) -> u32
    requires node { node.0 < product grid.now }
    requires dim { dim < length grid.now }
    ensures { result ≡ slice_index (node_coordinates grid.now node.0) dim }
{
    let dims = grid.dims();
    let mut rest = node.0;
    for faster in 0..dim as usize {
        rest /= dims[faster];
    }
    rest % dims[dim as usize]
}

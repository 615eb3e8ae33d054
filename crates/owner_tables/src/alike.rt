//! Nodes that own the same elements.

ghost use Rattle.std.specs.Prelude.{◌≡◌, ◌<◌, ◌==◌, ◌++◌, ◌∷◌, [], All, IfOk, OnOk, filter, length, map, slice_index, slice_index_or};
ghost use Rattle.std.specs.List.{range_with_len};
ghost use Rattle.hpf_base.specs.ElementOrder.{product};
ghost use Rattle.hpf_base.specs.Grid.{node_coordinates};
ghost use Rattle.owner_tables.specs.Alike.{alike_nodes, is_alike, is_alike_in};

use align_map::node_coordinate;
use hpf_base::{Grid, NodeId, OutOfMemory};
use mappings::{AlignDim, MapDim, Mapping};
use std::alloc::Global;

/// For each of so many nodes those that own what it owns, ascending.
pub(crate) fn alike_nodes(
    alloc: Global,
    nodes: u32,
    mapping: &Mapping,
) -> Result<Vec<Vec<u32>>, OutOfMemory>
    requires dims { All (λ entry. entry.grid_dim < length mapping.now.grid) mapping.now.dims }
    requires nodes { product mapping.now.grid ≡ nodes }
    ensures { IfOk result (λ rows. map (λ v. v.items) rows.items ≡ map (alike_nodes mapping.now nodes) (range_with_len 0 nodes)) }
{
    let mut rows = Vec::new(alloc);
    for node in 0..nodes {
        rows.push(alike_to(alloc, nodes, mapping, node)?)?;
    }
    Ok(rows)
}

/// Those that own what the node owns.
fn alike_to(
    alloc: Global,
    nodes: u32,
    mapping: &Mapping,
    node: u32,
) -> Result<Vec<u32>, OutOfMemory>
    requires dims { All (λ entry. entry.grid_dim < length mapping.now.grid) mapping.now.dims }
    requires nodes { product mapping.now.grid ≡ nodes }
    requires node { node < nodes }
    ensures { IfOk result (λ alike. alike.items ≡ alike_nodes mapping.now nodes node) }
{
    let mut alike = Vec::new(alloc);
    for other in 0..nodes {
        push_alike(&mut alike, mapping, node, other)?;
    }
    Ok(alike)
}

/// Adds the other node, if it is one of them.
fn push_alike(
    alike: &mut Vec<u32>,
    mapping: &Mapping,
    node: u32,
    other: u32,
) -> Result<(), OutOfMemory>
    requires dims { All (λ entry. entry.grid_dim < length mapping.now.grid) mapping.now.dims }
    requires node { node < product mapping.now.grid }
    requires other { other < product mapping.now.grid }
    ensures { OnOk result (alike.new.items ≡ alike.old.items ++ filter (is_alike mapping.now node) (other ∷ [])) }
{
    if is_alike(mapping, NodeId(node), NodeId(other)) {
        alike.push(other)?;
    }
    Ok(())
}

/// Whether the two own the same elements.
fn is_alike(mapping: &Mapping, one: NodeId, other: NodeId) -> bool
    requires dims { All (λ entry. entry.grid_dim < length mapping.now.grid) mapping.now.dims }
    requires one { one.0 < product mapping.now.grid }
    requires other { other.0 < product mapping.now.grid }
    ensures { result ≡ is_alike mapping.now one.0 other.0 }
{
    for entry in mapping.dims.as_slice() {
        if !is_alike_in(&mapping.grid, entry, one, other) {
            return false;
        }
    }
    true
}

/// Whether their coordinates in a dimension of the template own the same positions.
fn is_alike_in(grid: &Grid, entry: &MapDim, one: NodeId, other: NodeId) -> bool
    requires dim { entry.now.grid_dim < length grid.now }
    requires one { one.0 < product grid.now }
    requires other { other.0 < product grid.now }
    ensures { result ≡ is_alike_in (node_coordinates grid.now one.0) (node_coordinates grid.now other.0) entry.now }
{
    match entry.align {
        AlignDim::Linear { .. } => is_same(grid, entry.grid_dim, one, other),
        AlignDim::At(_) => is_same(grid, entry.grid_dim, one, other),
        AlignDim::Every => true,
    }
}

/// Whether they have the same coordinate in a dimension of the grid.
fn is_same(grid: &Grid, dim: u32, one: NodeId, other: NodeId) -> bool
    requires dim { dim < length grid.now }
    requires one { one.0 < product grid.now }
    requires other { other.0 < product grid.now }
    ensures { result ≡ (slice_index (node_coordinates grid.now one.0) dim == slice_index (node_coordinates grid.now other.0) dim) }
{
    node_coordinate(grid, one, dim) == node_coordinate(grid, other, dim)
}

/// The first node of each list.
pub(crate) fn leaders(alloc: Global, rows: &[Vec<u32>]) -> Result<Vec<u32>, OutOfMemory>
    ensures { IfOk result (λ firsts. firsts.items ≡ map (λ v. slice_index_or v.items 0 0) rows.now) }
{
    let mut firsts = Vec::new(alloc);
    for row in rows {
        firsts.push(first_of(row))?;
    }
    Ok(firsts)
}

/// The first node of a list; 0 where there is none.
fn first_of(row: &[u32]) -> u32
    ensures { result ≡ slice_index_or row.now 0 0 }
{
    match row.first() {
        Some(node) => *node,
        None => 0,
    }
}

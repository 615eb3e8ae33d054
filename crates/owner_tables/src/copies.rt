//! How the elements of a copy lie.

ghost use Rattle.std.specs.Prelude.{◌≡◌, ◌<◌, ◌≤◌, ◌^◌, [], ◌∷◌, All, IfOk, IfSome, length, map, option_map, pos, replicate};
ghost use Rattle.hpf_base.specs.declared.limits.TheConstants.{MAX_ELEMENTS, MAX_NODES, MAX_RANK};
ghost use Rattle.hpf_base.specs.ElementOrder.{product};
ghost use Rattle.mappings.specs.Owner.{block_line};
ghost use Rattle.machine_steps.specs.CopyLayout.{copy_dims, copy_mapping, copy_shape, layout_of};
ghost use Rattle.copy_anchors.specs.Anchors.{align_of};
ghost use Rattle.owner_tables.specs.CopyTables.{good_layout, good_mapping, laid_out};
ghost use Rattle.owner_tables.specs.Layouts.{IsLaid};

use crate::owner_table::OwnerTable;
use align_map::compose;
use copy_anchors::{Subscript, good_subscripts};
use hpf_base::{Grid, Index, MAX_ELEMENTS, MAX_RANK, OutOfMemory, Shape};
use mappings::{AlignDim, Form, Line, MapDim, MapDims, Mapping};
use std::alloc::Global;

/// The shape and the mapping of a copy.
#[derive(Drop)]
pub(crate) struct CopyLayout {
    pub(crate) shape: Shape,
    pub(crate) mapping: Mapping,
}

/// How a copy that has these extents lies on so many nodes.
pub(crate) fn copy_layout(
    alloc: Global,
    nodes: u32,
    extents: &[u32],
) -> Result<CopyLayout, OutOfMemory>
    requires some { 1 ≤ nodes }
    requires few { nodes ≤ MAX_NODES }
    requires rank { length extents.now ≤ MAX_RANK }
    requires each { All (λ extent. extent ≤ MAX_ELEMENTS) extents.now }
    requires size { product extents.now ≤ MAX_ELEMENTS }
    ensures value { IfOk result (λ copy. record { shape = copy.shape; mapping = copy.mapping } ≡ layout_of nodes extents.now) }
    ensures laid { IfOk result (λ copy. IsLaid nodes (record { shape = copy.shape; mapping = copy.mapping })) }
{
    let shape = copy_shape(alloc, extents)?;
    let mapping = copy_mapping(alloc, nodes, extents)?;
    Ok(CopyLayout { shape, mapping })
}

/// How a copy that has these extents lies beside a row, where the subscripts of what is assigned there are good.
pub(crate) fn good_layout(
    alloc: Global,
    table: &OwnerTable,
    extents: &[u32],
    subscripts: &[Subscript],
) -> Result<Option<CopyLayout>, OutOfMemory>
    requires rank { length extents.now ≤ MAX_RANK }
    requires each { All (λ extent. extent ≤ MAX_ELEMENTS) extents.now }
    requires size { product extents.now ≤ MAX_ELEMENTS }
    ensures value { IfOk result (λ copy. option_map laid_out copy ≡ good_layout table.now.layout extents.now (map align_of subscripts.now)) }
    ensures laid { IfOk result (λ copy. IfSome copy (λ c. IsLaid table.now.nodes (laid_out c))) }
{
    match good_mapping(alloc, table, extents, subscripts)? {
        Some(mapping) => {
            let shape = copy_shape(alloc, extents)?;
            Ok(Some(CopyLayout { shape, mapping }))
        }
        None => Ok(None),
    }
}

/// Its mapping there.
fn good_mapping(
    alloc: Global,
    table: &OwnerTable,
    extents: &[u32],
    subscripts: &[Subscript],
) -> Result<Option<Mapping>, OutOfMemory>
    requires each { All (λ extent. extent ≤ MAX_ELEMENTS) extents.now }
    requires size { product extents.now ≤ MAX_ELEMENTS }
    ensures value { IfOk result (λ mapping. mapping ≡ good_mapping table.now.layout extents.now (map align_of subscripts.now)) }
    ensures laid { IfOk result (λ mapping. IfSome mapping (λ m. IsLaid table.now.nodes (record { shape = copy_shape extents.now; mapping = m }))) }
{
    match good_subscripts(alloc, table.shape(), extents, subscripts)? {
        Some(align) => {
            let mapping = compose(alloc, table.mapping(), &align)?;
            Ok(Some(mapping))
        }
        None => Ok(None),
    }
}

/// The shape of the copy: its lower bounds are 1.
fn copy_shape(alloc: Global, extents: &[u32]) -> Result<Shape, OutOfMemory>
    requires { length extents.now ≤ MAX_RANK }
    ensures { IfOk result (λ shape. shape ≡ copy_shape extents.now) }
{
    let lower = ones(alloc, extents.len())?;
    let extent = signed(alloc, extents)?;
    Ok(Shape {
        lower: index(alloc, &lower),
        extent: index(alloc, &extent),
    })
}

/// The tuple of at most 7 numbers.
fn index(alloc: Global, numbers: &[i64]) -> Index
    requires { length numbers.now ≤ MAX_RANK }
    ensures { result ≡ numbers.now }
{
    match Index::new(alloc, numbers) {
        Some(index) => index,
        None => unreachable!(),
    }
}

/// So many ones.
fn ones(alloc: Global, count: usize) -> Result<Vec<i64>, OutOfMemory>
    ensures { IfOk result (λ ones. ones.items ≡ replicate count (pos 1)) }
{
    Ok(vec![in alloc; 1; count]?)
}

/// The same extents, as subscripts are kept.
fn signed(alloc: Global, extents: &[u32]) -> Result<Vec<i64>, OutOfMemory>
    ensures { IfOk result (λ signed. signed.items ≡ map pos extents.now) }
{
    let mut signed = Vec::new(alloc);
    for extent in extents {
        signed.push(*extent as i64)?;
    }
    Ok(signed)
}

/// The mapping of the copy: its last index lies in blocks over all nodes.
fn copy_mapping(alloc: Global, nodes: u32, extents: &[u32]) -> Result<Mapping, OutOfMemory>
    requires some { 1 ≤ nodes }
    requires few { nodes ≤ MAX_NODES }
    requires rank { length extents.now ≤ MAX_RANK }
    ensures { IfOk result (λ mapping. mapping ≡ copy_mapping nodes extents.now) }
{
    let mut dims = Vec::new(alloc);
    if !extents.is_empty() {
        dims.push(last_dim(nodes, extents))?;
    }
    Ok(Mapping {
        grid: line_of_nodes(alloc, nodes),
        dims: MapDims::new(dims),
    })
}

/// The grid of so many nodes in a line.
fn line_of_nodes(alloc: Global, nodes: u32) -> Grid
    requires some { 1 ≤ nodes }
    requires few { nodes ≤ MAX_NODES }
    ensures { result ≡ nodes ∷ [] }
{
    match Grid::new(alloc, &[nodes]) {
        Some(grid) => grid,
        None => unreachable!(),
    }
}

/// The last dimension, in blocks.
fn last_dim(nodes: u32, extents: &[u32]) -> MapDim
    requires nodes { 1 ≤ nodes }
    requires some { 1 ≤ length extents.now }
    requires rank { length extents.now ≤ MAX_RANK }
    ensures { copy_dims nodes extents.now ≡ result ∷ [] }
{
    let last = extents.len() - 1;
    MapDim {
        line: block_line(extents[last] as u64, nodes),
        grid_dim: 0,
        align: AlignDim::Linear {
            dim: last as u32,
            a: 1,
            b: 0,
        },
    }
}

/// A dimension in blocks, one a node.
fn block_line(extent: u64, nodes: u32) -> Line
    requires { 1 ≤ nodes }
    ensures { result ≡ block_line extent nodes }
{
    Line {
        lower: 1,
        extent,
        form: Form::Block(u64::max(1, extent.div_ceil(nodes as u64))),
        procs: nodes,
    }
}

//! The table of one row: who owns its elements, and where they lie.

ghost use Rattle.std.specs.Prelude.{◌≡◌, ℕ, ◌<◌, ◌≤◌, All, IfOk, filter, length, true};
ghost use Rattle.std.specs.List.{range_with_len};
ghost use Rattle.hpf_base.specs.declared.limits.TheConstants.{MAX_ELEMENTS, MAX_NODES, MAX_RANK};
ghost use Rattle.hpf_base.specs.ElementOrder.{product};
ghost use Rattle.hpf_base.specs.Shape.{IsShape};
ghost use Rattle.machine_steps.specs.Layout.{count_passing, owned_by, size_of};
ghost use Rattle.machine_steps.specs.CopyLayout.{layout_of};
ghost use Rattle.owner_tables.specs.Layouts.{IsLaid};
ghost use Rattle.owner_tables.specs.Samples.{AreSamples, owners_by};
ghost use Rattle.machine_steps.specs.SameLayouts.{is_same_layout, is_same_shape};

use crate::copies::{CopyLayout, copy_layout};
use crate::tables::Tables;
use hpf_base::{OutOfMemory, Shape};
use mappings::Mapping;
use std::alloc::Global;
use std::marker::Model;
use std::sync::Arc;

/// Who owns each element of an array or of a copy, and where it lies there: it has the same local address on each of its owners.
/// Contracts see the layout and the number of nodes. It is shared, and never copied.
#[derive(Drop)]
pub struct OwnerTable {
    tables: Arc<Tables>,
}

impl Model for OwnerTable {
    ghost use Rattle.std.specs.Arc.{arc_value};
    ghost use Rattle.owner_tables.specs.Views.{TableView};

    ghost Value = { TableView };

    ghost view = { λ t. arc_value t.tables };
}

impl OwnerTable {
    /// The table of an array of this shape by this mapping (HPF 2.0, DISTRIBUTE and ALIGN), on so many nodes. Each element lies inside the
    /// template, whose grid has these nodes.
    pub fn new(
        alloc: Global,
        nodes: u32,
        shape: Shape,
        mapping: Mapping,
    ) -> Result<OwnerTable, OutOfMemory>
        requires some { 1 ≤ nodes }
        requires few { nodes ≤ MAX_NODES }
        requires laid { IsLaid nodes (record { shape = shape; mapping = mapping }) }
        ensures { IfOk result (λ t. t ≡ record { layout = record { shape = shape; mapping = mapping }; nodes = nodes }) }
    {
        let tables = Tables::new(alloc, nodes, shape, mapping)?;
        Ok(OwnerTable {
            tables: Arc::new(alloc, tables)?,
        })
    }

    /// The table of a copy that has these extents on so many nodes: it lies in blocks of its last index, one a node.
    pub fn of_copy(alloc: Global, nodes: u32, extents: &[u32]) -> Result<OwnerTable, OutOfMemory>
        requires some { 1 ≤ nodes }
        requires few { nodes ≤ MAX_NODES }
        requires rank { length extents.now ≤ MAX_RANK }
        requires each { All (λ extent. extent ≤ MAX_ELEMENTS) extents.now }
        requires size { product extents.now ≤ MAX_ELEMENTS }
        ensures { IfOk result (λ t. t ≡ record { layout = layout_of nodes extents.now; nodes = nodes }) }
    {
        let CopyLayout { shape, mapping } = copy_layout(alloc, nodes, extents)?;
        OwnerTable::new(alloc, nodes, shape, mapping)
    }

    /// The same table once more.
    pub fn shared(&self) -> Result<OwnerTable, OutOfMemory>
        ensures { IfOk result (λ t. t ≡ self.now) }
    {
        Ok(OwnerTable {
            tables: Arc::try_clone(&self.tables)?,
        })
    }

    /// The tables themselves.
    pub(crate) fn tables(&self) -> &Tables
        ensures { result.now ≡ self.now }
    {
        &self.tables
    }

    /// The number of nodes, from 1 to 64.
    pub fn nodes(&self) -> u32
        ensures value { result ≡ self.now.nodes }
        ensures some { 1 ≤ self.now.nodes }
        ensures few { self.now.nodes ≤ MAX_NODES }
    {
        self.tables.nodes()
    }

    /// The shape of the row: of each dimension the lower bound and the extent, the first dimension first.
    pub fn shape(&self) -> &Shape
        ensures value { result.now ≡ self.now.layout.shape }
        ensures valid { IsShape self.now.layout.shape }
    {
        self.tables.shape()
    }

    /// Its mapping.
    pub fn mapping(&self) -> &Mapping
        ensures value { result.now ≡ self.now.layout.mapping }
        ensures laid { IsLaid self.now.nodes self.now.layout }
    {
        self.tables.mapping()
    }

    /// The nodes that own each element which the node owns, ascending.
    pub fn sharers(&self, node: u32) -> &[u32]
        requires { node < self.now.nodes }
        ensures owners { (at : ℕ) → at < size_of self.now.layout → owned_by self.now.layout node at ≡ true
            → filter (λ other. owned_by self.now.layout other at) (range_with_len 0 self.now.nodes) ≡ result.now }
        ensures nodes { All (λ other. other < self.now.nodes) result.now }
    {
        self.tables.sharers(node)
    }

    /// The number of elements.
    pub fn size(&self) -> usize
        ensures { result ≡ size_of self.now.layout }
    {
        self.tables.size()
    }

    /// How many elements the node owns.
    pub fn owned(&self, node: u32) -> usize
        requires { node < self.now.nodes }
        ensures { result ≡ count_passing (owned_by self.now.layout node) 0 (size_of self.now.layout) }
    {
        self.tables.owned(node)
    }

    /// The positions of the elements that the node owns, ascending. It goes over these alone, and over the places that the node owns on each
    /// dimension.
    pub fn owned_positions(&self, alloc: Global, node: u32) -> Result<Vec<u32>, OutOfMemory>
        requires { node < self.now.nodes }
        ensures { IfOk result (λ ps. ps.items ≡ filter (owned_by self.now.layout node) (range_with_len 0 (size_of self.now.layout))) }
    {
        self.tables.owned_positions(alloc, node)
    }

    /// Positions of elements. Each element has the same owners as one of them, by this table and by another. Where the shapes are the same,
    /// it goes over the places of each dimension alone, and over the pairs of a least owner by this table and one by the other.
    pub fn samples(&self, alloc: Global, other: &OwnerTable) -> Result<Vec<u32>, OutOfMemory>
        requires { size_of self.now.layout ≡ size_of other.now.layout }
        ensures { IfOk result (λ ps. AreSamples (size_of self.now.layout) (owners_by self.now.nodes (owned_by self.now.layout))
            (owners_by other.now.nodes (owned_by other.now.layout)) ps.items) }
    {
        self.tables.samples(alloc, &other.tables)
    }

    /// Whether the row has the shape of another. It takes no memory.
    pub fn is_shaped_as(&self, other: &OwnerTable) -> bool
        ensures { result ≡ is_same_shape self.now.layout.shape other.now.layout.shape }
    {
        self.tables.is_shaped_as(&other.tables)
    }

    /// Whether the row has the shape and the mapping of another. It compares these alone, and takes no memory.
    pub fn lies_as(&self, other: &OwnerTable) -> bool
        ensures { result ≡ is_same_layout self.now.layout other.now.layout }
    {
        self.tables.lies_as(&other.tables)
    }
}

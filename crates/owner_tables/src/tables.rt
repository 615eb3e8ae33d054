//! The look-ups of one row's tables.

ghost use Rattle.std.specs.Prelude.{◌≡◌, ℕ, ◌+◌, ◌*◌, ◌^◌, ◌<◌, ◌≤◌, ◌&&◌, All, IfOk, None, Some, filter, if◌then◌else◌, nat_lt, true};
ghost use Rattle.std.specs.List.{range_with_len};
ghost use Rattle.hpf_base.specs.declared.limits.TheConstants.{MAX_NODES};
ghost use Rattle.hpf_base.specs.Shape.{IsShape};
ghost use Rattle.machine_steps.specs.Layout.{IsDealt, count_passing, owned_by, size_of};
ghost use Rattle.owner_tables.specs.Layouts.{IsLaid};
ghost use Rattle.owner_tables.specs.Numbers.{least_at};
ghost use Rattle.owner_tables.specs.Samples.{AreSamples, owners_by};
ghost use Rattle.machine_steps.specs.SameLayouts.{is_same_layout, is_same_shape};

use crate::alike::{alike_nodes, leaders};
use crate::columns::{find_at, parts_at};
use crate::lines::{HeldLine, stretch_in};
use crate::numbers::{Numbers, numbered};
use crate::positions::{numbers_below, positions};
use crate::same::{is_same_mapping, is_same_shape};
use crate::samples::samples;
use hpf_base::{OutOfMemory, Shape};
use local_address::element_count;
use mappings::Mapping;
use std::alloc::Global;
use std::marker::Model;

/// The tables of a row. Contracts see its layout and the number of nodes.
#[derive(Drop)]
pub(crate) struct Tables {
    nodes: u32,
    shape: Shape,
    mapping: Mapping,
    /// For each node those that own what it owns, ascending.
    alike: Vec<Vec<u32>>,
    /// For each node the first of them.
    leaders: Vec<u32>,
    /// The number of elements.
    size: usize,
    numbers: Numbers,
}

impl Model for Tables {
    ghost use Rattle.owner_tables.specs.Views.{TableView};

    ghost Value = { TableView };

    ghost use Rattle.owner_tables.specs.Tables.{AreTables, view_of};

    ghost view = { view_of };

    ghost invariant = { AreTables };
}

impl Tables {
    /// The tables of an array of this shape by this mapping, on so many nodes.
    pub(crate) fn new(
        alloc: Global,
        nodes: u32,
        shape: Shape,
        mapping: Mapping,
    ) -> Result<Tables, OutOfMemory>
        requires some { 1 ≤ nodes }
        requires few { nodes ≤ MAX_NODES }
        requires laid { IsLaid nodes (record { shape = shape; mapping = mapping }) }
        ensures { IfOk result (λ t. t ≡ record { layout = record { shape = shape; mapping = mapping }; nodes = nodes }) }
    {
        let alike = alike_nodes(alloc, nodes, &mapping)?;
        let leaders = leaders(alloc, &alike)?;
        let size = element_count(&shape) as usize;
        let numbers = numbered(alloc, nodes, &shape, &mapping)?;
        Ok(Tables {
            nodes,
            shape,
            mapping,
            alike,
            leaders,
            size,
            numbers,
        })
    }

    /// The shape of the row.
    pub(crate) fn shape(&self) -> &Shape
        ensures value { result.now ≡ self.now.layout.shape }
        ensures valid { IsShape self.now.layout.shape }
    {
        &self.shape
    }

    /// The mapping of the row.
    pub(crate) fn mapping(&self) -> &Mapping
        ensures value { result.now ≡ self.now.layout.mapping }
        ensures laid { IsLaid self.now.nodes self.now.layout }
    {
        &self.mapping
    }

    /// The nodes that own what the node owns, ascending.
    pub(crate) fn sharers(&self, node: u32) -> &[u32]
        requires { node < self.now.nodes }
        ensures owners { (at : ℕ) → at < size_of self.now.layout → owned_by self.now.layout node at ≡ true
            → filter (λ other. owned_by self.now.layout other at) (range_with_len 0 self.now.nodes) ≡ result.now }
        ensures nodes { All (λ other. other < self.now.nodes) result.now }
    {
        self.alike[node as usize].as_slice()
    }

    /// The number of elements.
    pub(crate) fn size(&self) -> usize
        ensures { result ≡ size_of self.now.layout }
    {
        self.size
    }

    /// How many elements the node owns.
    pub(crate) fn owned(&self, node: u32) -> usize
        requires { node < self.now.nodes }
        ensures { result ≡ count_passing (owned_by self.now.layout node) 0 (size_of self.now.layout) }
    {
        self.numbers.owned[node as usize] as usize
    }

    /// The owners of the element at the position, ascending.
    pub(crate) fn owners(&self, at: usize) -> &[u32]
        requires { at < size_of self.now.layout }
        ensures { result.now ≡ filter (λ node. owned_by self.now.layout node at) (range_with_len 0 self.now.nodes) }
    {
        self.alike[self.least_owner(at) as usize].as_slice()
    }

    /// Whether the node owns the element at the position.
    pub(crate) fn owns(&self, node: u32, at: usize) -> bool
        requires node { node < self.now.nodes }
        requires at { at < size_of self.now.layout }
        ensures { result ≡ owned_by self.now.layout node at }
    {
        self.least_owner(at) == self.leaders[node as usize]
    }

    /// The owner of the element at the position with the least number.
    pub(crate) fn least_owner(&self, at: usize) -> u32
        requires { at < size_of self.now.layout }
        ensures value { result ≡ least_at self.now.nodes self.now.layout at }
        ensures below { result < self.now.nodes }
        ensures owner { owned_by self.now.layout result at ≡ true }
    {
        self.numbers.base + parts_at(&self.numbers.columns, at as u32)
    }

    /// The local address, from 0, of the element at the position on a node that owns it.
    pub(crate) fn address(&self, node: u32, at: usize) -> usize
        requires node { node < self.now.nodes }
        requires at { at < size_of self.now.layout }
        requires owner { owned_by self.now.layout node at ≡ true }
        ensures { result ≡ count_passing (owned_by self.now.layout node) 0 at }
    {
        find_at(&self.numbers.columns, node, at as u32).address as usize
    }

    /// The local address, from 0, of the element at the position, if there is one and the node owns it.
    pub(crate) fn held(&self, node: u32, at: usize) -> Option<usize>
        requires { node < self.now.nodes }
        ensures { result ≡ (if nat_lt at (size_of self.now.layout) && owned_by self.now.layout node at
            then Some (count_passing (owned_by self.now.layout node) 0 at) else None) }
    {
        if at < self.size() {
            self.held_there(node, at)
        } else {
            None
        }
    }

    /// The same where there is such an element: its places are asked once for both.
    fn held_there(&self, node: u32, at: usize) -> Option<usize>
        requires node { node < self.now.nodes }
        requires at { at < size_of self.now.layout }
        ensures { result ≡ (if owned_by self.now.layout node at then Some (count_passing (owned_by self.now.layout node) 0 at) else None) }
    {
        let found = find_at(&self.numbers.columns, node, at as u32);
        if self.numbers.base + found.parts == self.leaders[node as usize] {
            Some(found.address as usize)
        } else {
            None
        }
    }

    /// How many elements at the front of a line the node owns, and where they lie. The first of the line's elements stands at `at`, each other
    /// `step` positions after the one before. It may stop early.
    pub(crate) fn held_line(&self, node: u32, at: usize, step: usize, count: usize) -> HeldLine
        requires { node < self.now.nodes }
        ensures few { result.count ≤ count }
        ensures held { (k : ℕ) → k < result.count → (owned_by self.now.layout node (at + k * step) ≡ true)
            × (count_passing (owned_by self.now.layout node) 0 (at + k * step) ≡ result.first + k * result.step) }
        ensures fits { (k : ℕ) → k < result.count → result.first + k * result.step < 2 ^ 64 }
    {
        match self.held(node, at) {
            Some(first) => self.line_from(node, at, first, step, count),
            None => HeldLine::none(),
        }
    }

    /// The same from an element that the node owns, by its local address.
    fn line_from(&self, node: u32, at: usize, first: usize, step: usize, count: usize) -> HeldLine
        requires node { node < self.now.nodes }
        requires owned { owned_by self.now.layout node at ≡ true }
        requires first { count_passing (owned_by self.now.layout node) 0 at ≡ first }
        ensures few { result.count ≤ count }
        ensures held { (k : ℕ) → k < result.count → (owned_by self.now.layout node (at + k * step) ≡ true)
            × (count_passing (owned_by self.now.layout node) 0 (at + k * step) ≡ first + k * result.step) }
        ensures first { result.first ≡ first }
        ensures fits { (k : ℕ) → k < result.count → first + k * result.step < 2 ^ 64 }
    {
        if count == 0 || step >= self.size {
            return HeldLine {
                count: count.min(1),
                first,
                step: 0,
            };
        }
        let stretch = stretch_in(
            &self.numbers.columns,
            node,
            at as u32,
            step as u32,
            count - 1,
        );
        HeldLine {
            count: stretch.others + 1,
            first,
            step: stretch.apart,
        }
    }

    /// The positions of the elements that the node owns, ascending.
    pub(crate) fn owned_positions(&self, alloc: Global, node: u32) -> Result<Vec<u32>, OutOfMemory>
        requires { node < self.now.nodes }
        ensures { IfOk result (λ ps. ps.items ≡ filter (owned_by self.now.layout node) (range_with_len 0 (size_of self.now.layout))) }
    {
        positions(alloc, self.nodes, &self.shape, &self.mapping, node)
    }

    /// Positions of elements. Each element has the same owners as one of them, by this table and by another.
    pub(crate) fn samples(&self, alloc: Global, other: &Tables) -> Result<Vec<u32>, OutOfMemory>
        requires { size_of self.now.layout ≡ size_of other.now.layout }
        ensures { IfOk result (λ ps. AreSamples (size_of self.now.layout) (owners_by self.now.nodes (owned_by self.now.layout))
            (owners_by other.now.nodes (owned_by other.now.layout)) ps.items) }
    {
        if self.size > 0 && self.is_shaped_as(other) {
            let positions = samples(alloc, &self.numbers.columns, &other.numbers.columns)?;
            return Ok(positions);
        }
        let positions = numbers_below(alloc, self.size as u32)?;
        Ok(positions)
    }

    /// Each element has an owner. It does nothing.
    pub(crate) fn is_dealt(&self)
        ensures { IsDealt self.now.nodes self.now.layout }
    {
        let _ = &self.numbers;
    }

    /// The number of nodes, from 1 to 64.
    pub(crate) fn nodes(&self) -> u32
        ensures value { result ≡ self.now.nodes }
        ensures some { 1 ≤ self.now.nodes }
        ensures few { self.now.nodes ≤ MAX_NODES }
    {
        self.nodes
    }

    /// Whether the row has the shape of another.
    pub(crate) fn is_shaped_as(&self, other: &Tables) -> bool
        ensures { result ≡ is_same_shape self.now.layout.shape other.now.layout.shape }
    {
        is_same_shape(&self.shape, &other.shape)
    }

    /// Whether the row has the shape and the mapping of another.
    pub(crate) fn lies_as(&self, other: &Tables) -> bool
        ensures { result ≡ is_same_layout self.now.layout other.now.layout }
    {
        is_same_shape(&self.shape, &other.shape) && is_same_mapping(&self.mapping, &other.mapping)
    }
}

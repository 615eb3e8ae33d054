//! The tables of all rows.

ghost use Rattle.std.specs.Prelude.{◌≡◌, ℕ, ◌+◌, ◌*◌, ◌^◌, ◌<◌, ◌≤◌, ◌++◌, ◌∷◌, ◌&&◌, [], All, IfOk, IfSome, IsTrue, None, OnErr, OnOk, Some, filter, if◌then◌else◌, length, nat_lt, option_copied, option_map, slice_index_or, slice_set, true};
ghost use Rattle.std.specs.List.{range_with_len, slice_get};
ghost use Rattle.hpf_base.specs.declared.limits.TheConstants.{MAX_ELEMENTS, MAX_NODES, MAX_RANK};
ghost use Rattle.hpf_base.specs.ElementOrder.{product};
ghost use Rattle.machine_steps.specs.Layout.{AreOwned, address, count_passing, least_owner_of, owned_by, owned_in, owns_spot, size_of, sizes};
ghost use Rattle.machine_steps.specs.Machine.{with_mapping};
ghost use Rattle.aligned_copies.specs.Beside.{aligned_layout_of};
ghost use Rattle.owner_tables.specs.Lines.{line_spot};
ghost use Rattle.owner_tables.specs.Samples.{AreSamples, owners_by};
ghost use Rattle.storage.specs.Spots.{spot_of};

use crate::copy_tables::copy_table;
use crate::lines::HeldLine;
use crate::owner_table::OwnerTable;
use crate::tables::Tables;
use copy_anchors::Anchor;
use hpf_base::OutOfMemory;
use std::alloc::Global;
use std::marker::Model;
use storage::Spot;

/// The tables of all rows, in order. Contracts see the rows' layouts and the number of nodes.
#[derive(Drop)]
pub struct Owners {
    tables: Vec<OwnerTable>,
    nodes: u32,
    alloc: Global,
}

impl Model for Owners {
    ghost use Rattle.std.specs.Prelude.{◌≡◌, ◌≤◌, All, map};
    ghost use Rattle.hpf_base.specs.declared.limits.TheConstants.{MAX_NODES};
    ghost use Rattle.owner_tables.specs.Views.{OwnersView};

    ghost Value = { OwnersView };

    ghost view = { λ o. record { layouts = map (λ t. t.layout) o.tables.items; nodes = o.nodes } };

    ghost invariant = { λ o. (1 ≤ o.nodes) × (o.nodes ≤ MAX_NODES) × All (λ t. t.nodes ≡ o.nodes) o.tables.items };
}

impl Owners {
    /// No rows, on so many nodes. It takes no memory.
    pub fn new(alloc: Global, nodes: u32) -> Owners
        requires some { 1 ≤ nodes }
        requires few { nodes ≤ MAX_NODES }
        ensures { result ≡ record { layouts = []; nodes = nodes } }
    {
        Owners {
            tables: Vec::new(alloc),
            nodes,
            alloc,
        }
    }

    /// Puts a row after the others. For want of memory nothing changes.
    pub fn push(&mut self, table: OwnerTable) -> Result<(), OutOfMemory>
        requires { table.nodes ≡ self.old.nodes }
        ensures row { OnOk result (self.new ≡ record { layouts = self.old.layouts ++ table.layout ∷ []; nodes = self.old.nodes }) }
        ensures same { OnErr result (self.new ≡ self.old) }
    {
        self.tables.push(table)?;
        Ok(())
    }

    /// Puts a table in the place of a row's, if there is such a row. It takes no memory.
    pub fn set(&mut self, row: usize, table: OwnerTable)
        requires { table.nodes ≡ self.old.nodes }
        ensures { self.new ≡ record { layouts = slice_set self.old.layouts row table.layout; nodes = self.old.nodes } }
    {
        if row < self.tables.len() {
            self.tables[row] = table;
        }
    }

    /// Gives a row the mapping of a table, whose shape the row has, if there is such a row. For want of memory nothing changes.
    pub fn set_mapping(&mut self, row: usize, table: &OwnerTable) -> Result<(), OutOfMemory>
        requires nodes { table.now.nodes ≡ self.old.nodes }
        requires shape { IfSome (slice_get self.old.layouts row) (λ layout. layout.shape ≡ table.now.layout.shape) }
        ensures row { OnOk result (self.new ≡ record { layouts = with_mapping self.old.layouts row table.now.layout.mapping; nodes = self.old.nodes }) }
        ensures same { OnErr result (self.new ≡ self.old) }
    {
        let table = table.shared()?;
        self.set(row, table);
        Ok(())
    }

    /// The same tables, for another node.
    pub fn shared(&self) -> Result<Owners, OutOfMemory>
        ensures { IfOk result (λ owners. owners ≡ self.now) }
    {
        let mut tables = Vec::new(self.alloc);
        for table in &self.tables {
            tables.push(table.shared()?)?;
        }
        Ok(Owners {
            tables,
            nodes: self.nodes,
            alloc: self.alloc,
        })
    }

    /// The number of nodes, from 1 to 64.
    pub fn nodes(&self) -> u32
        ensures value { result ≡ self.now.nodes }
        ensures some { 1 ≤ self.now.nodes }
        ensures few { self.now.nodes ≤ MAX_NODES }
    {
        self.nodes
    }

    /// Each element has an owner. It takes no memory.
    pub fn are_dealt(&self)
        ensures { AreOwned self.now.nodes self.now.layouts }
    {
        for row in 0..self.tables.len() {
            self.row(row).is_dealt();
        }
    }

    /// The number of rows.
    pub fn rows(&self) -> usize
        ensures { result ≡ length self.now.layouts }
    {
        self.tables.len()
    }

    /// The table of a row, if there is such a row.
    pub fn table(&self, row: usize) -> Option<&OwnerTable>
        ensures layout { option_map (λ t. t.now.layout) result ≡ slice_get self.now.layouts row }
        ensures nodes { IfSome result (λ t. t.now.nodes ≡ self.now.nodes) }
    {
        self.tables.get(row)
    }

    /// The table of a copy that has these extents: where the anchor is good, each of its elements lies with the element that is assigned at
    /// its position, by how the rows lie now, and else in blocks of its last index, one a node. A row that lies so already shares its table,
    /// so that copies which lie alike have one.
    pub fn copy_table(
        &self,
        anchor: Option<&Anchor>,
        extents: &[u32],
    ) -> Result<OwnerTable, OutOfMemory>
        requires rank { length extents.now ≤ MAX_RANK }
        requires each { All (λ extent. extent ≤ MAX_ELEMENTS) extents.now }
        requires size { product extents.now ≤ MAX_ELEMENTS }
        ensures { IfOk result (λ t. t ≡ record {
          layout = aligned_layout_of self.now.nodes self.now.layouts (option_copied anchor.entry) extents.now;
          nodes = self.now.nodes;
        }) }
    {
        copy_table(self.alloc, self, anchor, extents)
    }

    /// Whether all rows are those of another, for as many nodes: true exactly where they are the same. It compares shapes and mappings, and
    /// takes no memory.
    pub fn lies_as(&self, other: &Owners) -> bool
        ensures same { IsTrue result → self.now ≡ other.now }
        ensures all { self.now ≡ other.now → IsTrue result }
    {
        if self.nodes != other.nodes || self.tables.len() != other.tables.len() {
            return false;
        }
        for row in 0..self.tables.len() {
            if !self.tables[row].lies_as(&other.tables[row]) {
                return false;
            }
        }
        true
    }

    /// The number of elements of a row; 0 where there is no such row.
    pub fn size(&self, row: usize) -> usize
        ensures { result ≡ slice_index_or (sizes self.now.layouts) row 0 }
    {
        if row < self.tables.len() {
            self.row(row).size()
        } else {
            0
        }
    }

    /// Whether the row has an element at the position.
    pub fn is_in_bounds(&self, spot: Spot) -> bool
        ensures { result ≡ nat_lt spot.at (slice_index_or (sizes self.now.layouts) spot.row 0) }
    {
        spot.at < self.size(spot.row)
    }

    /// The owners of the element, ascending.
    pub fn owners(&self, spot: Spot) -> &[u32]
        requires { spot.at < slice_index_or (sizes self.now.layouts) spot.row 0 }
        ensures { result.now ≡ filter (λ node. owns_spot self.now.layouts node (spot_of spot)) (range_with_len 0 self.now.nodes) }
    {
        self.row(spot.row).owners(spot.at)
    }

    /// Whether the node owns the element.
    pub fn owns(&self, node: u32, spot: Spot) -> bool
        requires node { node < self.now.nodes }
        requires at { spot.at < slice_index_or (sizes self.now.layouts) spot.row 0 }
        ensures { result ≡ owns_spot self.now.layouts node (spot_of spot) }
    {
        self.row(spot.row).owns(node, spot.at)
    }

    /// The owner of the element with the least number.
    pub fn least_owner(&self, spot: Spot) -> u32
        requires { spot.at < slice_index_or (sizes self.now.layouts) spot.row 0 }
        ensures value { result ≡ least_owner_of self.now.nodes self.now.layouts (spot_of spot) }
        ensures below { result < self.now.nodes }
        ensures owner { owns_spot self.now.layouts result (spot_of spot) ≡ true }
    {
        self.row(spot.row).least_owner(spot.at)
    }

    /// The node that sends the element: its least owner, and node 0 where there is no such element.
    pub fn sender(&self, spot: Spot) -> u32
        ensures value { result ≡ least_owner_of self.now.nodes self.now.layouts (spot_of spot) }
        ensures below { result < self.now.nodes }
    {
        let _ = &self.tables;
        if self.is_in_bounds(spot) {
            self.least_owner(spot)
        } else {
            0
        }
    }

    /// The local address, from 0, of the element on a node that owns it: its number among the elements of the row that the node owns.
    pub fn address(&self, node: u32, spot: Spot) -> usize
        requires node { node < self.now.nodes }
        requires at { spot.at < slice_index_or (sizes self.now.layouts) spot.row 0 }
        requires owner { owns_spot self.now.layouts node (spot_of spot) ≡ true }
        ensures { result ≡ address self.now.layouts node (spot_of spot) }
    {
        self.row(spot.row).address(node, spot.at)
    }

    /// The local address, from 0, of the element on the node, if there is such an element and the node owns it.
    pub fn held(&self, node: u32, spot: Spot) -> Option<usize>
        requires { node < self.now.nodes }
        ensures { result ≡ (if owns_spot self.now.layouts node (spot_of spot) then Some (address self.now.layouts node (spot_of spot)) else None) }
    {
        self.found(node, spot)
    }

    /// By one look-up of the row, which tests bounds first.
    fn found(&self, node: u32, spot: Spot) -> Option<usize>
        requires { node < self.now.nodes }
        ensures { result ≡ (if nat_lt spot.at (slice_index_or (sizes self.now.layouts) spot.row 0) && owns_spot self.now.layouts node (spot_of spot)
            then Some (address self.now.layouts node (spot_of spot)) else None) }
    {
        if spot.row < self.tables.len() {
            self.row(spot.row).held(node, spot.at)
        } else {
            None
        }
    }

    /// How many elements at the front of a line the node owns, and where they lie. The first of the line's elements is `spot`, each other stands
    /// `step` positions after the one before. It may stop early, so none doesn't say that the node doesn't own the first. It takes no memory.
    pub fn held_line(&self, node: u32, spot: Spot, step: usize, count: usize) -> HeldLine
        requires { node < self.now.nodes }
        ensures few { result.count ≤ count }
        ensures held { (k : ℕ) → k < result.count → (owns_spot self.now.layouts node (line_spot (spot_of spot) step k) ≡ true)
            × (address self.now.layouts node (line_spot (spot_of spot) step k) ≡ result.first + k * result.step) }
        ensures fits { (k : ℕ) → k < result.count → result.first + k * result.step < 2 ^ 64 }
    {
        if spot.row < self.tables.len() {
            self.row(spot.row).held_line(node, spot.at, step, count)
        } else {
            HeldLine::none()
        }
    }

    /// How many elements of the row the node owns: the length of its piece. It is 0 where there is no such row.
    pub fn owned(&self, node: u32, row: usize) -> usize
        requires { node < self.now.nodes }
        ensures { result ≡ count_passing (owned_in self.now.layouts row node) 0 (slice_index_or (sizes self.now.layouts) row 0) }
    {
        if row < self.tables.len() {
            self.row(row).owned(node)
        } else {
            0
        }
    }

    /// The positions of the elements of the row that the node owns, ascending; none where there is no such row. It goes over these alone,
    /// and over the places that the node owns on each dimension.
    pub fn positions(&self, node: u32, row: usize) -> Result<Vec<u32>, OutOfMemory>
        requires { node < self.now.nodes }
        ensures { IfOk result (λ ps. ps.items ≡ filter (owned_in self.now.layouts row node) (range_with_len 0 (slice_index_or (sizes self.now.layouts) row 0))) }
    {
        if row < self.tables.len() {
            self.row(row).owned_positions(self.alloc, node)
        } else {
            Ok(Vec::new(self.alloc))
        }
    }

    /// Positions of elements of the row; none where there is no such row. Each element of the row has the same owners as one of them, by these
    /// tables and by others of rows with the same sizes. Where the shapes of the row are the same, it goes over the places of each dimension
    /// alone, and over the pairs of least owners.
    pub fn samples(&self, other: &Owners, row: usize) -> Result<Vec<u32>, OutOfMemory>
        requires { sizes self.now.layouts ≡ sizes other.now.layouts }
        ensures { IfOk result (λ ps. AreSamples (slice_index_or (sizes self.now.layouts) row 0) (owners_by self.now.nodes (owned_in self.now.layouts row))
            (owners_by other.now.nodes (owned_in other.now.layouts row)) ps.items) }
    {
        if row < self.tables.len() && row < other.tables.len() {
            self.row(row).samples(self.alloc, other.row(row))
        } else {
            Ok(Vec::new(self.alloc))
        }
    }

    /// The tables of a row.
    fn row(&self, row: usize) -> &Tables
        requires { row < length self.now.layouts }
        ensures nodes { result.now.nodes ≡ self.now.nodes }
        ensures size { size_of result.now.layout ≡ slice_index_or (sizes self.now.layouts) row 0 }
        ensures owned { owned_by result.now.layout ≡ owned_in self.now.layouts row }
    {
        self.tables[row].tables()
    }
}

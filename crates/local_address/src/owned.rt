//! The subscripts of one dimension of an array that a node owns.

ghost use Rattle.std.specs.Prelude.{◌≡◌, ◌≢◌, ◌↔◌, ℕ, ◌<◌, ◌≤◌, ℤ, pos, ◌+ℤ◌, ◌*ℤ◌, unsigned_abs, ◌==◌, Some, None, IfOk, IfSome, IfNone, filter, length, slice_get};
ghost use Rattle.std.specs.List.{range_with_len};
ghost use Rattle.std.specs.List.Sorted.{IsStrictlyIncreasing};
ghost use Rattle.hpf_base.specs.declared.limits.TheConstants.{MAX_BOUND, MAX_ELEMENTS};
ghost use Rattle.hpf_base.specs.ElementOrder.{product};
ghost use Rattle.hpf_base.specs.Grid.{node_coordinates};
ghost use Rattle.mappings.specs.Alignment.{position_at};
ghost use Rattle.mappings.specs.Mapping.{IsLine};
ghost use Rattle.gap_table.specs.GapTable.{places_of};
ghost use Rattle.local_address.specs.Runs.{HasLine, InAxis, IsMoving, IsOfGrid, coordinate_on, own_on, procs_on, subscripts};

use crate::axes::{Axis, own_on};
use align_map::{linear, position};
use gap_table::GapTable;
use hpf_base::{Grid, NodeId, OutOfMemory};
use mappings::{Form, Line};
use std::alloc::Global;
use std::marker::Model;

/// The subscripts of a dimension that a node owns, ascending. Contracts see the list of them.
#[derive(Drop)]
pub struct OwnedSubscripts {
    lower: i64,
    places: GapTable,
}

impl Model for OwnedSubscripts {
    ghost use Rattle.std.specs.Prelude.{List, ℤ};
    ghost use Rattle.gap_table.specs.GapTable.{places_of};
    ghost use Rattle.local_address.specs.Pieces.{ArePlaces, subscripts_at};

    ghost Value = { List ℤ };

    ghost view = { λ s. subscripts_at s.lower (places_of s.places) };

    ghost invariant = { λ s. ArePlaces s.lower (places_of s.places) };
}

impl OwnedSubscripts {
    /// The subscripts of a dimension, which begins at `lower`, with which something has the node's coordinate on the axis.
    pub fn new(
        alloc: Global,
        grid: &Grid,
        axis: &Option<Axis>,
        node: NodeId,
        lower: i64,
        extent: u64,
    ) -> Result<OwnedSubscripts, OutOfMemory>
        requires line { HasLine axis.now }
        requires axis { IsOfGrid grid.now axis.now }
        requires moves { IsMoving axis.now }
        requires node { node.0 < product grid.now }
        requires lower { unsigned_abs lower ≤ MAX_BOUND }
        requires some { 1 ≤ extent }
        requires extent { extent ≤ MAX_ELEMENTS }
        requires inside { (place : ℕ) → place < extent → InAxis axis.now (lower +ℤ pos place) }
        ensures { IfOk result (λ owned. owned
            ≡ filter (λ i. coordinate_on axis.now i == own_on (node_coordinates grid.now node.0) axis.now) (subscripts lower extent)) }
    {
        let places = node_places(alloc, grid, axis, node, lower, extent)?;
        Ok(OwnedSubscripts { lower, places })
    }

    /// How many there are.
    pub fn len(&self) -> u64
        ensures { result ≡ length self.now }
    {
        self.places.len()
    }

    /// The n-th one, from 0.
    pub fn nth(&self, n: u64) -> i64
        requires { n < length self.now }
        ensures { slice_get self.now n ≡ Some result }
    {
        match self.places.nth(n) {
            Some(place) => moved(self.lower, place),
            None => unreachable!(),
        }
    }

    /// The number of a subscript, from 0; None exactly where it isn't one of them.
    pub fn number_of(&self, subscript: i64) -> Option<u64>
        ensures { (n : ℕ) → (result ≡ Some n) ↔ (slice_get self.now n ≡ Some subscript) }
    {
        let place = place_from(self.lower, subscript)?;
        number_of_place(&self.places, place)
    }
}

/// The places, from 0 and ascending, of a dimension of an array that a node owns as far as the dimension tells (HPF 2.0, ALIGN and DISTRIBUTE): those
/// whose subscripts stand at the node's coordinate on the axis that moves along the dimension, and all of them where none does. The dimension
/// begins at `lower`.
pub fn node_places(
    alloc: Global,
    grid: &Grid,
    axis: &Option<Axis>,
    node: NodeId,
    lower: i64,
    extent: u64,
) -> Result<GapTable, OutOfMemory>
    requires line { HasLine axis.now }
    requires axis { IsOfGrid grid.now axis.now }
    requires moves { IsMoving axis.now }
    requires node { node.0 < product grid.now }
    requires lower { unsigned_abs lower ≤ MAX_BOUND }
    requires some { 1 ≤ extent }
    requires extent { extent ≤ MAX_ELEMENTS }
    requires inside { (place : ℕ) → place < extent → InAxis axis.now (lower +ℤ pos place) }
    ensures { IfOk result (λ table. places_of table
        ≡ filter (λ place. coordinate_on axis.now (lower +ℤ pos place) == own_on (node_coordinates grid.now node.0) axis.now) (range_with_len 0 extent)) }
{
    let own = own_on(grid, axis, node);
    places_on(alloc, axis, own, lower, extent)
}

/// The places, from 0, of a dimension with which something has a coordinate on the axis.
fn places_on(
    alloc: Global,
    axis: &Option<Axis>,
    own: u32,
    lower: i64,
    extent: u64,
) -> Result<GapTable, OutOfMemory>
    requires line { HasLine axis.now }
    requires moves { IsMoving axis.now }
    requires own { own < procs_on axis.now }
    requires some { 1 ≤ extent }
    requires extent { extent ≤ MAX_ELEMENTS }
    requires inside { (place : ℕ) → place < extent → InAxis axis.now (lower +ℤ pos place) }
    ensures { IfOk result (λ table. places_of table ≡ filter (λ place. coordinate_on axis.now (lower +ℤ pos place) == own) (range_with_len 0 extent)) }
{
    match axis {
        None => all_places(alloc, own, extent),
        Some(axis) => axis_places(alloc, axis, own, lower, extent),
    }
}

/// All places of a dimension, which are those of a line that isn't distributed.
fn all_places(alloc: Global, own: u32, extent: u64) -> Result<GapTable, OutOfMemory>
    requires own { own < 1 }
    requires extent { extent ≤ MAX_ELEMENTS }
    ensures { IfOk result (λ table. places_of table ≡ filter (λ place. 0 == own) (range_with_len 0 extent)) }
{
    let line = Line {
        lower: 1,
        extent,
        form: Form::Whole,
        procs: 1,
    };
    let table = GapTable::of_section(alloc, &line, own, 1, 1, extent)?;
    Ok(table)
}

/// The places of a dimension at which an entry that moves along it gives a position of the coordinate.
fn axis_places(
    alloc: Global,
    axis: &Axis,
    own: u32,
    lower: i64,
    extent: u64,
) -> Result<GapTable, OutOfMemory>
    requires line { IsLine axis.now.line }
    requires moves { axis.now.factor ≢ pos 0 }
    requires own { own < axis.now.line.procs }
    requires some { 1 ≤ extent }
    requires inside { (place : ℕ) → place < extent → InAxis (Some axis.now) (lower +ℤ pos place) }
    ensures { IfOk result (λ table. places_of table ≡ filter (λ place. coordinate_on (Some axis.now) (lower +ℤ pos place) == own) (range_with_len 0 extent)) }
{
    let start = position_on(axis, lower);
    let table = GapTable::of_section(alloc, &axis.line, own, start, axis.factor, extent)?;
    Ok(table)
}

/// The position, from 1, that an entry gives what has the subscript i.
fn position_on(axis: &Axis, i: i64) -> u64
    requires line { IsLine axis.now.line }
    requires inside { InAxis (Some axis.now) i }
    ensures { pos result ≡ position_at axis.now.line ((axis.now.factor *ℤ i) +ℤ axis.now.offset) }
{
    position(&axis.line, linear(axis.factor, i, axis.offset))
}

/// The subscript at a place, from 0, of a dimension.
fn moved(lower: i64, place: u64) -> i64
    requires lower { unsigned_abs lower ≤ MAX_BOUND }
    requires place { place < MAX_ELEMENTS }
    ensures { result ≡ lower +ℤ pos place }
{
    lower + place as i64
}

/// The place, from 0, of a subscript of a dimension; None where it is below the lower bound.
fn place_from(lower: i64, subscript: i64) -> Option<u64>
    requires { unsigned_abs lower ≤ MAX_BOUND }
    ensures some { IfSome result (λ place. subscript ≡ lower +ℤ pos place) }
    ensures none { IfNone result ((place : ℕ) → subscript ≢ lower +ℤ pos place) }
{
    if subscript < lower {
        return None;
    }
    Some((subscript as i128 - lower as i128) as u64)
}

/// The number of a place in a table, from 0; None exactly where it isn't one of the table's.
fn number_of_place(places: &GapTable, place: u64) -> Option<u64>
    requires { IsStrictlyIncreasing (places_of places.now) }
    ensures { (n : ℕ) → (result ≡ Some n) ↔ (slice_get (places_of places.now) n ≡ Some place) }
{
    let number = places.up_to(place).checked_sub(1)?;
    if places.nth(number)? == place {
        Some(number)
    } else {
        None
    }
}

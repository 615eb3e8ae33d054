//! What the dimensions of an array say of its elements.

ghost use Rattle.std.specs.Prelude.{◌≡◌, ℕ, ◌+◌, ◌*◌, ◌%◌, ◌/◌, ◌<◌, ◌≤◌, ◌^◌, ℤ, pos, ◌+ℤ◌, unsigned_abs, All, IfOk, [], length, map, replicate, slice_index_or, slice_set};
ghost use Rattle.std.specs.List.{range_with_len};
ghost use Rattle.hpf_base.specs.declared.limits.TheConstants.{MAX_NODES};
ghost use Rattle.mappings.specs.declared.limits.TheConstants.{MAX_CYCLIC};
ghost use Rattle.hpf_base.specs.ElementOrder.{product};
ghost use Rattle.hpf_base.specs.Grid.{node_coordinates};
ghost use Rattle.local_address.specs.Runs.{HasLine, InAxis, IsOfGrid, axis_along, own_on, procs_on};
ghost use Rattle.periodic_runs.specs.Runs.{no_place};
ghost use Rattle.owner_tables.specs.Columns.{IsFilled, address_at, column_of, count_on, next_strides, parts_at, place_on, weight, weight_on};

use congruences::{inverse_of, residue_of};
use hpf_base::{Grid, NodeId, OutOfMemory};
use local_address::{Axis, axis_along, coordinate_on, own_on, procs_on};
use mappings::{Form, Mapping};
use periodic_runs::{Place, Places};
use std::alloc::Global;
use std::marker::Model;

/// The least extent of a dimension whose places are kept by the runs of a period: those of a shorter one are found by one load.
const LONG: u32 = 65_536;

/// A dimension of an array.
#[derive(Drop)]
pub(crate) struct Column {
    extent: u32,
    places: Places,
    /// Of each node how far apart in its piece two elements lie between whose places the node owns no other: how many tuples of places it
    /// owns on the dimensions before.
    strides: Vec<u32>,
}

impl Model for Column {
    ghost use Rattle.owner_tables.specs.Columns.{ColumnView};

    ghost Value = { ColumnView };

    ghost view = { λ c. record { extent = c.extent; places = c.places; strides = c.strides.items } };
}

impl Column {
    /// How many places there are.
    pub(crate) fn extent(&self) -> u32
        ensures { result ≡ self.now.extent }
    {
        self.extent
    }

    /// A place.
    pub(crate) fn place(&self, number: u32) -> Place
        requires { number < length self.now.places }
        ensures { result ≡ slice_index_or self.now.places number no_place }
    {
        self.places.at(number as usize)
    }

    /// The places.
    pub(crate) fn places(&self) -> &Places
        ensures { result.now ≡ self.now.places }
    {
        &self.places
    }

    /// The stride of a node.
    pub(crate) fn stride(&self, node: u32) -> u32
        requires { node < length self.now.strides }
        ensures { result ≡ slice_index_or self.now.strides node 0 }
    {
        self.strides[node as usize]
    }
}

/// A dimension, and the strides of the next.
#[derive(Drop)]
pub(crate) struct Grown {
    pub(crate) column: Column,
    pub(crate) next: Vec<u32>,
}

/// A dimension with these strides, counted from 0.
pub(crate) fn column_along(
    alloc: Global,
    map: &Mapping,
    dim: u32,
    lower: i64,
    extent: u32,
    strides: Vec<u32>,
) -> Result<Grown, OutOfMemory>
    requires line { HasLine (axis_along dim map.now.dims) }
    requires axis { IsOfGrid map.now.grid (axis_along dim map.now.dims) }
    requires lower { unsigned_abs lower ≤ 2 ^ 41 }
    requires extent { extent ≤ 2 ^ 20 }
    requires inside { (place : ℕ) → place < extent → InAxis (axis_along dim map.now.dims) (lower +ℤ pos place) }
    requires nodes { length strides.items ≡ product map.now.grid }
    requires few { All (λ stride. stride * extent ≤ 2 ^ 20) strides.items }
    ensures column { IfOk result (λ grown. grown.column ≡ column_of map.now lower dim extent strides.items) }
    ensures next { IfOk result (λ grown. grown.next.items ≡ next_strides map.now lower dim extent strides.items) }
{
    let axis = axis_along(alloc, map, dim)?;
    let Dealt { places, counts } = deal(alloc, &axis, weight_on(&map.grid, &axis), lower, extent)?;
    let next = next_strides(alloc, &map.grid, &axis, &counts, &strides)?;
    Ok(Grown {
        column: Column {
            extent,
            places,
            strides,
        },
        next,
    })
}

/// The strides behind a dimension, by how many of its places have each coordinate.
fn next_strides(
    alloc: Global,
    grid: &Grid,
    axis: &Option<Axis>,
    counts: &[u32],
    strides: &[u32],
) -> Result<Vec<u32>, OutOfMemory>
    requires axis { IsOfGrid grid.now axis.now }
    requires counts { length counts.now ≡ procs_on axis.now }
    requires nodes { product grid.now ≡ length strides.now }
    requires few { (node c : ℕ) → node < length strides.now → c < length counts.now → slice_index_or strides.now node 0 * slice_index_or counts.now c 0 ≤ 2 ^ 20 }
    ensures { IfOk result (λ next. next.items ≡ map (λ node. slice_index_or strides.now node 0
        * slice_index_or counts.now (own_on (node_coordinates grid.now node) axis.now) 0) (range_with_len 0 (product grid.now))) }
{
    let mut next = Vec::new(alloc);
    for node in 0..grid.node_count() {
        let own = own_on(grid, axis, NodeId(node));
        next.push(strides[node as usize] * counts[own as usize])?;
    }
    Ok(next)
}

/// The places of a dimension, and how many have each coordinate.
#[derive(Drop)]
struct Dealt {
    places: Places,
    counts: Vec<u32>,
}

/// The places of a dimension that begins at `lower`, by their coordinates on an axis.
fn deal(
    alloc: Global,
    axis: &Option<Axis>,
    weight: u32,
    lower: i64,
    extent: u32,
) -> Result<Dealt, OutOfMemory>
    requires line { HasLine axis.now }
    requires weight { weight ≤ MAX_NODES }
    requires lower { unsigned_abs lower ≤ 2 ^ 41 }
    requires extent { extent ≤ 2 ^ 20 }
    requires inside { (place : ℕ) → place < extent → InAxis axis.now (lower +ℤ pos place) }
    ensures places { IfOk result (λ d. d.places ≡ map (place_on axis.now weight lower) (range_with_len 0 extent)) }
    ensures counts { IfOk result (λ d. d.counts.items ≡ map (count_on axis.now lower extent) (range_with_len 0 (procs_on axis.now))) }
{
    let mut counts = zeros(alloc, procs_on(axis))?;
    let mut places = new_places(alloc, axis, extent);
    for place in 0..extent {
        let coordinate = coordinate_on(axis, subscript(lower, place));
        let rank = next_number(&mut counts, coordinate);
        places.push(
            alloc,
            Place {
                part: coordinate * weight,
                rank,
            },
        )?;
    }
    Ok(Dealt { places, counts })
}

/// No places yet, of a dimension of so many.
fn new_places(alloc: Global, axis: &Option<Axis>, extent: u32) -> Places
    requires line { HasLine axis.now }
    ensures { result ≡ [] }
{
    if extent < LONG {
        Places::listed(alloc)
    } else {
        Places::repeated(alloc, period_on(axis, extent))
    }
}

/// After how many places a dimension comes to the same position of a cycle, which under CYCLIC(k) is a block of each processor; so many at most,
/// as where it never does.
fn period_on(axis: &Option<Axis>, most: u32) -> u32
    requires line { HasLine axis.now }
    requires some { 1 ≤ most }
    ensures { 1 ≤ result }
{
    let Some(axis) = axis else {
        return most;
    };
    let Form::Cyclic(k) = &axis.line.form else {
        return most;
    };
    period_by(axis.factor, *k, axis.line.procs).min(most as u128) as u32
}

/// The least number whose product with a factor is a multiple of a cycle: of blocks of so many positions, one a processor.
fn period_by(factor: i64, block: u64, procs: u32) -> u128
    requires block { 1 ≤ block }
    requires most { block ≤ MAX_CYCLIC }
    requires procs { 1 ≤ procs }
    requires few { procs ≤ MAX_NODES }
    ensures { 1 ≤ result }
{
    let cycle = block as u128 * procs as u128;
    inverse_of(residue_of(factor as i128, cycle), cycle).period
}

/// The number of the next place with this coordinate: how many there were before it. One more is counted.
fn next_number(counts: &mut Vec<u32>, coordinate: u32) -> u32
    requires within { coordinate < length counts.old.items }
    requires few { slice_index_or counts.old.items coordinate 0 < 2 ^ 20 }
    ensures number { result ≡ slice_index_or counts.old.items coordinate 0 }
    ensures more { counts.new.items ≡ slice_set counts.old.items coordinate (slice_index_or counts.old.items coordinate 0 + 1) }
{
    let number = counts[coordinate as usize];
    counts[coordinate as usize] = number + 1;
    number
}

/// So many zeros.
pub(crate) fn zeros(alloc: Global, count: u32) -> Result<Vec<u32>, OutOfMemory>
    ensures { IfOk result (λ zeros. zeros.items ≡ replicate count 0) }
{
    Ok(vec![in alloc; 0; count as usize]?)
}

/// The subscript at a place, from 0, of a dimension.
fn subscript(lower: i64, place: u32) -> i64
    requires lower { unsigned_abs lower ≤ 2 ^ 41 }
    requires place { place ≤ 2 ^ 20 }
    ensures { result ≡ lower +ℤ pos place }
{
    lower + place as i64
}

/// By how much two nodes differ whose coordinates on an axis differ by one; 0 without one.
fn weight_on(grid: &Grid, axis: &Option<Axis>) -> u32
    requires { IsOfGrid grid.now axis.now }
    ensures value { result ≡ weight_on grid.now axis.now }
    ensures most { result ≤ MAX_NODES }
{
    match axis {
        None => 0,
        Some(axis) => weight(grid, axis.grid_dim),
    }
}

/// By how much two nodes differ whose coordinates in a dimension of the grid differ by one.
pub(crate) fn weight(grid: &Grid, dim: u32) -> u32
    requires { dim < length grid.now }
    ensures value { result ≡ weight grid.now dim }
    ensures most { result ≤ MAX_NODES }
{
    let dims = grid.dims();
    let mut weight = 1;
    for faster in 0..dim as usize {
        weight *= dims[faster];
    }
    weight
}

/// A number by a dimension: the place on it, and what is left for the others.
#[derive(Clone, Copy)]
pub(crate) struct Split {
    pub(crate) place: u32,
    pub(crate) rest: u32,
}

/// A number by a dimension of this extent. It doesn't divide a number below the extent.
pub(crate) fn split_by(number: u32, extent: u32) -> Split
    requires { 1 ≤ extent }
    ensures place { result.place ≡ number % extent }
    ensures rest { result.rest ≡ number / extent }
{
    if number < extent {
        Split {
            place: number,
            rest: 0,
        }
    } else {
        Split {
            place: number % extent,
            rest: number / extent,
        }
    }
}

/// What the places of the element at the position add to the number of its least owner.
pub(crate) fn parts_at(columns: &[Column], at: u32) -> u32
    requires columns { (nodes : ℕ) × All (IsFilled nodes) columns.now }
    requires small { parts_at columns.now at < 2 ^ 32 }
    ensures { result ≡ parts_at columns.now at }
{
    let mut sum = 0;
    let mut number = at;
    for column in columns {
        let here = split_by(number, column.extent());
        sum += column.place(here.place).part;
        number = here.rest;
    }
    sum
}

/// What the places of an element add up to.
#[derive(Clone, Copy)]
pub(crate) struct Found {
    /// To the number of its least owner.
    pub(crate) parts: u32,
    /// To its local address on a node.
    pub(crate) address: u32,
}

/// What the places of the element at the position add up to.
pub(crate) fn find_at(columns: &[Column], node: u32, at: u32) -> Found
    requires columns { (nodes : ℕ) × (node < nodes) × All (IsFilled nodes) columns.now }
    requires parts { parts_at columns.now at < 2 ^ 32 }
    requires address { address_at node columns.now at < 2 ^ 32 }
    ensures parts { result.parts ≡ parts_at columns.now at }
    ensures address { result.address ≡ address_at node columns.now at }
{
    let mut parts = 0;
    let mut address = 0;
    let mut number = at;
    for column in columns {
        let here = split_by(number, column.extent());
        let place = column.place(here.place);
        parts += place.part;
        address += place.rank * column.stride(node);
        number = here.rest;
    }
    Found { parts, address }
}

//! What one dimension of an array tells of an element: whether it is in bounds, and whether it can be a node's.

ghost use Rattle.std.specs.Prelude.{◌≡◌, ℕ, ◌<◌, FitsSigned, All, length, slice_index, true};
ghost use Rattle.std.specs.Int.{w64};
ghost use Rattle.mappings.specs.Alignment.{agrees_at};
ghost use Rattle.mappings.specs.Mapping.{InLine, IsMapDim};
ghost use Rattle.hpf_base.specs.ElementOrder.{product};
ghost use Rattle.hpf_base.specs.Grid.{node_coordinates};
ghost use Rattle.courses.specs.AxisTables.{subscript_on};
ghost use Rattle.courses.specs.Subscripts.{along_dims, alone, in_dim};
ghost use Rattle.owned_places.specs.Dims.{LieInside, asks_dim, entries_asking, given_along, given_alone, held_dim};

use align_map::{coordinate_of, linear, node_coordinate};
use expression_rules::Dim;
use hpf_base::{Grid, NodeId};
use mappings::{AlignDim, MapDim, Mapping};

/// The subscript at a place of an axis along which it moves.
pub(crate) fn subscript_on(first: i64, step: i64, place: u32) -> i128
    ensures { result ≡ subscript_on first step place }
{
    linear(step, place as i64, first)
}

/// Whether a subscript is in the bounds of a dimension.
pub(crate) fn in_dim(dims: &[Dim], k: usize, i: i128) -> bool
    requires { k < length dims.now }
    ensures value { result ≡ in_dim dims.now k i }
    ensures fits { result ≡ true → FitsSigned w64 i }
{
    dims[k].lower as i128 <= i && i <= dims[k].upper as i128
}

/// Whether what has a subscript in a dimension is in bounds there, and can be the node's by what the dimension tells.
pub(crate) fn is_held(dims: &[Dim], mapping: &Mapping, node: u32, k: usize, i: i128) -> bool
    requires lie { LieInside dims.now mapping.now }
    requires node { node < product mapping.now.grid }
    requires dim { k < length dims.now }
    ensures { result ≡ held_dim dims.now mapping.now node k i }
{
    in_dim(dims, k, i) && agree_along(mapping, node, k, narrow(i))
}

/// The same number of 64 bits.
pub(crate) fn narrow(i: i128) -> i64
    requires { FitsSigned w64 i }
    ensures { result ≡ i }
{
    i as i64
}

/// Whether the node has the coordinate of what the mapping gives a subscript, in each entry that moves along the dimension.
fn agree_along(mapping: &Mapping, node: u32, k: usize, i: i64) -> bool
    requires entries { (rank : ℕ) × All (IsMapDim mapping.now.grid rank) mapping.now.dims }
    requires inside { All (λ e. InLine e.line (given_along k i e.align)) mapping.now.dims }
    requires node { node < product mapping.now.grid }
    ensures { result ≡ along_dims (node_coordinates mapping.now.grid node) mapping.now.dims k i }
{
    for entry in mapping.dims.as_slice() {
        if !agrees_at(&mapping.grid, entry, node, given_along(&entry.align, k, i)) {
            return false;
        }
    }
    true
}

/// How many entries of the mapping ask a dimension.
pub(crate) fn entries_asking(mapping: &Mapping, k: usize) -> usize
    ensures { result ≡ entries_asking k mapping.now.dims }
{
    let mut count = 0;
    for entry in mapping.dims.as_slice() {
        if asks_dim(&entry.align, k) {
            count += 1;
        }
    }
    count
}

/// Whether what an entry gives goes by the subscript of a dimension.
fn asks_dim(align: &AlignDim, k: usize) -> bool
    ensures { result ≡ asks_dim k align.now }
{
    match *align {
        AlignDim::Linear { dim, .. } => dim as usize == k,
        _ => false,
    }
}

/// Whether the node has the coordinate of what the mapping gives all elements, in each entry that moves along no dimension.
pub(crate) fn agree_alone(mapping: &Mapping, node: u32) -> bool
    requires entries { (rank : ℕ) × All (IsMapDim mapping.now.grid rank) mapping.now.dims }
    requires inside { All (λ e. InLine e.line (given_alone e.align)) mapping.now.dims }
    requires node { node < product mapping.now.grid }
    ensures { result ≡ alone (node_coordinates mapping.now.grid node) mapping.now.dims }
{
    for entry in mapping.dims.as_slice() {
        if !agrees_at(&mapping.grid, entry, node, given_alone(&entry.align)) {
            return false;
        }
    }
    true
}

/// What an entry gives a subscript of a dimension, if it moves along that dimension.
fn given_along(align: &AlignDim, k: usize, i: i64) -> Option<i128>
    ensures { result ≡ given_along k i align.now }
{
    match *align {
        AlignDim::Linear { dim, a, b } if dim as usize == k => Some(linear(a, i, b)),
        _ => None,
    }
}

/// What an entry gives all elements, if it moves along no dimension.
fn given_alone(align: &AlignDim) -> Option<i128>
    ensures { result ≡ given_alone align.now }
{
    match *align {
        AlignDim::At(v) => Some(v as i128),
        _ => None,
    }
}

/// Whether the node has the coordinate of a subscript in an entry's line; None is any subscript.
fn agrees_at(grid: &Grid, entry: &MapDim, node: u32, given: Option<i128>) -> bool
    requires entry { (rank : ℕ) × IsMapDim grid.now rank entry.now }
    requires inside { InLine entry.now.line given }
    requires node { node < product grid.now }
    ensures { result ≡ agrees_at entry.now.line (slice_index (node_coordinates grid.now node) entry.now.grid_dim) given }
{
    match given {
        None => true,
        Some(subscript) => {
            coordinate_of(&entry.line, subscript)
                == node_coordinate(grid, NodeId(node), entry.grid_dim)
        }
    }
}

//! A node's piece of a mapped array.

ghost use Rattle.std.specs.Prelude.{◌≡◌, ◌↔◌, ℕ, ◌<◌, ◌≤◌, pos, ◌+ℤ◌, unsigned_abs, All, filter, length, slice_get, Some, IfOk, IsNone, false, []};
ghost use Rattle.hpf_base.specs.declared.index.Shape.{Shape};
ghost use Rattle.hpf_base.specs.declared.limits.TheConstants.{MAX_BOUND, MAX_ELEMENTS, MAX_RANK};
ghost use Rattle.mappings.specs.declared.mapping.Mapping.{Mapping};
ghost use Rattle.mappings.specs.Alignment.{owns};
ghost use Rattle.hpf_base.specs.ElementOrder.{elements, extents_of, IsInside, product};
ghost use Rattle.mappings.specs.LocalOrder.{local_elements};
ghost use Rattle.hpf_base.specs.Shape.{IsShape};
ghost use Rattle.mappings.specs.Mapping.{IsMapping, MapsInside};
ghost use Rattle.local_address.specs.Pieces.{owned_along};
ghost use Rattle.local_address.specs.Runs.{HasLine, InAxis, IsMoving, IsOfGrid, along, axis_along, subscripts};

use crate::axes::{axis_along, fixed_agree};
use crate::columns::lower_of;
use crate::element::{element_count, extent_of};
use crate::owned::OwnedSubscripts;
use crate::tuple_numbers::{nth_tuple, number_of, tuple_number};
use hpf_base::{Index, NodeId, OutOfMemory, Shape};
use mappings::Mapping;
use std::alloc::Global;
use std::marker::Model;

/// The elements of an array that a node owns, in array-element order: the first subscript fastest (Fortran 95,
/// 6.2.2.2). Contracts see the list of them. An element's local address is its number in the list, from 0.
#[derive(Drop)]
pub struct Piece {
    /// Whether the array has an element and the node has the coordinate of all of them in every entry that gives them one
    /// subscript. Otherwise it owns none.
    agrees: bool,
    /// The subscripts that it owns along each dimension: its elements are their tuples.
    dims: Vec<OwnedSubscripts>,
    alloc: Global,
}

impl Model for Piece {
    ghost use Rattle.std.specs.Prelude.{List, ℤ};
    ghost use Rattle.local_address.specs.Pieces.{AreDimensions, tuples_where};

    ghost Value = { List (List ℤ) };

    ghost view = { λ p. tuples_where p.agrees p.dims.items };

    ghost invariant = { λ p. AreDimensions p.dims.items };
}

impl Piece {
    /// What the node owns of an array of this shape by this mapping. The node lies in the grid, and every element of
    /// the shape lies inside the template.
    pub fn new(
        alloc: Global,
        map: &Mapping,
        shape: &Shape,
        node: NodeId,
    ) -> Result<Piece, OutOfMemory>
        requires mapping { IsMapping (length shape.now.lower) map.now }
        requires shape { IsShape shape.now }
        requires inside { All (MapsInside map.now) (elements shape.now) }
        requires node { node.0 < product map.now.grid }
        ensures { IfOk result (λ piece. piece ≡ local_elements map.now shape.now node.0) }
    {
        if element_count(shape) == 0 || !fixed_agree(map, node) {
            return Ok(empty_piece(alloc));
        }
        let dims = owned_dims(alloc, map, shape, node)?;
        Ok(Piece {
            agrees: true,
            dims,
            alloc,
        })
    }

    /// How many elements the node owns. It takes no memory.
    pub fn len(&self) -> usize
        ensures { result ≡ length self.now }
    {
        if self.agrees {
            tuple_number(&self.dims) as usize
        } else {
            0
        }
    }

    /// The element's local address, from 0; None exactly where the node doesn't own it. It takes no memory.
    pub fn address(&self, index: &Index) -> Option<usize>
        ensures address { (address : ℕ) → (result ≡ Some address) ↔ (slice_get self.now address ≡ Some index.now) }
        ensures none { (mapping : Mapping) (shape : Shape) (node : ℕ) → self.now ≡ local_elements mapping shape node
            → IsShape shape → IsInside shape index.now → (IsNone result ↔ (owns mapping index.now node ≡ false)) }
    {
        if !self.agrees {
            return None;
        }
        let number = number_of(&self.dims, index.numbers())?;
        Some(number as usize)
    }

    /// The element with this local address, from 0; None exactly where it is at least `len`. It takes no memory.
    pub fn element(&self, address: usize) -> Option<Index>
        ensures { result ≡ slice_get self.now address }
    {
        if address >= self.len() {
            return None;
        }
        Some(nth_tuple(self.alloc, &self.dims, address as u64))
    }
}

/// The piece of a node that owns no element.
fn empty_piece(alloc: Global) -> Piece
    ensures { result ≡ [] }
{
    Piece {
        agrees: false,
        dims: Vec::new(alloc),
        alloc,
    }
}

/// What a node owns along each dimension of an array that has an element.
fn owned_dims(
    alloc: Global,
    map: &Mapping,
    shape: &Shape,
    node: NodeId,
) -> Result<Vec<OwnedSubscripts>, OutOfMemory>
    requires mapping { IsMapping (length shape.now.lower) map.now }
    requires shape { IsShape shape.now }
    requires inside { All (MapsInside map.now) (elements shape.now) }
    requires node { node.0 < product map.now.grid }
    requires some { 1 ≤ product (extents_of shape.now) }
    ensures short { IfOk result (λ dims. length dims.items ≤ MAX_RANK) }
    ensures value { IfOk result (λ dims. dims.items ≡ owned_along map.now node.0 0 shape.now.lower (extents_of shape.now)) }
{
    let mut dims = Vec::new(alloc);
    let lower = shape.lower.numbers();
    let extent = shape.extent.numbers();
    for dim in 0..lower.len() {
        dims.push(owned_on(
            alloc,
            map,
            dim as u32,
            node,
            lower_of(lower, dim),
            extent_of(extent, dim),
        )?)?;
    }
    Ok(dims)
}

/// What a node owns along one dimension, counted from 0, which begins at `lower`.
fn owned_on(
    alloc: Global,
    map: &Mapping,
    dim: u32,
    node: NodeId,
    lower: i64,
    extent: u64,
) -> Result<OwnedSubscripts, OutOfMemory>
    requires line { HasLine (axis_along dim map.now.dims) }
    requires axis { IsOfGrid map.now.grid (axis_along dim map.now.dims) }
    requires moves { IsMoving (axis_along dim map.now.dims) }
    requires node { node.0 < product map.now.grid }
    requires lower { unsigned_abs lower ≤ MAX_BOUND }
    requires some { 1 ≤ extent }
    requires extent { extent ≤ MAX_ELEMENTS }
    requires inside { (place : ℕ) → place < extent → InAxis (axis_along dim map.now.dims) (lower +ℤ pos place) }
    ensures { IfOk result (λ owned. owned ≡ filter (along map.now node.0 dim) (subscripts lower extent)) }
{
    let axis = axis_along(alloc, map, dim)?;
    OwnedSubscripts::new(alloc, &map.grid, &axis, node, lower, extent)
}

//! Owners of elements, and nodes' pieces of arrays.

ghost use Rattle.std.specs.Prelude.{length, All};
ghost use Rattle.hpf_base.specs.ElementOrder.{elements};
ghost use Rattle.hpf_base.specs.Shape.{IsShape};
ghost use Rattle.mappings.specs.Mapping.{IsMapping, MapsInside};

use crate::show::write_index;
use align_map::{least_owner, owns};
use case_mappings::{first_part, is_inside, mapped_of};
use case_texts::TextError;
use hpf_base::{Index, NodeId, Shape};
use local_address::{Piece, element_count, nth_element};
use mappings::Mapping;
use std::alloc::{AllocError, Global};
use std::fmt::Write;

/// Writes the owners of each element, a line an element.
pub fn write_owners(alloc: Global, out: &mut String, written: &str) -> Result<(), TextError> {
    let mapped = mapped_of(alloc, written)?;
    write_all_owners(alloc, out, &mapped.mapping, &mapped.shape)
}

/// Writes the owners of each element of the array.
fn write_all_owners(
    alloc: Global,
    out: &mut String,
    map: &Mapping,
    shape: &Shape,
) -> Result<(), TextError>
    requires mapping { IsMapping (length shape.now.lower) map.now }
    requires shape { IsShape shape.now }
{
    for number in 0..element_count(shape) {
        write_owners_at(out, map, &nth_element(alloc, shape, number))?;
    }
    Ok(())
}

/// Writes the owners of an element, which lies inside, as all of the array do; the test says it of this one.
fn write_owners_at(out: &mut String, map: &Mapping, index: &Index) -> Result<(), AllocError>
    requires { IsMapping (length index.now) map.now }
{
    if !is_inside(map, index) {
        return Ok(());
    }
    write_owners_of(out, map, index)
}

/// Writes the least owner of an element, and all of them.
fn write_owners_of(out: &mut String, map: &Mapping, index: &Index) -> Result<(), AllocError>
    requires mapping { IsMapping (length index.now) map.now }
    requires inside { MapsInside map.now index.now }
{
    out.push_str(" ")?;
    write_index(out, index)?;
    write!(out, ": least {}, all", least_owner(map, index).0)?;
    for node in 0..map.grid.node_count() {
        if owns(map, index, NodeId(node)) {
            write!(out, " {node}")?;
        }
    }
    out.push_str("\n")
}

/// Writes what a node owns of an array.
pub fn write_piece(alloc: Global, out: &mut String, written: &str) -> Result<(), TextError> {
    let (node, rest) = first_part(written);
    let node = node.trim().parse::<u32>().ok().ok_or(TextError::Malformed)?;
    let mapped = mapped_of(alloc, rest)?;
    write_piece_of(alloc, out, &mapped.mapping, &mapped.shape, node)
}

/// Writes what a node owns of an array with this mapping.
fn write_piece_of(
    alloc: Global,
    out: &mut String,
    map: &Mapping,
    shape: &Shape,
    node: u32,
) -> Result<(), TextError>
    requires mapping { IsMapping (length shape.now.lower) map.now }
    requires shape { IsShape shape.now }
    requires inside { All (MapsInside map.now) (elements shape.now) }
{
    if node >= map.grid.node_count() {
        return Err(TextError::Malformed);
    }
    match Piece::new(alloc, map, shape, NodeId(node)) {
        Ok(piece) => write_places(alloc, out, &piece, shape),
        Err(_) => Err(TextError::Memory),
    }
}

/// Writes the element at each local address, and the local address of each element.
fn write_places(
    alloc: Global,
    out: &mut String,
    piece: &Piece,
    shape: &Shape,
) -> Result<(), TextError>
    requires { IsShape shape.now }
{
    write_elements(out, piece)?;
    write_addresses(alloc, out, piece, shape)?;
    Ok(())
}

/// Writes the element at each local address, the first past the end too.
fn write_elements(out: &mut String, piece: &Piece) -> Result<(), AllocError> {
    out.push_str("  elements")?;
    for address in 0..=piece.len() {
        match piece.element(address) {
            Some(index) => write_index(out, &index)?,
            None => out.push_str(" -\n")?,
        }
    }
    Ok(())
}

/// Writes the local address of each element of the array.
fn write_addresses(
    alloc: Global,
    out: &mut String,
    piece: &Piece,
    shape: &Shape,
) -> Result<(), AllocError>
    requires { IsShape shape.now }
{
    out.push_str("  addresses")?;
    for number in 0..element_count(shape) {
        match piece.address(&nth_element(alloc, shape, number)) {
            Some(address) => write!(out, " {address}")?,
            None => out.push_str(" -")?,
        }
    }
    out.push_str("\n")
}

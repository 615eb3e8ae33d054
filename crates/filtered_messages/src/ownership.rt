//! Who owns an element, by the words of the mapping alone (HPF 2.0, DISTRIBUTE and ALIGN).

use crate::numbering::{at_least_one, coordinate, offset};
use case_mappings::Mapped;
use hpf_base::Shape;
use mappings::{AlignDim, Form, Line, MapDim};

/// The nodes that own the element at a place of an array in array-element order, a bit each, that of node 0 the lowest.
pub(crate) fn owners_at(mapped: &Mapped, at: u64) -> u64 {
    let mut owners: u64 = 0;
    for node in 0..mapped.mapping.grid.node_count() {
        if owns(mapped, node, at) {
            owners |= bit_of(node);
        }
    }
    owners
}

/// The bit of a node.
pub(crate) fn bit_of(node: u32) -> u64 {
    let one: u64 = 1;
    one.wrapping_shl(node)
}

/// Whether the node's coordinate agrees in each distributed dimension.
fn owns(mapped: &Mapped, node: u32, at: u64) -> bool {
    for entry in mapped.mapping.dims.as_slice() {
        let own = coordinate(mapped.mapping.grid.dims(), entry.grid_dim, node);
        if !agrees(&mapped.shape, entry, at, own) {
            return false;
        }
    }
    true
}

/// Whether the element lies at a coordinate of a distributed dimension. Where it is replicated it lies at each.
fn agrees(shape: &Shape, entry: &MapDim, at: u64, own: u64) -> bool {
    match entry.align {
        AlignDim::Every => true,
        AlignDim::At(subscript) => dealt_to(&entry.line, subscript as i128) == own,
        AlignDim::Linear { dim, a, b } => {
            let subscript = (a as i128)
                .wrapping_mul(subscript_of(shape, dim, at))
                .wrapping_add(b as i128);
            dealt_to(&entry.line, subscript) == own
        }
    }
}

/// The subscript of an element in a dimension of its array.
fn subscript_of(shape: &Shape, dim: u32, at: u64) -> i128 {
    match shape.lower.numbers().get(dim as usize) {
        Some(lower) => (*lower as i128).wrapping_add(
            offset(shape.extent.numbers(), dim, at) as i128,
        ),
        None => 0,
    }
}

/// The coordinate to which the format deals a subscript of a line, whose positions count from 0 here.
fn dealt_to(line: &Line, subscript: i128) -> u64 {
    let position = u64::try_from(subscript.wrapping_sub(line.lower as i128)).unwrap_or(0);
    match &line.form {
        Form::Whole => 0,
        Form::Block(size) => position / at_least_one(*size),
        Form::Cyclic(size) => position / at_least_one(*size) % at_least_one(line.procs as u64),
        Form::Gen(sizes) => block_with(sizes.as_slice(), position),
    }
}

/// The number of the block with this position, which counts from 0, where blocks of these sizes follow each other.
fn block_with(sizes: &[u64], position: u64) -> u64 {
    let mut end: u64 = 0;
    for (block, size) in sizes.iter().enumerate() {
        end = end.wrapping_add(*size);
        if position < end {
            return block as u64;
        }
    }
    sizes.len() as u64
}

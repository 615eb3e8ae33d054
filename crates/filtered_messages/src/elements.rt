//! All elements of the arrays, with their owners and those that take them: the definition of a message, element by element.

use crate::ownership::{bit_of, owners_at};
use crate::statement::Named;
use case_mappings::Mapped;
use hpf_base::Shape;
use std::alloc::Global;
use storage::Spot;

/// How many elements an array and how many tuples a space may have.
const MOST: u64 = 1024;

/// An element, the nodes that own it, and those that need it and don't own it, a bit each.
#[derive(Clone, Copy)]
pub struct Element {
    spot: Spot,
    owners: u64,
    takers: u64,
}

/// Why nodes need elements: for a statement over so many tuples, or for a redistribution after which the arrays lie so.
#[derive(Clone, Copy)]
enum Need<'a> {
    Statement { named: &'a Named<'a>, tuples: u64 },
    Redistribution { after: &'a [Mapped] },
}

/// All elements with those that need them for a statement, row by row, each in array-element order; None where those of an array or the tuples are too many.
pub fn elements_of(alloc: Global, named: &Named<'_>) -> Option<Vec<Element>> {
    let tuples = tuples_of(named.extents)?;
    all_rows(alloc, named.arrays, Need::Statement { named, tuples })
}

/// All elements as they lie before a redistribution, with those that own them after it, in the same order; None where those of an array are too many.
pub fn moved_elements(alloc: Global, before: &[Mapped], after: &[Mapped]) -> Option<Vec<Element>> {
    all_rows(alloc, before, Need::Redistribution { after })
}

/// The elements of all rows.
fn all_rows(alloc: Global, arrays: &[Mapped], need: Need<'_>) -> Option<Vec<Element>> {
    let mut elements = Vec::new(alloc);
    for (row, mapped) in arrays.iter().enumerate() {
        if !add_row(&mut elements, arrays, need, row, &mapped.shape) {
            return None;
        }
    }
    Some(elements)
}

/// Adds the elements of a row, and says whether it could.
fn add_row(
    elements: &mut Vec<Element>,
    arrays: &[Mapped],
    need: Need<'_>,
    row: usize,
    shape: &Shape,
) -> bool {
    let Some(count) = size_of(shape) else {
        return false;
    };
    for at in 0..count {
        let spot = Spot {
            row,
            at: at as usize,
        };
        if elements.push(element_at(arrays, need, spot)).is_err() {
            return false;
        }
    }
    true
}

/// How many tuples a space has.
fn tuples_of(extents: &[u64]) -> Option<u64> {
    let mut count: u64 = 1;
    for extent in extents {
        count = count.checked_mul(*extent)?;
    }
    at_most(count)
}

/// How many elements an array has.
fn size_of(shape: &Shape) -> Option<u64> {
    let mut count: u64 = 1;
    for extent in shape.extent.numbers() {
        count = count.checked_mul(extent.unsigned_abs())?;
    }
    at_most(count)
}

/// The number, where it is at most the limit.
fn at_most(count: u64) -> Option<u64> {
    if count <= MOST { Some(count) } else { None }
}

/// An element with its owners and those that take it.
fn element_at(arrays: &[Mapped], need: Need<'_>, spot: Spot) -> Element {
    let owners = owners_in(arrays, spot);
    let needing = match need {
        Need::Statement { named, tuples } => reading(named, tuples, spot),
        Need::Redistribution { after } => owners_in(after, spot),
    };
    Element {
        spot,
        owners,
        takers: needing & !owners,
    }
}

/// The nodes that compute a tuple at which an element is read.
fn reading(named: &Named<'_>, tuples: u64, spot: Spot) -> u64 {
    let mut nodes: u64 = 0;
    for tuple in 0..tuples {
        if named.is_read(tuple, spot) {
            nodes |= computing(named, tuple);
        }
    }
    nodes
}

/// The nodes that own an element; none where there is no such array.
fn owners_in(arrays: &[Mapped], spot: Spot) -> u64 {
    match arrays.get(spot.row) {
        Some(mapped) => owners_at(mapped, spot.at as u64),
        None => 0,
    }
}

/// The nodes that compute a tuple: those that own what is assigned; node 0 where that is out of bounds.
fn computing(named: &Named<'_>, tuple: u64) -> u64 {
    match named.at(named.left, tuple) {
        Some(spot) => owners_in(named.arrays, spot),
        None => bit_of(0),
    }
}

/// The elements of the message from one node to another: those that the one owns as the least and that the other takes.
pub fn sent(alloc: Global, elements: &[Element], from: u32, to: u32) -> Option<Vec<Spot>> {
    let mut spots = Vec::new(alloc);
    for element in elements {
        if element.owners.trailing_zeros() == from && element.takers & bit_of(to) != 0 {
            spots.push(element.spot).ok()?;
        }
    }
    Some(spots)
}

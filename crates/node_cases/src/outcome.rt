//! What the nodes of a run come to together.

use crate::show::{write_end, write_numbers, write_status};
use node_machine::Node;
use owner_tables::Spot;
use std::alloc::{AllocError, Global};
use std::fmt::Write;

/// What the nodes come to, in lines, which are the same on each grid: what node 0 printed and how its run ends, the slots, and each row whole.
/// Where nodes differ in what they have in common, or a node's piece isn't what it owns of the whole row, the lines say so.
pub fn outcome_of(alloc: Global, nodes: &[Node]) -> Result<String, AllocError> {
    let mut out = String::new(alloc);
    write_end(&mut out, nodes)?;
    if let Some(first) = nodes.first() {
        write_ends(alloc, &mut out, nodes, first)?;
        for row in 0..first.owners().rows() {
            write_row(alloc, &mut out, nodes, row, first.owners().size(row))?;
        }
    }
    Ok(out)
}

/// Writes how a node's run ends and its slots, and those of each node that differs in them.
fn write_ends(
    alloc: Global,
    out: &mut String,
    nodes: &[Node],
    first: &Node,
) -> Result<(), AllocError> {
    let end = end_of(alloc, first)?;
    writeln!(out, "  {end}")?;
    for (id, node) in nodes.iter().enumerate() {
        let other = end_of(alloc, node)?;
        if other.as_str() != end.as_str() {
            writeln!(out, "  but node {id} {other}")?;
        }
    }
    Ok(())
}

fn end_of(alloc: Global, node: &Node) -> Result<String, AllocError> {
    let mut end = String::new(alloc);
    write_status(&mut end, node.status())?;
    end.push_str(", slots")?;
    write_numbers(&mut end, node.slots())?;
    Ok(end)
}

/// Writes a row of so many elements, a comma before each.
fn write_row(
    alloc: Global,
    out: &mut String,
    nodes: &[Node],
    row: usize,
    size: usize,
) -> Result<(), AllocError> {
    let mut before = Vec::new(alloc);
    for _ in 0..nodes.len() {
        before.push(0)?;
    }
    write!(out, "  row {row}")?;
    for at in 0..size {
        write_element(out, nodes, Spot { row, at }, &mut before)?;
    }
    write_lengths(out, nodes, row, size, &before)?;
    out.push_str("\n")
}

/// Writes the value that the owners of an element have, once if it is the same. Each has its elements in their order, and before this one so many.
fn write_element(
    out: &mut String,
    nodes: &[Node],
    spot: Spot,
    before: &mut [usize],
) -> Result<(), AllocError> {
    out.push_str(",")?;
    let mut last = None;
    for (id, node) in nodes.iter().enumerate() {
        if id < before.len() && owns(node, id, spot) {
            let value = number_at(node.piece(spot.row), before[id]);
            before[id] = before[id].wrapping_add(1);
            if last != Some(value) {
                write!(out, " {value}")?;
            }
            last = Some(value);
        }
    }
    Ok(())
}

/// Whether the node of this number owns an element, by its own table.
fn owns(node: &Node, id: usize, spot: Spot) -> bool {
    let owners = node.owners();
    spot.at < owners.size(spot.row) && is_among(owners.owners(spot), id)
}

fn is_among(owners: &[u32], id: usize) -> bool {
    owners.iter().any(|owner| *owner as usize == id)
}

/// Writes which nodes have another size of a row, or a piece of another length than so many elements.
fn write_lengths(
    out: &mut String,
    nodes: &[Node],
    row: usize,
    size: usize,
    counts: &[usize],
) -> Result<(), AllocError> {
    for (id, node) in nodes.iter().enumerate() {
        let length = node.piece(row).len();
        if counts.get(id) != Some(&length) || node.owners().size(row) != size {
            write!(out, ", but node {id} has {length} elements")?;
        }
    }
    Ok(())
}

/// The number at a place, and 0 where there is none.
fn number_at(numbers: &[i64], at: usize) -> i64 {
    match numbers.get(at) {
        Some(number) => *number,
        None => 0,
    }
}

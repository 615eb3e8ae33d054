//! The messages of all pairs of nodes, beside the definition.

use crate::arrays::Arrays;
use crate::show::write_spots;
use crate::statement::Statement;
use crate::told::{Act, told};
use expression_rules::Dims;
use filtered_messages::{Element, Named, elements_of, moved_elements, sent};
use std::alloc::Global;
use std::fmt::Write;
use storage::Spot;

/// Writes how many elements the messages of all pairs of nodes have for a statement, or the first pair whose message isn't what the definition gives.
pub fn write_pairs(
    alloc: Global,
    out: &mut String,
    arrays: &Arrays,
    statement: &Statement,
) -> Option<()> {
    let [left, reads @ ..] = statement.references.as_slice() else {
        return None;
    };
    let named = Named {
        arrays: &arrays.mapped,
        extents: &statement.extents,
        left,
        reads,
    };
    match elements_of(alloc, &named) {
        Some(elements) => compare(alloc, out, arrays, Act::Statement(statement), &elements),
        None => None,
    }
}

/// The same for a redistribution after which the arrays lie so.
pub fn write_moves(alloc: Global, out: &mut String, arrays: &Arrays, after: &Arrays) -> Option<()> {
    match moved_elements(alloc, &arrays.mapped, &after.mapped) {
        Some(elements) => compare(alloc, out, arrays, Act::Redistribution(after), &elements),
        None => None,
    }
}

/// Compares the messages with those that these elements give.
fn compare(
    alloc: Global,
    out: &mut String,
    arrays: &Arrays,
    act: Act<'_>,
    elements: &[Element],
) -> Option<()> {
    let nodes = arrays.owners.nodes();
    let pairs = nodes.wrapping_mul(nodes);
    let mut sum: usize = 0;
    for pair in 0..pairs {
        let from = pair / nodes;
        let to = pair % nodes;
        match counted(alloc, arrays, act, elements, from, to) {
            Some(count) => sum = sum.wrapping_add(count),
            None => return write_both(alloc, out, arrays, act, elements, from, to),
        }
    }
    writeln!(out, "  {pairs} pairs as the filter, {sum} elements").ok()
}

/// How many elements a message has; None where it isn't told, or isn't what the definition gives.
fn counted(
    alloc: Global,
    arrays: &Arrays,
    act: Act<'_>,
    elements: &[Element],
    from: u32,
    to: u32,
) -> Option<usize> {
    let found = told(alloc, &arrays.owners, act, from, to)?;
    if is_filtered(alloc, elements, from, to, &found) {
        Some(found.len())
    } else {
        None
    }
}

/// Whether the definition gives these.
fn is_filtered(alloc: Global, elements: &[Element], from: u32, to: u32, found: &[Spot]) -> bool {
    match sent(alloc, elements, from, to) {
        Some(wanted) => wanted.as_slice() == found,
        None => false,
    }
}

/// Writes a message as it is told, and as the definition gives it.
fn write_both(
    alloc: Global,
    out: &mut String,
    arrays: &Arrays,
    act: Act<'_>,
    elements: &[Element],
    from: u32,
    to: u32,
) -> Option<()> {
    let found = told(alloc, &arrays.owners, act, from, to)?;
    let wanted = sent(alloc, elements, from, to)?;
    writeln!(out, "  {from} to {to} as told and by the filter:").ok()?;
    write_lists(out, &arrays.shapes, &found, &wanted)
}

/// Writes two lists.
fn write_lists(out: &mut String, shapes: &[Dims], one: &[Spot], other: &[Spot]) -> Option<()> {
    write_spots(out, shapes, one).ok()?;
    write_spots(out, shapes, other).ok()
}

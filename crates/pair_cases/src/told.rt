//! What is told of the message from one node to another.

use crate::arrays::Arrays;
use crate::sizes::are_of_same_sizes;
use crate::spaces::{all_along, are_few, is_along};
use crate::statement::Statement;
use owner_tables::Owners;
use pair_messages::{message, remap_message};
use std::alloc::Global;
use storage::Spot;

/// What the messages are for: a statement, or a redistribution after which the arrays lie so.
#[derive(Clone, Copy)]
pub enum Act<'a> {
    Statement(&'a Statement),
    Redistribution(&'a Arrays),
}

/// The elements of the message from one node to another; None where there is no such message or no memory for it.
pub fn told(alloc: Global, owners: &Owners, act: Act<'_>, from: u32, to: u32) -> Option<Vec<Spot>> {
    match act {
        Act::Statement(statement) => of_statement(alloc, owners, statement, from, to),
        Act::Redistribution(after) => of_redistribution(alloc, owners, &after.owners, from, to),
    }
}

/// Those of a statement.
fn of_statement(
    alloc: Global,
    owners: &Owners,
    statement: &Statement,
    from: u32,
    to: u32,
) -> Option<Vec<Spot>> {
    let extents = statement.extents.as_slice();
    let [left, reads @ ..] = statement.references.as_slice() else {
        return None;
    };
    if from >= owners.nodes() || to >= owners.nodes() || !are_few(extents) {
        return None;
    }
    if !is_along(left, extents.len()) || !all_along(reads, extents.len()) {
        return None;
    }
    message(alloc, owners, extents, left, reads, from, to).ok()
}

/// Those of a redistribution.
fn of_redistribution(
    alloc: Global,
    before: &Owners,
    after: &Owners,
    from: u32,
    to: u32,
) -> Option<Vec<Spot>> {
    let nodes = before.nodes();
    if from >= nodes || to >= nodes || nodes != after.nodes() {
        return None;
    }
    if !are_of_same_sizes(before, after) {
        return None;
    }
    remap_message(alloc, before, after, from, to).ok()
}

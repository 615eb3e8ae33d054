//! Which colours are free at an end, and how one becomes free: paths of two colours have these exchanged.
//!
//! What takes `at_target` speaks of an end, which is a target if the flag is set and else a source.

ghost use Rattle.std.specs.Prelude.{◌≡◌, ◌<◌, ◌≤◌, ◌*◌, ◌&&◌, ℕ, false, not, length, get_or};
ghost use Rattle.round_color.specs.Coloring.{turned, is_color, is_free, free_at, free_at_both, exchange};
ghost use Rattle.round_color.specs.Table.{seen, sided};

use crate::table::{color_beside, mate, put_color};

/// The least of so many colours that is free at a source and at a target; their number where none is.
pub(crate) fn free_at_both(
    table: &[Option<u32>],
    nodes: u32,
    limit: u32,
    source: u32,
    target: u32,
) -> u32
    requires size { length table.now ≡ nodes * nodes }
    requires few { nodes ≤ 64 }
    requires source { source < nodes }
    requires target { target < nodes }
    ensures { result ≡ free_at_both nodes limit (seen nodes table.now) source target }
{
    let mut free = [true; 64];
    leave_free(&mut free, table, nodes, false, source);
    leave_free(&mut free, table, nodes, true, target);
    for color in 0..limit {
        if is_free_at_both(&free, table, nodes, source, target, color) {
            return color;
        }
    }
    limit
}

/// The least of so many colours that is free at the end; their number where none is.
pub(crate) fn free_at(
    table: &[Option<u32>],
    nodes: u32,
    limit: u32,
    at_target: bool,
    node: u32,
) -> u32
    requires size { length table.now ≡ nodes * nodes }
    requires few { nodes ≤ 64 }
    requires node { node < nodes }
    ensures { result ≡ free_at nodes limit (sided at_target (seen nodes table.now)) node }
{
    let mut free = [true; 64];
    leave_free(&mut free, table, nodes, at_target, node);
    for color in 0..limit {
        if is_free_at(&free, table, nodes, at_target, node, color) {
            return color;
        }
    }
    limit
}

/// Whether the colour is free at a source and at a target, where a list says it of the first colours.
fn is_free_at_both(
    free: &[bool],
    table: &[Option<u32>],
    nodes: u32,
    source: u32,
    target: u32,
    color: u32,
) -> bool
    requires size { length table.now ≡ nodes * nodes }
    requires few { nodes ≤ 64 }
    requires source { source < nodes }
    requires target { target < nodes }
    requires listed { color < length free.now
        → get_or free.now color false ≡ (is_free nodes (seen nodes table.now) source color && is_free nodes (turned (seen nodes table.now)) target color) }
    ensures { result ≡ (is_free nodes (seen nodes table.now) source color && is_free nodes (turned (seen nodes table.now)) target color) }
{
    if (color as usize) < free.len() {
        free[color as usize]
    } else {
        is_free(table, nodes, false, source, color) && is_free(table, nodes, true, target, color)
    }
}

/// Whether the colour is free at the end, where a list says it of the first colours.
fn is_free_at(
    free: &[bool],
    table: &[Option<u32>],
    nodes: u32,
    at_target: bool,
    node: u32,
    color: u32,
) -> bool
    requires size { length table.now ≡ nodes * nodes }
    requires few { nodes ≤ 64 }
    requires node { node < nodes }
    requires listed { color < length free.now → get_or free.now color false ≡ is_free nodes (sided at_target (seen nodes table.now)) node color }
    ensures { result ≡ is_free nodes (sided at_target (seen nodes table.now)) node color }
{
    if (color as usize) < free.len() {
        free[color as usize]
    } else {
        is_free(table, nodes, at_target, node, color)
    }
}

/// Leaves of the colours that a list says are free those that no edge at the end has.
fn leave_free(free: &mut [bool], table: &[Option<u32>], nodes: u32, at_target: bool, node: u32)
    requires size { length table.now ≡ nodes * nodes }
    requires few { nodes ≤ 64 }
    requires node { node < nodes }
    ensures { (color : ℕ) → get_or free.new color false ≡ (get_or free.old color false && is_free nodes (sided at_target (seen nodes table.now)) node color) }
{
    for other in 0..nodes {
        take_color(free, color_beside(table, nodes, at_target, node, other));
    }
}

/// Takes the colour of an edge, where it has one, from those that a list says are free.
fn take_color(free: &mut [bool], taken: Option<u32>)
    ensures { (color : ℕ) → get_or free.new color false ≡ (get_or free.old color false && not (is_color color taken)) }
{
    if let Some(found) = taken
        && (found as usize) < free.len()
    {
        free[found as usize] = false;
    }
}

/// Whether no edge at the end has the colour.
fn is_free(table: &[Option<u32>], nodes: u32, at_target: bool, node: u32, color: u32) -> bool
    requires size { length table.now ≡ nodes * nodes }
    requires few { nodes ≤ 64 }
    requires node { node < nodes }
    ensures { result ≡ is_free nodes (sided at_target (seen nodes table.now)) node color }
{
    mate(table, nodes, at_target, node, color) == nodes
}

/// Exchanges the two colours along the path of so many edges at most that begins at the end, and whose edges have the
/// one colour, the other, the one and so on. Each edge is out while what follows it is exchanged.
pub(crate) fn exchange(
    table: &mut [Option<u32>],
    nodes: u32,
    steps: usize,
    at_target: bool,
    node: u32,
    one: u32,
    other: u32,
)
    requires size { length table.old ≡ nodes * nodes }
    requires few { nodes ≤ 64 }
    requires node { node < nodes }
    ensures { sided at_target (seen nodes table.new) ≡ exchange nodes steps (sided at_target (seen nodes table.old)) node one other }
{
    if steps == 0 {
        return;
    }
    let next = mate(table, nodes, at_target, node, one);
    if next < nodes {
        put_color(table, nodes, at_target, node, next, None);
        exchange(table, nodes, steps - 1, !at_target, next, other, one);
        put_color(table, nodes, at_target, node, next, Some(other));
    }
}

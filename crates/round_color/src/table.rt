//! A colouring as a table, with a row for each source.
//!
//! What takes `at_target` speaks of an end, which is a target if the flag is set and else a source.

ghost use Rattle.std.specs.Prelude.{◌≡◌, ◌<◌, ◌≤◌, ◌+◌, ◌*◌, IfOk, length, unwrap_or};
ghost use Rattle.round_color.specs.Coloring.{is_color, no_colors, put, mate};
ghost use Rattle.round_color.specs.Proper.{IsEdge};
ghost use Rattle.round_color.specs.Table.{seen, sided, ends};

use hpf_base::OutOfMemory;
use letters::Pair;
use std::alloc::Global;

/// The table in which no edge has a colour.
pub(crate) fn no_colors(alloc: Global, nodes: u32) -> Result<Vec<Option<u32>>, OutOfMemory>
    requires few { nodes ≤ 64 }
    ensures value { IfOk result (λ table. seen nodes table.items ≡ no_colors) }
    ensures size { IfOk result (λ table. length table.items ≡ nodes * nodes) }
{
    Ok(vec![in alloc; None; (nodes * nodes) as usize]?)
}

/// Where the table keeps the edge from a node to another.
fn place(nodes: u32, source: u32, target: u32) -> usize
    requires few { nodes ≤ 64 }
    requires source { source < nodes }
    requires target { target < nodes }
    ensures value { result ≡ source * nodes + target }
    ensures within { result < nodes * nodes }
{
    (source * nodes + target) as usize
}

/// What colour the edge from a node to another has, where it has one.
fn color_at(table: &[Option<u32>], nodes: u32, source: u32, target: u32) -> Option<u32>
    requires size { length table.now ≡ nodes * nodes }
    requires few { nodes ≤ 64 }
    requires source { source < nodes }
    requires target { target < nodes }
    ensures { result ≡ seen nodes table.now source target }
{
    table[place(nodes, source, target)]
}

/// The colour that the edge has; 0 where it has none.
pub(crate) fn color_of(table: &[Option<u32>], nodes: u32, edge: &Pair) -> u32
    requires size { length table.now ≡ nodes * nodes }
    requires few { nodes ≤ 64 }
    requires between { IsEdge nodes (ends edge.now) }
    ensures { result ≡ unwrap_or (seen nodes table.now (ends edge.now).0 (ends edge.now).1) 0 }
{
    match color_at(table, nodes, edge.from.0, edge.to.0) {
        Some(color) => color,
        None => 0,
    }
}

/// What colour the edge between the end and another node has, where it has one.
pub(crate) fn color_beside(
    table: &[Option<u32>],
    nodes: u32,
    at_target: bool,
    node: u32,
    other: u32,
) -> Option<u32>
    requires size { length table.now ≡ nodes * nodes }
    requires few { nodes ≤ 64 }
    requires node { node < nodes }
    requires other { other < nodes }
    ensures { result ≡ sided at_target (seen nodes table.now) node other }
{
    if at_target {
        color_at(table, nodes, other, node)
    } else {
        color_at(table, nodes, node, other)
    }
}

/// Whether the edge between the end and another node has the colour.
fn has_color(
    table: &[Option<u32>],
    nodes: u32,
    at_target: bool,
    node: u32,
    other: u32,
    color: u32,
) -> bool
    requires size { length table.now ≡ nodes * nodes }
    requires few { nodes ≤ 64 }
    requires node { node < nodes }
    requires other { other < nodes }
    ensures { result ≡ is_color color (sided at_target (seen nodes table.now) node other) }
{
    match color_beside(table, nodes, at_target, node, other) {
        Some(found) => found == color,
        None => false,
    }
}

/// The other end of the edge with that colour; the number of nodes where no edge at the end has it.
pub(crate) fn mate(table: &[Option<u32>], nodes: u32, at_target: bool, node: u32, color: u32) -> u32
    requires size { length table.now ≡ nodes * nodes }
    requires few { nodes ≤ 64 }
    requires node { node < nodes }
    ensures { result ≡ mate nodes (sided at_target (seen nodes table.now)) node color }
{
    for other in 0..nodes {
        if has_color(table, nodes, at_target, node, other, color) {
            return other;
        }
    }
    nodes
}

/// Gives the edge from a node to another a colour, or takes it away.
fn put(table: &mut [Option<u32>], nodes: u32, source: u32, target: u32, color: Option<u32>)
    requires size { length table.old ≡ nodes * nodes }
    requires few { nodes ≤ 64 }
    requires source { source < nodes }
    requires target { target < nodes }
    ensures { seen nodes table.new ≡ put (seen nodes table.old) source target color }
{
    let at = place(nodes, source, target);
    table[at] = color;
}

/// Gives the edge between the end and another node a colour, or takes it away.
pub(crate) fn put_color(
    table: &mut [Option<u32>],
    nodes: u32,
    at_target: bool,
    node: u32,
    other: u32,
    color: Option<u32>,
)
    requires size { length table.old ≡ nodes * nodes }
    requires few { nodes ≤ 64 }
    requires node { node < nodes }
    requires other { other < nodes }
    ensures { sided at_target (seen nodes table.new) ≡ put (sided at_target (seen nodes table.old)) node other color }
{
    if at_target {
        put(table, nodes, other, node, color);
    } else {
        put(table, nodes, node, other, color);
    }
}

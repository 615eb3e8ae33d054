//! The edges get their colours one after the other.

ghost use Rattle.std.specs.Prelude.{◌≡◌, ◌≢◌, ◌≤◌, ◌*◌, All, IfOk, length, map};
ghost use Rattle.std.specs.List.{AllPairs};
ghost use Rattle.round_color.specs.Coloring.{color_edge, color_edges, degree, colored, coloring};
ghost use Rattle.round_color.specs.Proper.{IsEdge, IsColoring};
ghost use Rattle.round_color.specs.Table.{seen, ends};

use crate::free_colors::{exchange, free_at, free_at_both};
use crate::loads::degree;
use crate::table::{color_of, no_colors, put_color};
use hpf_base::OutOfMemory;
use letters::Pair;
use std::alloc::Global;

/// A colour for each edge, in the order of the edges, by the method of D. König (1916). The colours are below `degree`, and
/// two edges of one colour share neither source nor target. Each edge gets the least such colour that is free at its
/// source and at its target; where none is, two colours are exchanged along a path from its target, which makes one free.
/// The edges are distinct, and go between 64 nodes at most. It fails only for want of memory.
pub fn color(alloc: Global, nodes: u32, edges: &[Pair]) -> Result<Vec<u32>, OutOfMemory>
    requires few { nodes ≤ 64 }
    requires between { All (λ edge. IsEdge nodes (ends edge)) edges.now }
    requires distinct { AllPairs (λ one other. one ≢ other) edges.now }
    ensures value { IfOk result (λ colors. colors.items ≡ coloring nodes (map ends edges.now)) }
    ensures proper { IfOk result (λ colors. IsColoring (map ends edges.now) (degree nodes (map ends edges.now)) colors.items) }
{
    let table = colored(alloc, nodes, edges)?;
    let mut colors = Vec::new(alloc);
    for edge in edges {
        colors.push(color_of(table.as_slice(), nodes, edge))?;
    }
    Ok(colors)
}

/// The table in which all edges have their colours.
fn colored(alloc: Global, nodes: u32, edges: &[Pair]) -> Result<Vec<Option<u32>>, OutOfMemory>
    requires few { nodes ≤ 64 }
    requires between { All (λ edge. IsEdge nodes (ends edge)) edges.now }
    requires distinct { AllPairs (λ one other. one ≢ other) edges.now }
    ensures value { IfOk result (λ table. seen nodes table.items ≡ colored nodes (map ends edges.now)) }
    ensures size { IfOk result (λ table. length table.items ≡ nodes * nodes) }
{
    let limit = degree(nodes, edges);
    let mut table = no_colors(alloc, nodes)?;
    color_edges(table.as_mut_slice(), nodes, limit, edges);
    Ok(table)
}

/// Gives the edges their colours, in order.
fn color_edges(table: &mut [Option<u32>], nodes: u32, limit: u32, edges: &[Pair])
    requires size { length table.old ≡ nodes * nodes }
    requires few { nodes ≤ 64 }
    requires between { All (λ edge. IsEdge nodes (ends edge)) edges.now }
    ensures { seen nodes table.new ≡ color_edges nodes (length edges.now) limit (seen nodes table.old) (map ends edges.now) }
{
    for edge in edges {
        color_edge(table, nodes, edges.len(), limit, edge);
    }
}

/// Gives one edge more its colour.
fn color_edge(table: &mut [Option<u32>], nodes: u32, steps: usize, limit: u32, edge: &Pair)
    requires size { length table.old ≡ nodes * nodes }
    requires few { nodes ≤ 64 }
    requires between { IsEdge nodes (ends edge.now) }
    ensures { seen nodes table.new ≡ color_edge nodes steps limit (seen nodes table.old) (ends edge.now) }
{
    let source = edge.from.0;
    let target = edge.to.0;
    let shared = free_at_both(table, nodes, limit, source, target);
    if shared < limit {
        put_color(table, nodes, false, source, target, Some(shared));
    } else {
        let one = free_at(table, nodes, limit, false, source);
        let other = free_at(table, nodes, limit, true, target);
        exchange(table, nodes, steps, true, target, one, other);
        put_color(table, nodes, false, source, target, Some(one));
    }
}

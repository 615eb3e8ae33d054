//! The nodes of a case before the first instruction.

ghost use Rattle.std.specs.Prelude.{◌≤◌};
ghost use Rattle.hpf_base.specs.declared.limits.TheConstants.{MAX_NODES};
ghost use Rattle.array_maps.specs.Maps.{AreMaps};

use crate::fitting::fits;
use crate::layouts::{Moves, moves_of, owners_of};
use array_maps::Maps;
use case_arrays::{Arrays, arrays_of, grid_of};
use case_code::{line_of, read_code};
use case_texts::text_of;
use expression_rules::Dims;
use node_machine::Node;
use node_program::NodeProgram;
use owner_tables::Owners;
use std::alloc::Global;
use std::sync::Arc;

/// The nodes of a grid that run a case.
pub fn nodes_on(alloc: Global, case: &[String], grid: &str) -> Option<Vec<Node>> {
    let grid = grid_of(alloc, grid)?;
    let nodes = grid.node_count();
    if nodes == 0 {
        return None;
    }
    let text = text_of(alloc, line_of(case, "text")).ok()?;
    let arrays = arrays_of(alloc, &text, &grid)?;
    nodes_over(alloc, case, arrays, nodes)
}

/// The nodes, so many, over which the arrays lie as their mappings say.
fn nodes_over(alloc: Global, case: &[String], arrays: Arrays, nodes: u32) -> Option<Vec<Node>>
    requires some { 1 ≤ nodes }
    requires few { nodes ≤ MAX_NODES }
    requires valid { AreMaps nodes arrays.maps }
{
    let Arrays {
        shapes,
        starts,
        maps,
    } = arrays;
    let code = node_program(alloc, case, shapes, &maps, nodes)?;
    let copies = line_of(case, "copies").parse::<usize>().unwrap_or(0);
    let owners = owners_of(alloc, maps.arrays.as_slice(), copies, nodes).ok()?;
    let starts = with_copies(starts, copies)?;
    openings(alloc, case, &code, &owners, &starts)
}

/// These values, and 0 for each of so many copies.
fn with_copies(starts: Vec<i64>, copies: usize) -> Option<Vec<i64>> {
    let mut starts = starts;
    for _ in 0..copies {
        starts.push(0).ok()?;
    }
    Some(starts)
}

/// What the nodes run: the case's code, over the arrays and redistributions of its text.
fn node_program(
    alloc: Global,
    case: &[String],
    shapes: Vec<Dims>,
    maps: &Maps,
    nodes: u32,
) -> Option<Arc<NodeProgram>>
    requires some { 1 ≤ nodes }
    requires few { nodes ≤ MAX_NODES }
    requires valid { AreMaps nodes maps.now }
{
    let Moves { moves, tables } = moves_of(alloc, maps, nodes).ok()?;
    let mut moves = moves;
    let code = read_code(alloc, case, &mut moves)?;
    let program = NodeProgram {
        nodes,
        shapes,
        tables,
        code,
    };
    Arc::new(alloc, program).ok()
}

/// The nodes of these tables, with these values of the rows at the start and the case's slots.
fn openings(
    alloc: Global,
    case: &[String],
    program: &Arc<NodeProgram>,
    owners: &Owners,
    starts: &[i64],
) -> Option<Vec<Node>> {
    if program.nodes != owners.nodes() || starts.len() != owners.rows() {
        return None;
    }
    if !fits(program, owners) {
        return None;
    }
    let slots = numbers_of(alloc, line_of(case, "slots"))?;
    let mut nodes = Vec::new(alloc);
    for id in 0..owners.nodes() {
        let node = Node::opening(alloc, program, id, owners, &slots, starts).ok()?;
        nodes.push(node).ok()?;
    }
    Some(nodes)
}

/// The numbers in a line.
fn numbers_of(alloc: Global, line: &str) -> Option<Vec<i64>> {
    let mut numbers = Vec::new(alloc);
    if !line.is_empty() {
        for word in line.split(' ') {
            numbers.push(word.parse::<i64>().ok()?).ok()?;
        }
    }
    Some(numbers)
}

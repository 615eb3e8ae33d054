//! The text of a program's start mappings.

ghost use Rattle.std.specs.Prelude.{◌≡◌, ◌++◌, All, codes, IfOk, OnOk, Some};
ghost use Rattle.hpf_base.specs.ElementOrder.{product};
ghost use Rattle.array_maps.specs.Maps.{IsArrayMap};
ghost use Rattle.run_report.specs.MapText.{array_lines, map_text, node_line, span_text};

use crate::tuple_text::add_tuple;
use array_maps::{ArrayMap, Maps};
use hpf_base::{Grid, Name, OutOfMemory};
use itoa::Buffer;
use local_address::{Span, owned_spans};
use std::alloc::{AllocError, Global};

/// The text of the mappings with which a program's arrays start: for each array, in the order of the declarations, and for each node of the
/// grid a line with the array's name, the node's number, how many elements of the array the node owns and, where it owns any, the first and
/// the last of them in array-element order, as `A 0 3 (1) (3)`. Each array starts with a mapping onto as many nodes.
pub fn map_text(alloc: Global, maps: &Maps, grid: &Grid) -> Result<Vec<u8>, OutOfMemory>
    requires { All (IsArrayMap (product grid.now)) maps.now.arrays }
    ensures { IfOk result (λ text. text.items ≡ map_text (product grid.now) maps.now.arrays) }
{
    let nodes = grid.node_count();
    let mut text = Vec::new(alloc);
    for array in maps.arrays.as_slice() {
        add_array(alloc, &mut text, array, nodes)?;
    }
    Ok(text)
}

/// Adds an array's lines.
fn add_array(
    alloc: Global,
    text: &mut Vec<u8>,
    array: &ArrayMap,
    nodes: u32,
) -> Result<(), OutOfMemory>
    requires { IsArrayMap nodes array.now }
    ensures { OnOk result (text.new.items ≡ text.old.items ++ array_lines nodes array.now) }
{
    let spans = owned_spans(alloc, &array.start, &array.shape)?;
    for node in 0..nodes {
        add_line(text, &array.name, node, &spans[node as usize])?;
    }
    Ok(())
}

/// Adds the line of an array and a node.
fn add_line(
    text: &mut Vec<u8>,
    name: &Name,
    node: u32,
    span: &Option<Span>,
) -> Result<(), AllocError>
    ensures { OnOk result (text.new.items ≡ text.old.items ++ node_line name.now node span.now) }
{
    let mut number = Buffer::new();
    text.extend_from_slice(name.bytes())?;
    text.push(b' ')?;
    text.extend_from_slice(number.format(node).as_bytes())?;
    match span {
        None => text.extend_from_slice(b" 0\n"),
        Some(span) => add_span(text, span),
    }
}

/// Adds what a node owns.
fn add_span(text: &mut Vec<u8>, span: &Span) -> Result<(), AllocError>
    ensures { OnOk result (text.new.items ≡ text.old.items ++ span_text (Some span.now)) }
{
    let mut number = Buffer::new();
    text.push(b' ')?;
    text.extend_from_slice(number.format(span.count).as_bytes())?;
    text.push(b' ')?;
    add_tuple(text, span.first.numbers())?;
    text.push(b' ')?;
    add_tuple(text, span.last.numbers())?;
    text.push(b'\n')?;
    Ok(())
}

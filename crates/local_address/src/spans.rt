//! What the nodes own of a mapped array: how many elements, the first and the last.

ghost use Rattle.std.specs.Prelude.{◌≡◌, ◌<◌, ◌≤◌, ◌^◌, ℤ, All, List, length, map, IfOk};
ghost use Rattle.hpf_base.specs.declared.limits.TheConstants.{MAX_RANK};
ghost use Rattle.hpf_base.specs.ElementOrder.{elements, extents_of, product};
ghost use Rattle.mappings.specs.LocalOrder.{local_elements};
ghost use Rattle.hpf_base.specs.Shape.{IsShape};
ghost use Rattle.mappings.specs.Mapping.{IsMapping, MapsInside};
ghost use Rattle.local_address.specs.Runs.{columns_of, run_of, tuples};
ghost use Rattle.local_address.specs.Spans.{owned_spans, span_of};

use crate::axes::fixed_agree;
use crate::columns::{Column, columns, runs_of_node};
use crate::element::element_count;
use crate::runs::{Run, firsts, has_empty, lasts, tuple_count};
use hpf_base::{Index, NodeId, OutOfMemory, Shape};
use mappings::Mapping;
use std::alloc::Global;

/// How many elements of an array a node owns, at least one, and the first and the last of them in array-element order
/// (Fortran 95, 6.2.2.2).
#[derive(Drop)]
pub struct Span {
    pub count: u32,
    pub first: Index,
    pub last: Index,
}

/// What each node of the grid owns of an array of this shape by this mapping, node 0 first; None where it owns no element. Every element
/// of the shape lies inside the template. It goes once along each dimension, and not over the elements.
pub fn owned_spans(
    alloc: Global,
    map: &Mapping,
    shape: &Shape,
) -> Result<Vec<Option<Span>>, OutOfMemory>
    requires mapping { IsMapping (length shape.now.lower) map.now }
    requires shape { IsShape shape.now }
    requires inside { All (MapsInside map.now) (elements shape.now) }
    ensures { IfOk result (λ spans. spans.items ≡ owned_spans map.now shape.now) }
{
    let columns = columns(alloc, map, shape)?;
    let mut spans = Vec::new(alloc);
    for node in 0..map.grid.node_count() {
        spans.push(node_span(alloc, map, shape, &columns, node)?)?;
    }
    Ok(spans)
}

/// What a node owns.
fn node_span(
    alloc: Global,
    map: &Mapping,
    shape: &Shape,
    columns: &[Column],
    node: u32,
) -> Result<Option<Span>, OutOfMemory>
    requires mapping { IsMapping (length shape.now.lower) map.now }
    requires shape { IsShape shape.now }
    requires inside { All (MapsInside map.now) (elements shape.now) }
    requires node { node < product map.now.grid }
    requires short { length columns.now ≤ MAX_RANK }
    requires columns { 1 ≤ product (extents_of shape.now) → columns.now ≡ columns_of map.now 0 shape.now.lower (extents_of shape.now) }
    ensures { IfOk result (λ span. span ≡ span_of (local_elements map.now shape.now node)) }
{
    if element_count(shape) == 0 || !fixed_agree(map, NodeId(node)) {
        return Ok(None);
    }
    let runs = runs_of_node(alloc, columns, node)?;
    let span = span_of_runs(alloc, &runs)?;
    Ok(span)
}

/// The tuples of what is owned along each dimension, whichever subscripts these are.
fn span_of_runs(alloc: Global, runs: &[Run]) -> Result<Option<Span>, OutOfMemory>
    requires short { length runs.now ≤ MAX_RANK }
    requires few { product (map (λ run. run.count) runs.now) ≤ 2 ^ 20 }
    ensures { IfOk result (λ span. (xss : List (List ℤ)) → runs.now ≡ map run_of xss → span ≡ span_of (tuples xss)) }
{
    if has_empty(runs) {
        return Ok(None);
    }
    let first = firsts(alloc, runs)?;
    let last = lasts(alloc, runs)?;
    match (Index::new(alloc, &first), Index::new(alloc, &last)) {
        (Some(first), Some(last)) => Ok(Some(Span {
            count: tuple_count(runs),
            first,
            last,
        })),
        _ => unreachable!(),
    }
}

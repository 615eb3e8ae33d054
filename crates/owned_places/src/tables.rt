//! The places of an interval at which a node has the coordinate of what a dimension is given, by gap tables.

ghost use Rattle.std.specs.Prelude.{◌≡◌, ◌≢◌, ℕ, ◌<◌, ◌≤◌, pos, ◌+ℤ◌, ◌*ℤ◌, FitsSigned, All, IfOk, IfSome, Some, filter, slice_index, true};
ghost use Rattle.std.specs.Int.{w64};
ghost use Rattle.std.specs.List.{range_with_len};
ghost use Rattle.mappings.specs.Alignment.{agrees_at, position_at};
ghost use Rattle.mappings.specs.Mapping.{InLine, IsLine, IsMapDim};
ghost use Rattle.hpf_base.specs.ElementOrder.{product};
ghost use Rattle.hpf_base.specs.Grid.{node_coordinates};
ghost use Rattle.gap_table.specs.GapTable.{places_of};
ghost use Rattle.courses.specs.AxisTables.{subscript_on};
ghost use Rattle.courses.specs.Subscripts.{agrees_along, along_dims};
ghost use Rattle.owned_places.specs.Candidates.{IsFiltered, IsTableOf};
ghost use Rattle.owned_places.specs.Dims.{asks_dim, entries_asking, given_along};

use crate::dims::narrow;
use align_map::{linear, node_coordinate};
use gap_table::GapTable;
use hpf_base::{Grid, NodeId, OutOfMemory};
use mappings::{AlignDim, Form, Line, MapDim, Mapping};
use std::alloc::Global;

/// A table of the first places at which the node has the coordinate of a dimension's subscript, which is `i + step * j` at the place j, in the first entry
/// that moves along the dimension; None where no entry does, or a table doesn't pay.
pub(crate) fn table_on(
    alloc: Global,
    mapping: &Mapping,
    node: u32,
    k: usize,
    i: i64,
    step: i64,
    count: u64,
) -> Result<Option<GapTable>, OutOfMemory>
    requires entries { (rank : ℕ) × All (IsMapDim mapping.now.grid rank) mapping.now.dims }
    requires node { node < product mapping.now.grid }
    requires moves { step ≢ pos 0 }
    requires two { 2 ≤ count }
    requires inside { (j : ℕ) → j < count → All (λ e. InLine e.line (given_along k (subscript_on i step j) e.align)) mapping.now.dims }
    ensures places { IfOk result (λ o. IfSome o (IsTableOf (λ j. along_dims (node_coordinates mapping.now.grid node) mapping.now.dims k (subscript_on i step j)) count)) }
    ensures exact { IfOk result (λ o. IfSome o (λ t. entries_asking k mapping.now.dims ≡ 1
        → IsFiltered (λ j. along_dims (node_coordinates mapping.now.grid node) mapping.now.dims k (subscript_on i step j)) count t)) }
{
    for entry in mapping.dims.as_slice() {
        let table = table_by(alloc, &mapping.grid, entry, node, k, i, step, count)?;
        if table.is_some() {
            return Ok(table);
        }
    }
    Ok(None)
}

/// The same of one entry.
fn table_by(
    alloc: Global,
    grid: &Grid,
    entry: &MapDim,
    node: u32,
    k: usize,
    i: i64,
    step: i64,
    count: u64,
) -> Result<Option<GapTable>, OutOfMemory>
    requires entry { (rank : ℕ) × IsMapDim grid.now rank entry.now }
    requires node { node < product grid.now }
    requires moves { step ≢ pos 0 }
    requires two { 2 ≤ count }
    requires inside { (j : ℕ) → j < count → InLine entry.now.line (given_along k (subscript_on i step j) entry.now.align) }
    ensures asks { IfOk result (λ o. IfSome o (λ t. asks_dim k entry.now.align ≡ true)) }
    ensures places { IfOk result (λ o. IfSome o (IsFiltered
        (λ j. agrees_along entry.now.line (slice_index (node_coordinates grid.now node) entry.now.grid_dim) entry.now.align k (subscript_on i step j)) count)) }
{
    match entry.align {
        AlignDim::Linear { dim, a, b }
            if dim as usize == k && a != 0 && is_short(&entry.line.form, count) => {
            let table = owned_table(alloc, grid, entry, node, a, b, i, step, count)?;
            Ok(Some(table))
        }
        _ => Ok(None),
    }
}

/// Whether a table is made in fewer steps than there are places.
fn is_short(form: &Form, count: u64) -> bool {
    match form {
        Form::Whole | Form::Block(_) | Form::Gen(_) => true,
        Form::Cyclic(k) => *k < count,
    }
}

/// The table of the first places at which the node has the coordinate of `a * (i + step * j) + b` in the entry's line.
fn owned_table(
    alloc: Global,
    grid: &Grid,
    entry: &MapDim,
    node: u32,
    a: i64,
    b: i64,
    i: i64,
    step: i64,
    count: u64,
) -> Result<GapTable, OutOfMemory>
    requires entry { (rank : ℕ) × IsMapDim grid.now rank entry.now }
    requires node { node < product grid.now }
    requires factor { a ≢ pos 0 }
    requires moves { step ≢ pos 0 }
    requires two { 2 ≤ count }
    requires inside { (j : ℕ) → j < count → InLine entry.now.line (Some ((a *ℤ subscript_on i step j) +ℤ b)) }
    ensures { IfOk result (λ t. places_of t ≡ filter
        (λ j. agrees_at entry.now.line (slice_index (node_coordinates grid.now node) entry.now.grid_dim) (Some ((a *ℤ subscript_on i step j) +ℤ b)))
        (range_with_len 0 count)) }
{
    let own = node_coordinate(grid, NodeId(node), entry.grid_dim);
    let start = position(&entry.line, linear(a, i, b));
    let stride = stride_of(a, step);
    let table = GapTable::of_section(alloc, &entry.line, own, start, stride, count)?;
    Ok(table)
}

/// The product of two numbers, where it fits 64 bits.
fn stride_of(a: i64, step: i64) -> i64
    requires { FitsSigned w64 (a *ℤ step) }
    ensures { result ≡ a *ℤ step }
{
    narrow(linear(a, step, 0))
}

/// The position, from 1, at which a subscript stands in a line.
fn position(line: &Line, subscript: i128) -> u64
    requires line { IsLine line.now }
    requires inside { InLine line.now (Some subscript) }
    ensures { pos result ≡ position_at line.now subscript }
{
    (subscript - line.lower as i128 + 1) as u64
}

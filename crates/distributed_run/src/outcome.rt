//! What the last nodes have come to.

ghost use Rattle.std.specs.Prelude.{◌≡◌, ◌<◌, ◌≤◌, IfOk, IsSome, Some, length, map, pos, slice_get, slice_index_or};
ghost use Rattle.std.specs.List.{range_with_len};
ghost use Rattle.syntax_tree.specs.MainProgram.{main_program};
ghost use Rattle.array_meaning.specs.Serial.{serial};
ghost use Rattle.serial_run.specs.Outcomes.{end_seen};
ghost use Rattle.term_values.specs.Faults.{fault};
ghost use Rattle.machine_steps.specs.Instr.{Finished};
ghost use Rattle.machine_steps.specs.Layout.{AreOwned, sizes};
ghost use Rattle.storage.specs.Spots.{spot_of};
ghost use Rattle.slot_values.specs.Controls.{status_of};
ghost use Rattle.compiled_program.specs.GridRuns.{AreLastOnGrid};
ghost use Rattle.compiled_program.specs.ProgramRuns.{end_by_status};
ghost use Rattle.distributed_run.specs.Outcomes.{IsOutcome};
ghost use Rattle.distributed_run.specs.Values.{row_values, value_of};

use crate::ran::Ran;
use crate::run::NodesOutcome;
use accepted_program::AcceptedProgram;
use hpf_base::OutOfMemory;
use node_crew::Node;
use owner_tables::{Owners, Spot};
use serial_run::End;
use slot_values::{Fault, Status, fault_numbers, fault_of_numbers};
use std::alloc::Global;

/// What the program has come to whose last nodes these are, with the nodes and what their run leaves.
pub(crate) fn outcome_of(
    alloc: Global,
    accepted: &AcceptedProgram<'_>,
    last: Vec<Node>,
    ran: Ran,
) -> Result<NodesOutcome, OutOfMemory>
    requires { AreLastOnGrid accepted.now.grid.now (main_program accepted.now.program.tree) last.items }
    ensures outcome { IfOk result (λ o. IsOutcome o (serial (main_program accepted.now.program.tree))) }
    ensures nodes { IfOk result (λ o. o.nodes.items ≡ last.items) }
    ensures ran { IfOk result (λ o. o.ran ≡ ran) }
{
    let root = first(&last);
    let printed = Vec::from_slice(alloc, root.printed())?;
    let end = end_of(alloc, root.status())?;
    let arrays = last_arrays(alloc, root, &last, accepted.program.names.len())?;
    Ok(NodesOutcome {
        printed,
        end,
        arrays,
        nodes: last,
        ran,
    })
}

/// Node 0.
fn first(nodes: &[Node]) -> &Node
    requires { 1 ≤ length nodes.now }
    ensures { slice_get nodes.now 0 ≡ Some result.now }
{
    &nodes[0]
}

/// How a run has ended that is over.
pub(crate) fn end_of(alloc: Global, status: &Status) -> Result<End, OutOfMemory>
    requires { IsSome (end_by_status (status_of status.now)) }
    ensures { IfOk result (λ end. end_by_status (status_of status.now) ≡ Some (end_seen end)) }
{
    match status {
        Status::Running => unreachable!(),
        Status::Finished => Ok(End::Finished),
        Status::Faulted(fault) => Ok(End::Faulted(same_fault(alloc, fault)?)),
    }
}

/// The fault once more, by its numbers.
fn same_fault(alloc: Global, f: &Fault) -> Result<Fault, OutOfMemory>
    ensures { IfOk result (λ same. fault same ≡ fault f.now) }
{
    let numbers = fault_numbers(alloc, f)?;
    let same = fault_of_numbers(alloc, &numbers)?;
    Ok(same)
}

/// So many arrays, where the run is finished.
fn last_arrays(
    alloc: Global,
    first: &Node,
    last: &[Node],
    count: usize,
) -> Result<Vec<Vec<i64>>, OutOfMemory>
    requires nodes { first.now.nodes ≡ length last.now }
    requires owned { AreOwned first.now.nodes first.now.layouts }
    ensures { IfOk result (λ arrays. first.now.control.status ≡ Finished
        → map (λ a. a.items) arrays.items ≡ map (row_values first.now.layouts last.now) (range_with_len 0 count)) }
{
    match first.status() {
        Status::Finished => rows(alloc, last, first.owners(), count),
        _ => Ok(Vec::new(alloc)),
    }
}

/// The first rows.
fn rows(
    alloc: Global,
    last: &[Node],
    owners: &Owners,
    count: usize,
) -> Result<Vec<Vec<i64>>, OutOfMemory>
    requires nodes { owners.now.nodes ≡ length last.now }
    requires owned { AreOwned owners.now.nodes owners.now.layouts }
    ensures { IfOk result (λ rows. map (λ a. a.items) rows.items ≡ map (row_values owners.now.layouts last.now) (range_with_len 0 count)) }
{
    let mut rows = Vec::new(alloc);
    for row in 0..count {
        rows.push(row_values(alloc, last, owners, row)?)?;
    }
    Ok(rows)
}

/// The values of a row, in array-element order.
fn row_values(
    alloc: Global,
    last: &[Node],
    owners: &Owners,
    row: usize,
) -> Result<Vec<i64>, OutOfMemory>
    requires nodes { owners.now.nodes ≡ length last.now }
    requires owned { AreOwned owners.now.nodes owners.now.layouts }
    ensures { IfOk result (λ values. values.items ≡ row_values owners.now.layouts last.now row) }
{
    let mut values = Vec::new(alloc);
    for at in 0..owners.size(row) {
        values.push(value_of(last, owners, Spot { row, at }))?;
    }
    Ok(values)
}

/// The value of an element: its least owner has it, at its address.
fn value_of(last: &[Node], owners: &Owners, spot: Spot) -> i64
    requires nodes { owners.now.nodes ≡ length last.now }
    requires owned { AreOwned owners.now.nodes owners.now.layouts }
    requires at { spot.at < slice_index_or (sizes owners.now.layouts) spot.row 0 }
    ensures { result ≡ value_of owners.now.layouts last.now (spot_of spot) }
{
    let node = owners.least_owner(spot);
    let at = owners.address(node, spot);
    value_at(last[node as usize].piece(spot.row), at)
}

/// The value at a place; 0 where there is none.
fn value_at(piece: &[i64], at: usize) -> i64
    ensures { result ≡ slice_index_or piece.now at (pos 0) }
{
    if at < piece.len() { piece[at] } else { 0 }
}

//! The run.

ghost use Rattle.std.specs.Prelude.{◌≡◌, ◌<◌, ◌^◌, IfOk, length, slice_get};
ghost use Rattle.syntax_tree.specs.MainProgram.{main_program};
ghost use Rattle.array_meaning.specs.Serial.{serial};
ghost use Rattle.node_law.specs.Cores.{start};
ghost use Rattle.node_law.specs.Phases.{Lockstep};
ghost use Rattle.node_law.specs.Reached.{EndsInLockstep};
ghost use Rattle.compiled_program.specs.GridRuns.{AreLastOnGrid, grid_nodes};
ghost use Rattle.compiled_program.specs.ProgramRuns.{program_steps};
ghost use Rattle.distributed_run.specs.Outcomes.{IsOutcome};
ghost use Rattle.distributed_run.specs.Ran.{IsRunOf};

use crate::openings::{FirstNodes, first_nodes};
use crate::outcome::outcome_of;
use crate::ran::Ran;
use accepted_program::AcceptedProgram;
use compiled_program::{accepted_moves_are_dealt, programs_run_on_nodes};
use hpf_base::OutOfMemory;
use hpf_ports::Gate;
use node_crew::{Crewed, Node, run_nodes};
use serial_run::End;
use std::alloc::Global;
use std::sync::Wait;
use std::thread::Threads;

/// What a program comes to on nodes.
#[derive(Drop)]
pub struct NodesOutcome {
    /// All bytes that it printed, in order.
    pub printed: Vec<u8>,
    pub end: End,
    /// Where it is finished, the arrays, each at the place of its name among the declared names, in array-element order (Fortran 95,
    /// 6.2.2.2). What is no array has no elements there.
    pub arrays: Vec<Vec<i64>>,
    /// The nodes after their last steps, node 0 first, with their pieces and the numbers of their letters.
    pub nodes: Vec<Node>,
    /// The code that they ran, and the queues of their letters.
    pub ran: Ran,
}

/// Runs a program on the nodes of the grid that it is accepted on, where its arrays lie as they are mapped at the start (HPF 2.0, 3) and move
/// with each REDISTRIBUTE that it reaches (HPF 2.0, 8.3), and gives what it means in one order, with the nodes on which their run ends, their
/// code, and the closed queues of their letters. Crews of threads step the nodes, as many as asked for, or as there are nodes, where these are
/// fewer; no thread changes what is given. It may wait. An `Err` is want of memory.
pub fn run_on_nodes<R: Threads + Wait + Sync, G: Gate>(
    rt: &R,
    alloc: Global,
    accepted: &AcceptedProgram<'_>,
    threads: u32,
    gate: &G,
) -> Result<NodesOutcome, OutOfMemory>
    ensures outcome { IfOk result (λ o. IsOutcome o (serial (main_program accepted.now.program.tree))) }
    ensures ends { IfOk result (λ o. EndsInLockstep program_steps (start (grid_nodes accepted.now.grid.now (main_program accepted.now.program.tree))) o.nodes.items) }
    ensures nodes { IfOk result (λ o. AreLastOnGrid accepted.now.grid.now (main_program accepted.now.program.tree) o.nodes.items) }
    ensures ran { IfOk result (λ o. IsRunOf accepted.now.grid.now (main_program accepted.now.program.tree) o.ran) }
{
    programs_run_on_nodes();
    accepted_moves_are_dealt();
    let FirstNodes { code, nodes } = first_nodes(alloc, accepted)?;
    let Crewed { nodes, closed } = run_nodes(rt, alloc, nodes, threads, gate)?;
    let outcome = outcome_of(alloc, accepted, nodes, Ran { code, closed })?;
    Ok(outcome)
}

//! The nodes of a program after their run in rotation.

ghost use Rattle.std.specs.Prelude.{◌≡◌, ◌++◌, IfOk};

use crate::scarce::Scarce;
use accepted_program::AcceptedProgram;
use distributed_run::{FirstNodes, first_nodes};
use hpf_base::OutOfMemory;
use node_core::Core;
use node_machine::Node;
use nodes_lowered::{accepted_moves_are_dealt, programs_run_on_nodes};
use std::alloc::Global;

/// How often the run of nodes that are refused memory is called at most.
const CALLS: u64 = 1 << 40;

/// Nodes after a run that was called again whenever it wanted memory, and how often it wanted some.
#[derive(Drop)]
pub struct Rerun {
    pub nodes: Vec<Scarce<Node>>,
    pub times: u64,
}

/// The nodes after a run in which none was refused memory.
pub fn undisturbed(
    alloc: Global,
    accepted: &AcceptedProgram<'_>,
) -> Result<Vec<Node>, OutOfMemory> {
    programs_run_on_nodes();
    accepted_moves_are_dealt();
    let FirstNodes { code: _code, nodes } = first_nodes(alloc, accepted)?;
    let mut core = Core::new(alloc, nodes)?;
    core.run_rotation()?;
    Ok(core.into_nodes())
}

/// The nodes after a run in which each was refused memory at each local step once, and the run was called again each time.
pub fn refused(alloc: Global, accepted: &AcceptedProgram<'_>) -> Result<Rerun, OutOfMemory> {
    programs_run_on_nodes();
    accepted_moves_are_dealt();
    let FirstNodes { code: _code, nodes } = first_nodes(alloc, accepted)?;
    let scarce = scarce_nodes(alloc, nodes)?;
    let mut core = Core::new(alloc, scarce)?;
    let mut times = 0;
    for call in 0..CALLS {
        times = call;
        if core.run_rotation().is_ok() {
            break;
        }
    }
    Ok(Rerun {
        nodes: core.into_nodes(),
        times,
    })
}

/// The same nodes, of which none was refused memory yet.
fn scarce_nodes(alloc: Global, nodes: Vec<Node>) -> Result<Vec<Scarce<Node>>, OutOfMemory>
    ensures { IfOk result (λ scarce. scarce.items ≡ nodes.items) }
{
    let mut scarce = Vec::new(alloc);
    for node in nodes {
        scarce.push(Scarce {
            node,
            refused: false,
        })?;
    }
    Ok(scarce)
}

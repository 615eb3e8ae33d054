//! The nodes at the start.

ghost use Rattle.std.specs.Prelude.{◌≡◌, IfOk, length};
ghost use Rattle.std.specs.Arc.{arc_value};
ghost use Rattle.hpf_base.specs.Grid.{IsGrid};
ghost use Rattle.syntax_tree.specs.MainProgram.{main_program};
ghost use Rattle.machine_steps.specs.Agrees.{openings};
ghost use Rattle.fitting_states.specs.FittingStates.{ProgramFits};
ghost use Rattle.node_program.specs.Fits.{FitsRows};
ghost use Rattle.node_program.specs.Openings.{opening_machine};
ghost use Rattle.node_program.specs.Programs.{code_of};
ghost use Rattle.compiled_program.specs.GridRuns.{grid_nodes, grid_opening};

use accepted_program::AcceptedProgram;
use compiled_program::compile_program;
use hpf_base::OutOfMemory;
use node_crew::Node;
use node_program::NodeProgram;
use owner_tables::Owners;
use std::alloc::Global;
use std::sync::Arc;

/// The nodes of a run before its first instruction, and the code that they share.
#[derive(Drop)]
pub struct FirstNodes {
    pub code: Arc<NodeProgram>,
    /// Node 0 first.
    pub nodes: Vec<Node>,
}

/// The nodes of the grid on which the program is accepted, before its first instruction, with the code that it is compiled to. It takes memory.
pub fn first_nodes(alloc: Global, accepted: &AcceptedProgram<'_>) -> Result<FirstNodes, OutOfMemory>
    ensures grid { IsGrid accepted.now.grid.now }
    ensures numbers { IfOk result (λ first. ProgramFits (main_program accepted.now.program.tree)) }
    ensures nodes { IfOk result (λ first. first.nodes.items ≡ grid_nodes accepted.now.grid.now (main_program accepted.now.program.tree)) }
    ensures code { IfOk result (λ first. code_of (arc_value first.code) ≡ (grid_opening accepted.now.grid.now (main_program accepted.now.program.tree)).code) }
{
    let compiled = compile_program(alloc, accepted)?;
    let nodes = openings(
        alloc,
        &compiled.text,
        &compiled.owners,
        &compiled.slots,
        &compiled.values,
    )?;
    Ok(FirstNodes {
        code: compiled.text,
        nodes,
    })
}

/// The nodes before the first instruction, which share the program and the tables.
fn openings(
    alloc: Global,
    program: &Arc<NodeProgram>,
    owners: &Owners,
    slots: &[i64],
    values: &[i64],
) -> Result<Vec<Node>, OutOfMemory>
    requires nodes { (arc_value program.now).nodes ≡ owners.now.nodes }
    requires values { length values.now ≡ length owners.now.layouts }
    requires fits { FitsRows (arc_value program.now) owners.now.layouts }
    ensures { IfOk result (λ first. first.items ≡ openings owners.now.nodes
        (opening_machine (code_of (arc_value program.now)) slots.now owners.now.layouts values.now)) }
{
    let mut first = Vec::new(alloc);
    for id in 0..owners.nodes() {
        first.push(Node::opening(alloc, program, id, owners, slots, values)?)?;
    }
    Ok(first)
}

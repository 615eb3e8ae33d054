//! Programs compiled for nodes.

ghost use Rattle.std.specs.Prelude.{◌≡◌, ◌≤◌, IfOk, length};
ghost use Rattle.std.specs.Arc.{arc_value};
ghost use Rattle.hpf_base.specs.ElementOrder.{product};
ghost use Rattle.hpf_base.specs.Grid.{IsGrid};
ghost use Rattle.hpf_base.specs.declared.limits.TheConstants.{MAX_NODES};
ghost use Rattle.syntax_tree.specs.MainProgram.{main_program};
ghost use Rattle.name_table.specs.Entries.{entries};
ghost use Rattle.array_maps.specs.Maps.{AreMaps};
ghost use Rattle.accepted_program.specs.Accepted.{KeepsRules};
ghost use Rattle.array_meaning.specs.Resolution.{resolved_block};
ghost use Rattle.fitting_states.specs.FittingStates.{BlockFits, ProgramFits};
ghost use Rattle.code_meaning.specs.ProgramText.{texts};
ghost use Rattle.node_code.specs.Texts.{instructions};
ghost use Rattle.nodes_lowered.specs.StatementCode.{block_copies, block_slots, program_code};
ghost use Rattle.node_codegen.specs.Moves.{moves_by};
ghost use Rattle.node_program.specs.Fits.{FitsRows};
ghost use Rattle.node_program.specs.Programs.{code_of, mappings_of};
ghost use Rattle.nodes_lowered.specs.GridRuns.{grid_opening};
ghost use Rattle.nodes_lowered.specs.NewMappings.{array_places, new_mappings, numbered_at};
ghost use Rattle.nodes_lowered.specs.OnNodes.{LieAsDeclared, program_copies};
ghost use Rattle.nodes_lowered.specs.ProgramLayouts.{program_layouts};
ghost use Rattle.nodes_lowered.specs.ProgramRuns.{text_opening};
ghost use Rattle.compiled_program.specs.Openings.{opening_of};

use crate::moves::program_moves;
use crate::rows::program_owners;
use crate::starts::{first_slots, first_values, shapes};
use accepted_program::AcceptedProgram;
use array_maps::Maps;
use expression_rules::Dims;
use fitting_numbers::{initial_values_fit, numbers_fit};
use hpf_base::OutOfMemory;
use name_table::Program;
use node_code::Instruction;
use node_codegen::{Code, LineMoves, compile};
use node_program::NodeProgram;
use nodes_lowered::accepted_programs_have_valid_code;
use owner_tables::{OwnerTable, Owners};
use program_plan::plan;
use std::alloc::Global;
use std::sync::Arc;

/// A program compiled for the nodes of a grid, and what its run begins with there.
#[derive(Drop)]
pub struct CompiledProgram {
    /// The node code, with the dimensions of the declared names and the tables of the mappings that arrays get while it runs.
    pub text: Arc<NodeProgram>,
    /// Who owns which elements of the declared names, by their places, and of the copies after them, which have none yet.
    pub owners: Owners,
    /// The slots: the initial values of the scalars, by the places of their names, and the hidden numbers, all 0.
    pub slots: Vec<i64>,
    /// Of each row the value that all its elements have.
    pub values: Vec<i64>,
}

/// Compiles a program for the nodes of the grid that it is accepted on, where its arrays lie as they are mapped at the start (HPF 2.0, 3) and
/// move with each REDISTRIBUTE (HPF 2.0, 8.3). The code fits the rows, and the numbers of the program are of 64 bits.
/// An `Err` is want of memory.
pub fn compile_program(
    alloc: Global,
    accepted: &AcceptedProgram<'_>,
) -> Result<CompiledProgram, OutOfMemory>
    ensures opening { IfOk result (λ c. opening_of c ≡ grid_opening accepted.now.grid.now (main_program accepted.now.program.tree)) }
    ensures grid { IsGrid accepted.now.grid.now }
    ensures count { IfOk result (λ c. c.owners.nodes ≡ product accepted.now.grid.now) }
    ensures nodes { IfOk result (λ c. (arc_value c.text).nodes ≡ c.owners.nodes) }
    ensures values { IfOk result (λ c. length c.values.items ≡ length c.owners.layouts) }
    ensures fits { IfOk result (λ c. FitsRows (arc_value c.text) c.owners.layouts) }
    ensures numbers { IfOk result (λ c. ProgramFits (main_program accepted.now.program.tree)) }
{
    let compiled = compile_on(
        alloc,
        &accepted.program,
        &accepted.maps,
        accepted.grid.node_count(),
    )?;
    Ok(compiled)
}

/// Compiles a program for so many nodes, on which its arrays lie by these mappings.
fn compile_on(
    alloc: Global,
    program: &Program,
    maps: &Maps,
    nodes: u32,
) -> Result<CompiledProgram, OutOfMemory>
    requires some { 1 ≤ nodes }
    requires few { nodes ≤ MAX_NODES }
    requires names { program.now.names ≡ entries (main_program program.now.tree) }
    requires keeps { KeepsRules (main_program program.now.tree) }
    requires many { length maps.now.arrays ≡ length (array_places 0 program.now.names) }
    requires valid { AreMaps nodes maps.now }
    requires laid { LieAsDeclared nodes (program_copies (main_program program.now.tree)) program.now.names
        (program_layouts nodes (program_copies (main_program program.now.tree)) program.now.names maps.now.arrays) }
    ensures opening { IfOk result (λ c. opening_of c ≡ text_opening nodes (main_program program.now.tree) (new_mappings maps.now.moves)
        (numbered_at (array_places 0 program.now.names) 0 maps.now.moves)
        (program_layouts nodes (program_copies (main_program program.now.tree)) program.now.names maps.now.arrays)) }
    ensures count { IfOk result (λ c. c.owners.nodes ≡ nodes) }
    ensures nodes { IfOk result (λ c. (arc_value c.text).nodes ≡ c.owners.nodes) }
    ensures values { IfOk result (λ c. length c.values.items ≡ length c.owners.layouts) }
    ensures fits { IfOk result (λ c. FitsRows (arc_value c.text) c.owners.layouts) }
    ensures numbers { IfOk result (λ c. ProgramFits (main_program program.now.tree)) }
{
    accepted_programs_have_valid_code();
    let names = &program.names;
    initial_values_fit(names);
    let made = program_moves(alloc, names, maps, nodes)?;
    let code = compiled(alloc, program, &made.moves)?;
    let owners = program_owners(alloc, names, maps.arrays.as_slice(), code.copies, nodes)?;
    let slots = first_slots(alloc, names, code.hidden)?;
    let values = first_values(alloc, names, code.copies)?;
    let dims = shapes(alloc, names)?;
    let text = program_text(alloc, nodes, dims, made.tables, code.instructions)?;
    Ok(CompiledProgram {
        text,
        owners,
        slots,
        values,
    })
}

/// The node code of the program, where lines move these arrays.
fn compiled(alloc: Global, program: &Program, moves: &[LineMoves]) -> Result<Code, OutOfMemory>
    ensures code { IfOk result (λ c. instructions c.instructions.items ≡ program_code (length program.now.names) (moves_by moves.now)
        (resolved_block program.now.names (main_program program.now.tree).body)) }
    ensures hidden { IfOk result (λ c. c.hidden ≡ block_slots (resolved_block program.now.names (main_program program.now.tree).body)) }
    ensures copies { IfOk result (λ c. c.copies ≡ block_copies (length program.now.names) (resolved_block program.now.names (main_program program.now.tree).body)) }
    ensures numbers { IfOk result (λ c. BlockFits (resolved_block program.now.names (main_program program.now.tree).body)) }
{
    let plan = plan(alloc, program)?;
    numbers_fit(&plan.body);
    compile(alloc, program.names.len(), &plan, moves)
}

/// The program that nodes share, with the tables of the new mappings by their numbers.
fn program_text(
    alloc: Global,
    nodes: u32,
    shapes: Vec<Dims>,
    tables: Vec<OwnerTable>,
    code: Vec<Instruction>,
) -> Result<Arc<NodeProgram>, OutOfMemory>
    ensures code { IfOk result (λ text. code_of (arc_value text) ≡ texts nodes (mappings_of tables.items) shapes.items (instructions code.items)) }
    ensures nodes { IfOk result (λ text. (arc_value text).nodes ≡ nodes) }
    ensures shapes { IfOk result (λ text. (arc_value text).shapes.items ≡ shapes.items) }
    ensures tables { IfOk result (λ text. (arc_value text).tables.items ≡ tables.items) }
    ensures instructions { IfOk result (λ text. instructions (arc_value text).code.items ≡ instructions code.items) }
{
    let program = NodeProgram {
        nodes,
        shapes,
        tables,
        code,
    };
    Ok(Arc::new(alloc, program)?)
}

//! Programs that keep all rules on a grid.

ghost use Rattle.std.specs.Prelude.{◌≡◌, IfErr, IfOk};
ghost use Rattle.hpf_base.specs.ElementOrder.{product};
ghost use Rattle.syntax_tree.specs.MainProgram.{main_program};
ghost use Rattle.name_table.specs.Entries.{entries};
ghost use Rattle.array_maps.specs.Maps.{AreMaps};
ghost use Rattle.directive_check.specs.ProgramMaps.{program_moves, start_maps};
ghost use Rattle.accepted_program.specs.Accepted.{IsProgramRefusal, KeepsRulesOn};
ghost use Rattle.accepted_program.specs.Kept.{moves-prop, names-prop, starts-prop, valid-prop};

use array_maps::Maps;
use body_check::check_bodies;
use directive_check::check_mapping;
use hpf_base::{Grid, StaticError};
use name_table::{Program, resolve};
use std::alloc::Global;
use syntax_tree::Tree;

/// A program that keeps all rules on a grid.
#[derive(Drop)]
pub struct AcceptedProgram<'a> {
    /// Its tree and its declared names, each once, in the order of their declarations.
    pub program: Program,
    /// The mapping with which each declared array starts, in the order of the declarations, and for each REDISTRIBUTE, in the order of the
    /// text, its line and the arrays that move with their new mappings (HPF 2.0, 3 and 8.3).
    pub maps: Maps,
    /// The grid that it is accepted on: the extents, the first dimension first (HPF 2.0, PROCESSORS).
    pub grid: &'a Grid,
    /// It keeps the rules.
    pub ghost keeps: { KeepsRulesOn grid.now (main_program program.tree) },
    /// The names are its own.
    pub ghost names: { program.names ≡ entries (main_program program.tree) } by { names-prop _ _ },
    /// The mappings at the start are its own.
    pub ghost starts: { maps.arrays ≡ start_maps grid.now (main_program program.tree) } by { starts-prop _ _ },
    /// The mappings after each REDISTRIBUTE are its own.
    pub ghost moves: { maps.moves ≡ program_moves grid.now (main_program program.tree) } by { moves-prop _ _ },
    /// Each mapping is onto as many nodes as the grid has, and gives every element of its array a place inside the template.
    pub ghost valid: { AreMaps (product grid.now) maps } by { valid-prop _ _ },
}

/// The program of a tree, with its names and mappings, where it keeps all rules on the grid.
///
/// An `Err` is the first breach of the first of these stages that has one, which is that of the least line and, on one line, of the least
/// reason; or want of memory. The tree is dropped then. The stages are:
///
/// - Names and constants, and then types and ranks, as `resolve` says.
/// - Mapping directives on the grid, as `check_mapping` says.
/// - The bodies of FORALL and of INDEPENDENT loops, as `check_bodies` says.
pub fn accept_program<'a>(
    alloc: Global,
    grid: &'a Grid,
    tree: Tree,
) -> Result<AcceptedProgram<'a>, StaticError>
    ensures tree { IfOk result (λ a. a.program.tree ≡ tree) }
    ensures grid { IfOk result (λ a. a.grid.now ≡ grid.now) }
    ensures refused { IfErr result (IsProgramRefusal grid.now (main_program tree)) }
{
    let program = resolve(alloc, tree)?;
    let maps = check_mapping(alloc, &program, grid)?;
    check_bodies(alloc, &program)?;
    Ok(AcceptedProgram {
        program,
        maps,
        grid,
    })
}

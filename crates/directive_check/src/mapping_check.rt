//! The rules of mapping directives over a whole program.

ghost use Rattle.std.specs.Prelude.{◌≡◌, ◌≤◌, length, map, All, IfErr, IfOk, OnOk};
ghost use Rattle.hpf_base.specs.ElementOrder.{product};
ghost use Rattle.hpf_base.specs.FirstBreach.{Among, least};
ghost use Rattle.hpf_base.specs.Refusal.{IsRefusalBy, NoBreach};
ghost use Rattle.declarations.specs.declared.limits.TheConstants.{MAX_NAMES};
ghost use Rattle.syntax_tree.specs.MainProgram.{declaration, main_program};
ghost use Rattle.expression_rules.specs.Symbols.{Name};
ghost use Rattle.declarations.specs.Declarations.{symbol_table};
ghost use Rattle.name_table.specs.Entries.{entries};
ghost use Rattle.name_table.specs.Resolved.{HasNoBreach};
ghost use Rattle.syntax_tree.specs.Statement.{block_of};
ghost use Rattle.statement_walk.specs.Heads.{all_heads};
ghost use Rattle.distribution_rules.specs.Setting.{arrays};
ghost use Rattle.array_maps.specs.Maps.{AreMaps};
ghost use Rattle.directive_check.specs.MappedObjects.{how_mapped, mapped_objects};
ghost use Rattle.directive_check.specs.ChainSteps.{IsJudged};
ghost use Rattle.directive_check.specs.Limits.{HasFewDims};
ghost use Rattle.directive_check.specs.MappedSteps.{mapped};
ghost use Rattle.directive_check.specs.MappingRules.{breaches_in, mapping_breaches};
ghost use Rattle.directive_check.specs.ProgramMaps.{program_moves, redistribution, start_maps, start_maps_in};
ghost use Rattle.directive_check.specs.Redistributes.{redistributes};

use crate::chain_rules::first_bad_chain;
use crate::declared_rules::first_bad_directive;
use crate::dynamic_names::{distinct_names, dynamic_names, first_bad_dynamic, first_mapped_twice};
use crate::mapped_object::MappedObject;
use crate::mapped_objects::{first_mapped, mapped_objects};
use crate::program_maps::{redistributions, start_maps};
use crate::redistribute_judge::first_bad_redistribute;
use array_maps::Maps;
use distribution_rules::Setting;
use hpf_base::{Grid, Refusal, StaticError, earlier};
use name_table::Program;
use std::alloc::{AllocError, Global};
use syntax_tree::Tree;

/// Checks the mapping directives of a program, and gives the mappings of its arrays on a grid of nodes: for each declared array, in order,
/// its name, its shape and its mapping at the start, and for each REDISTRIBUTE, in the order of the text, its line and the arrays that move
/// with their new mappings. Each mapping is onto as many nodes as the grid has, and gives every element of its array a place inside the template. An
/// `Err` is the first breach of the rules, for one of the reasons `BadDirective`, `BadArrangement`, `Limit` and `BadConstant`, or want of
/// memory.
pub fn check_mapping(alloc: Global, program: &Program, grid: &Grid) -> Result<Maps, StaticError>
    requires table { program.now.table ≡ symbol_table (main_program program.now.tree).declarations }
    requires names { program.now.names ≡ entries (main_program program.now.tree) }
    requires resolved { HasNoBreach (main_program program.now.tree) }
    ensures fine { OnOk result (NoBreach (Among (mapping_breaches grid.now (main_program program.now.tree)))) }
    ensures arrays { IfOk result (λ m. m.arrays ≡ start_maps grid.now (main_program program.now.tree)) }
    ensures moves { IfOk result (λ m. m.moves ≡ program_moves grid.now (main_program program.now.tree)) }
    ensures valid { IfOk result (AreMaps (product grid.now)) }
    ensures refused { IfErr result (IsRefusalBy (Among (mapping_breaches grid.now (main_program program.now.tree)))) }
{
    let _ = grid.dims();
    let setting = Setting::new(alloc, grid, program)?;
    let objects = mapped_in(alloc, &setting, &program.tree)?;
    let firsts = first_mapped(alloc, &setting, &objects)?;
    match first_breach(alloc, &setting, &objects, &firsts, &program.tree)? {
        Some(refusal) => Err(StaticError::Refused(refusal)),
        None => {
            let maps = maps_of(alloc, &setting, &firsts, program)?;
            Ok(maps)
        }
    }
}

/// The mappings of its arrays, where these objects are mapped.
fn maps_of(
    alloc: Global,
    setting: &Setting<'_>,
    objects: &[MappedObject<'_>],
    program: &Program,
) -> Result<Maps, AllocError>
    requires judged { All (IsJudged setting.now) objects.now }
    requires few { length setting.now.names ≤ MAX_NAMES }
    requires dims { All (λ e. HasFewDims e.what) program.now.names }
    ensures arrays { IfOk result (λ m. m.arrays ≡ start_maps_in setting.now (mapped objects.now) program.now.names) }
    ensures moves { IfOk result (λ m. m.moves ≡ map (λ d. redistribution setting.now (mapped objects.now) (arrays program.now.names) d.0 d.1)
        (redistributes (all_heads (block_of program.now.tree.body.items)))) }
{
    let arrays = start_maps(alloc, setting, objects, &program.names)?;
    let moves = redistributions(alloc, setting, objects, &program.names, &program.tree.body)?;
    Ok(Maps { arrays, moves })
}

/// The objects that a program maps. An `Err` is want of memory, here and below.
fn mapped_in<'a>(
    alloc: Global,
    setting: &Setting<'_>,
    tree: &'a Tree,
) -> Result<Vec<MappedObject<'a>>, AllocError>
    requires names { setting.now.names ≡ symbol_table (map declaration tree.now.decls.items) }
    requires resolved { HasNoBreach (main_program tree.now) }
    ensures { IfOk result (λ ms. mapped ms.items ≡ mapped_objects (map declaration tree.now.decls.items)) }
{
    setting.table().valid();
    mapped_objects(alloc, &tree.decls)
}

/// The first of what a program breaks of the rules of mapping directives, where these objects are mapped, and first as these.
fn first_breach(
    alloc: Global,
    setting: &Setting<'_>,
    objects: &[MappedObject<'_>],
    firsts: &[MappedObject<'_>],
    tree: &Tree,
) -> Result<Option<Refusal>, AllocError>
    requires objects { mapped objects.now ≡ mapped_objects (map declaration tree.now.decls.items) }
    requires firsts { (x : Name) → how_mapped (mapped firsts.now) x ≡ how_mapped (mapped objects.now) x }
    requires judged { All (IsJudged setting.now) firsts.now }
    requires few { length setting.now.names ≤ MAX_NAMES }
    ensures { IfOk result (λ r. r ≡ least (breaches_in setting.now (main_program tree.now))) }
{
    let declared = first_bad_directive(alloc, setting, &tree.decls)?;
    let twice = first_mapped_twice(alloc, objects)?;
    let chained = first_bad_chain(alloc, setting, firsts, objects)?;
    let names = dynamic_names(alloc, &tree.decls)?;
    let named = first_bad_dynamic(alloc, setting, &names)?;
    let dynamic = distinct_names(alloc, &names)?;
    let moved = first_bad_redistribute(alloc, setting, firsts, &dynamic, &tree.body)?;
    let after = earlier(chained, earlier(named, moved));
    Ok(earlier(declared, earlier(twice, after)))
}

//! The arrays, templates and processor arrangements of a program.

ghost use Rattle.std.specs.Prelude.{◌≡◌, ◌++◌, Some, map, option_to_list, slice_get, IfOk, OnOk};
ghost use Rattle.std.specs.List.{flat_map};
ghost use Rattle.syntax_tree.specs.Directive.{arrangement, bound, directive_of};
ghost use Rattle.syntax_tree.specs.MainProgram.{declaration, declared_of, Directed};
ghost use Rattle.declarations.specs.Declarations.{bounds_of};
ghost use Rattle.distribution_rules.specs.ProgramObjects.{arrays_at, program_objects};
ghost use Rattle.distribution_rules.specs.Setting.{array_of, arrays, space, spaces_of};

use crate::dimensions::dims_of_bounds;
use crate::objects::{Object, ObjectDims, ObjectKind};
use expression_rules::{Dim, SymbolTable};
use hpf_base::{Grid, Name};
use name_table::{Names, Program, What};
use std::alloc::{AllocError, Global};
use syntax_tree::{Bound, Decl, DeclKind, Directive, Entity};

/// The arrays of a program with these names, and its templates and arrangements after them.
pub(crate) fn objects_of(
    alloc: Global,
    grid: &Grid,
    program: &Program,
) -> Result<Vec<Object>, AllocError>
    ensures { IfOk result (λ os. os.items ≡ program_objects grid.now program.now.table program.now.names (map declaration program.now.tree.decls.items)) }
{
    let mut objects = arrays(alloc, &program.names)?;
    push_spaces(
        alloc,
        grid,
        &program.table,
        &program.tree.decls,
        &mut objects,
    )?;
    Ok(objects)
}

/// The arrays, in order.
fn arrays(alloc: Global, names: &Names) -> Result<Vec<Object>, AllocError>
    ensures { IfOk result (λ os. os.items ≡ arrays names.now) }
{
    let mut objects = Vec::new(alloc);
    for place in 0..names.len() {
        push_array(alloc, names, place, &mut objects)?;
    }
    Ok(objects)
}

/// One array more, where the name at a place is one.
fn push_array(
    alloc: Global,
    names: &Names,
    place: usize,
    objects: &mut Vec<Object>,
) -> Result<(), AllocError>
    ensures { OnOk result (objects.new.items ≡ objects.old.items ++ arrays_at (slice_get names.now place)) }
{
    match names.get(place) {
        None => Ok(()),
        Some(entry) => {
            let object = array_of(alloc, entry.name, &entry.what)?;
            push_object(objects, object)?;
            Ok(())
        }
    }
}

/// One object more, where there is one.
fn push_object(objects: &mut Vec<Object>, object: Option<Object>) -> Result<(), AllocError>
    ensures { OnOk result (objects.new.items ≡ objects.old.items ++ option_to_list object) }
{
    match object {
        None => Ok(()),
        Some(object) => {
            objects.push(object)?;
            Ok(())
        }
    }
}

/// The array that a name stands for, if it stands for one.
fn array_of(alloc: Global, name: Name, what: &What) -> Result<Option<Object>, AllocError>
    ensures { IfOk result (λ o. option_to_list o ≡ array_of name what.now) }
{
    match what {
        What::Array(dims, _) => {
            let dims = known_dims(alloc, dims.as_slice())?;
            Ok(Some(Object {
                name,
                kind: ObjectKind::Array,
                dims: ObjectDims::new(dims),
            }))
        }
        _ => Ok(None),
    }
}

/// Dimensions all of which are known.
fn known_dims(alloc: Global, dims: &[Dim]) -> Result<Vec<Option<Dim>>, AllocError>
    ensures { IfOk result (λ ds. ds.items ≡ map Some dims.now) }
{
    let mut known = Vec::new(alloc);
    for dim in dims {
        known.push(Some(*dim))?;
    }
    Ok(known)
}

/// The templates and the arrangements of declarations, after other objects.
fn push_spaces(
    alloc: Global,
    grid: &Grid,
    table: &SymbolTable,
    decls: &[Decl],
    objects: &mut Vec<Object>,
) -> Result<(), AllocError>
    ensures { OnOk result (objects.new.items ≡ objects.old.items ++ flat_map (λ d. spaces_of grid.now table.now d.what) (map declaration decls.now)) }
{
    for decl in decls {
        push_declared(alloc, grid, table, &decl.what, objects)?;
    }
    Ok(())
}

/// The templates and the arrangements of one declaration, after other objects.
fn push_declared(
    alloc: Global,
    grid: &Grid,
    table: &SymbolTable,
    what: &DeclKind,
    objects: &mut Vec<Object>,
) -> Result<(), AllocError>
    ensures { OnOk result (objects.new.items ≡ objects.old.items ++ spaces_of grid.now table.now (declared_of what.now)) }
{
    match what {
        DeclKind::Directive(directive) => {
            push_directed(alloc, grid, table, directive, objects)?;
            Ok(())
        }
        _ => Ok(()),
    }
}

/// The templates and the arrangements of a directive, after other objects.
fn push_directed(
    alloc: Global,
    grid: &Grid,
    table: &SymbolTable,
    directive: &Directive,
    objects: &mut Vec<Object>,
) -> Result<(), AllocError>
    ensures { OnOk result (objects.new.items ≡ objects.old.items ++ spaces_of grid.now table.now (Directed (directive_of directive.now))) }
{
    match directive {
        Directive::Template(entities) => {
            push_entities(alloc, grid, table, ObjectKind::Template, entities, objects)?;
            Ok(())
        }
        Directive::Processors(entities) => {
            push_entities(
                alloc,
                grid,
                table,
                ObjectKind::Arrangement,
                entities,
                objects,
            )?;
            Ok(())
        }
        _ => Ok(()),
    }
}

/// Templates or arrangements, after other objects.
fn push_entities(
    alloc: Global,
    grid: &Grid,
    table: &SymbolTable,
    kind: ObjectKind,
    entities: &[Entity],
    objects: &mut Vec<Object>,
) -> Result<(), AllocError>
    ensures { OnOk result (objects.new.items ≡ objects.old.items ++ map (space grid.now table.now kind) (map arrangement entities.now)) }
{
    for entity in entities {
        let object = space(alloc, grid, table, kind, entity)?;
        objects.push(object)?;
    }
    Ok(())
}

/// A template or an arrangement.
fn space(
    alloc: Global,
    grid: &Grid,
    table: &SymbolTable,
    kind: ObjectKind,
    entity: &Entity,
) -> Result<Object, AllocError>
    ensures { IfOk result (λ o. o ≡ space grid.now table.now kind (arrangement entity.now)) }
{
    let dims = dims_of_bounds(alloc, grid, table, space_bounds(entity))?;
    Ok(Object {
        name: entity.name,
        kind,
        dims: ObjectDims::new(dims),
    })
}

/// The bounds of a template or an arrangement.
pub(crate) fn space_bounds(entity: &Entity) -> &[Bound]
    ensures { map bound result.now ≡ bounds_of (arrangement entity.now).bounds }
{
    match (&entity.start, &entity.dims) {
        (None, Some(bounds)) => bounds.as_slice(),
        _ => &[],
    }
}

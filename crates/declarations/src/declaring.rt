//! The symbol table of declarations, and the first breach of the rules of names and constants among them (Fortran 95, 5.1,
//! 5.1.2.5 and 5.2.9; HPF 2.0, 3.6 and 3.7).

ghost use Rattle.std.specs.Prelude.{◌≡◌, [], map, IfOk, OnOk};
ghost use Rattle.std.specs.List.{flat_map};
ghost use Rattle.hpf_base.specs.FirstBreach.{least};
ghost use Rattle.syntax_tree.specs.Directive.{directive_of};
ghost use Rattle.syntax_tree.specs.MainProgram.{declaration, type_declaration, Directed, Integer};
ghost use Rattle.declarations.specs.Declarations.{after_all, bounds_of, items, items_of, symbol_table};
ghost use Rattle.declarations.specs.Declaring.{bounds_held, constant_reason, definition_items, items_in, placed_item, space_items, typed_items};
ghost use Rattle.declarations.specs.DeclarationRules.{item_breaches};
ghost use Rattle.expression_rules.specs.Inner.{bound_expressions};

use crate::constant_reasons::dims_reason;
use crate::declared_items::{Space, definition, space_entity, typed_entity};
use crate::declared_names::DeclaredNames;
use expression_rules::{Scope, SymbolTable};
use hpf_base::{Reason, Refusal, at_line, earlier};
use std::alloc::{AllocError, Global};
use syntax_tree::{Bound, ConstDef, Decl, DeclKind, Directive, Entity, IntegerDecl};

/// The symbol table of declarations, and the first breach of the rules of names and constants among them, where there is one.
#[derive(Drop)]
pub struct Declarations {
    pub table: SymbolTable,
    pub first: Option<Refusal>,
}

/// The symbol table of these declarations, and the first of what is wrong with their names and constant expressions; None exactly
/// where nothing is. An `Err` is want of memory.
pub fn declare(alloc: Global, decls: &[Decl]) -> Result<Declarations, AllocError>
    ensures table { IfOk result (λ d. d.table ≡ symbol_table (map declaration decls.now)) }
    ensures first { IfOk result (λ d. d.first ≡ least (item_breaches [] (items (map declaration decls.now)))) }
{
    let mut names = DeclaredNames::new(alloc);
    let mut first = None;
    for decl in decls {
        let found = declared(alloc, &mut names, decl)?;
        first = earlier(first, found);
    }
    Ok(Declarations {
        table: names.into_table(),
        first,
    })
}

/// The names of one declaration more, with the first of what is wrong with it.
fn declared(
    alloc: Global,
    names: &mut DeclaredNames,
    decl: &Decl,
) -> Result<Option<Refusal>, AllocError>
    ensures table { OnOk result (names.new ≡ after_all names.old (items_in decl.now)) }
    ensures first { IfOk result (λ r. r ≡ least (item_breaches names.old (items_in decl.now))) }
{
    match &decl.what {
        DeclKind::Integer(typed) => {
            let first = integer(alloc, names, decl.line, typed)?;
            Ok(first)
        }
        DeclKind::Parameter(constants) => {
            let first = definitions(alloc, names, decl.line, constants)?;
            Ok(first)
        }
        DeclKind::Directive(directive) => {
            let first = directed(names, decl.line, directive)?;
            Ok(first)
        }
        DeclKind::ImplicitNone => Ok(None),
    }
}

/// The names of a directive, with the first of what is wrong with them.
fn directed(
    names: &mut DeclaredNames,
    line: u32,
    directive: &Directive,
) -> Result<Option<Refusal>, AllocError>
    ensures table { OnOk result (names.new ≡ after_all names.old (map (placed_item line) (items_of (Directed (directive_of directive.now))))) }
    ensures first { IfOk result (λ r. r ≡ least (item_breaches names.old (map (placed_item line) (items_of (Directed (directive_of directive.now)))))) }
{
    match directive {
        Directive::Template(entities) => {
            let first = spaces(names, line, Space::Template, entities)?;
            Ok(first)
        }
        Directive::Processors(entities) => {
            let first = spaces(names, line, Space::Arrangement, entities)?;
            Ok(first)
        }
        _ => Ok(None),
    }
}

/// The names of an INTEGER: what stands after DIMENSION is judged first, and then one entity after the other.
fn integer(
    alloc: Global,
    names: &mut DeclaredNames,
    line: u32,
    typed: &IntegerDecl,
) -> Result<Option<Refusal>, AllocError>
    ensures table { OnOk result (names.new ≡ after_all names.old (map (placed_item line) (items_of (Integer (type_declaration typed.now))))) }
    ensures first { IfOk result (λ r. r ≡ least (item_breaches names.old (map (placed_item line) (items_of (Integer (type_declaration typed.now)))))) }
{
    let attribute = attribute_reason(alloc, names, &typed.dims)?;
    let after = entities(
        alloc,
        names,
        line,
        typed.constant,
        &typed.dims,
        &typed.entities,
    )?;
    Ok(earlier(at_line(line, attribute), after))
}

/// The least reason for which the bounds after DIMENSION break a rule.
fn attribute_reason(
    alloc: Global,
    names: &DeclaredNames,
    dims: &Option<Vec<Bound>>,
) -> Result<Option<Reason>, AllocError>
    ensures { IfOk result (λ r. r ≡ constant_reason names.now (flat_map bound_expressions (bounds_of (bounds_held dims.now)))) }
{
    let scope = Scope::new(names.table());
    dims_reason(alloc, &scope, dims)
}

/// The names of the entities of an INTEGER, with the first of what is wrong with them. `dims` are the bounds after DIMENSION.
fn entities(
    alloc: Global,
    names: &mut DeclaredNames,
    line: u32,
    constant: bool,
    dims: &Option<Vec<Bound>>,
    entities: &[Entity],
) -> Result<Option<Refusal>, AllocError>
    ensures table { OnOk result (names.new ≡ after_all names.old (typed_items line constant (bounds_held dims.now) entities.now)) }
    ensures first { IfOk result (λ r. r ≡ least (item_breaches names.old (typed_items line constant (bounds_held dims.now) entities.now))) }
{
    let mut first = None;
    for entity in entities {
        let reason = typed_entity(alloc, names, constant, dims, entity)?;
        first = earlier(first, at_line(line, reason));
    }
    Ok(first)
}

/// The constants of a PARAMETER statement, with the first of what is wrong with them.
fn definitions(
    alloc: Global,
    names: &mut DeclaredNames,
    line: u32,
    constants: &[ConstDef],
) -> Result<Option<Refusal>, AllocError>
    ensures table { OnOk result (names.new ≡ after_all names.old (definition_items line constants.now)) }
    ensures first { IfOk result (λ r. r ≡ least (item_breaches names.old (definition_items line constants.now))) }
{
    let mut first = None;
    for constant in constants {
        let reason = definition(alloc, names, constant)?;
        first = earlier(first, at_line(line, reason));
    }
    Ok(first)
}

/// The names of a TEMPLATE or PROCESSORS, with the first of what is wrong with them.
fn spaces(
    names: &mut DeclaredNames,
    line: u32,
    space: Space,
    entities: &[Entity],
) -> Result<Option<Refusal>, AllocError>
    ensures table { OnOk result (names.new ≡ after_all names.old (space_items line space entities.now)) }
    ensures first { IfOk result (λ r. r ≡ least (item_breaches names.old (space_items line space entities.now))) }
{
    let mut first = None;
    for entity in entities {
        let reason = space_entity(names, space, entity)?;
        first = earlier(first, at_line(line, reason));
    }
    Ok(first)
}

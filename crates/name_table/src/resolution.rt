//! The rules of names, constants, types and ranks over a whole program (Fortran 95, 5 to 9 and 14.1.2; HPF 2.0, 3 and 5.1).

ghost use Rattle.std.specs.Prelude.{◌≡◌, [], map, IfErr, IfOk, OnOk};
ghost use Rattle.std.specs.List.{flat_map};
ghost use Rattle.hpf_base.specs.FirstBreach.{least};
ghost use Rattle.syntax_tree.specs.MainProgram.{declaration, main_program};
ghost use Rattle.declarations.specs.Declarations.{items, symbol_table};
ghost use Rattle.name_table.specs.Entries.{entries};
ghost use Rattle.name_table.specs.NameRules.{name_breaches};
ghost use Rattle.declarations.specs.DeclarationRules.{item_breaches};
ghost use Rattle.name_table.specs.RankRules.{rank_breaches};
ghost use Rattle.name_table.specs.Resolved.{HasNoBreach, IsProgramRefusal, IsRefusedOrNone};

use crate::declaration_ranks::first_bad_declaration;
use crate::directive_names::first_bad_directive;
use crate::end_name::bad_end_name;
use crate::name_judge::first_bad_name;
use crate::names::{Names, entries_of};
use crate::nests::first_deep_nest;
use crate::rank_judge::first_bad_rank;
use declarations::{Declarations, declare};
use expression_rules::SymbolTable;
use hpf_base::{Refusal, StaticError, earlier};
use std::alloc::{AllocError, Global};
use syntax_tree::Tree;

/// A program that keeps the rules of names, constants, types and ranks: its tree, its symbol table, and what it declares.
#[derive(Drop)]
pub struct Program {
    pub tree: Tree,
    pub table: SymbolTable,
    pub names: Names,
}

/// The program of a tree that breaks none of these rules. An `Err` is the first breach of the rules of names and constants or,
/// where there is none of them, of those of types and ranks; or want of memory. The tree is dropped then.
pub fn resolve(alloc: Global, tree: Tree) -> Result<Program, StaticError>
    ensures fine { OnOk result (HasNoBreach (main_program tree)) }
    ensures tree { IfOk result (λ p. p.tree ≡ tree) }
    ensures table { IfOk result (λ p. p.table ≡ symbol_table (main_program tree).declarations) }
    ensures names { IfOk result (λ p. p.names ≡ entries (main_program tree)) }
    ensures refused { IfErr result (IsProgramRefusal (main_program tree)) }
{
    let table = table_of(alloc, &tree)?;
    let names = entries_of(alloc, &table)?;
    Ok(Program { tree, table, names })
}

/// The symbol table of the program of a tree, where it breaks no rule.
fn table_of(alloc: Global, tree: &Tree) -> Result<SymbolTable, StaticError>
    ensures fine { OnOk result (HasNoBreach (main_program tree.now)) }
    ensures table { IfOk result (λ t. t ≡ symbol_table (main_program tree.now).declarations) }
    ensures refused { IfErr result (IsProgramRefusal (main_program tree.now)) }
{
    let Declarations { table, first } = declare(alloc, &tree.decls)?;
    match first_breach(alloc, &table, first, tree)? {
        Some(refusal) => Err(StaticError::Refused(refusal)),
        None => Ok(table),
    }
}

/// The breach that the program is refused for, if there is one, over its symbol table and the first breach of its declarations.
fn first_breach(
    alloc: Global,
    table: &SymbolTable,
    first: Option<Refusal>,
    tree: &Tree,
) -> Result<Option<Refusal>, AllocError>
    requires table { table.now ≡ symbol_table (map declaration tree.now.decls.items) }
    requires first { first ≡ least (item_breaches [] (items (map declaration tree.now.decls.items))) }
    ensures { IfOk result (IsRefusedOrNone (main_program tree.now)) }
{
    let named = first_of_names(alloc, table, first, tree)?;
    match named {
        Some(refusal) => Ok(Some(refusal)),
        None => {
            let ranked = first_of_ranks(alloc, table, tree)?;
            Ok(ranked)
        }
    }
}

/// The first breach of the rules of names and constants.
fn first_of_names(
    alloc: Global,
    table: &SymbolTable,
    first: Option<Refusal>,
    tree: &Tree,
) -> Result<Option<Refusal>, AllocError>
    requires table { table.now ≡ symbol_table (map declaration tree.now.decls.items) }
    requires first { first ≡ least (item_breaches [] (items (map declaration tree.now.decls.items))) }
    ensures { IfOk result (λ r. r ≡ least (name_breaches (main_program tree.now))) }
{
    let directed = first_bad_directive(alloc, table, &tree.decls)?;
    let named = first_bad_name(alloc, table, &tree.body)?;
    let after = earlier(first_deep_nest(&tree.body), bad_end_name(tree));
    Ok(earlier(first, earlier(directed, earlier(named, after))))
}

/// The first breach of the rules of types and ranks.
fn first_of_ranks(
    alloc: Global,
    table: &SymbolTable,
    tree: &Tree,
) -> Result<Option<Refusal>, AllocError>
    requires { table.now ≡ symbol_table (map declaration tree.now.decls.items) }
    ensures { IfOk result (λ r. r ≡ least (rank_breaches (main_program tree.now))) }
{
    let declared = first_bad_declaration(alloc, table, &tree.decls)?;
    let ranked = first_bad_rank(alloc, table, &tree.body)?;
    Ok(earlier(declared, ranked))
}

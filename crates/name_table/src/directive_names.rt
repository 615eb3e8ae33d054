//! The rules of names in directives among the declarations (HPF 2.0, 3).

ghost use Rattle.std.specs.Prelude.{◌≡◌, ◌&&◌, map, IfOk};
ghost use Rattle.std.specs.List.{flat_map, list_all};
ghost use Rattle.hpf_base.specs.FirstBreach.{least};
ghost use Rattle.syntax_tree.specs.Directive.{directive_of};
ghost use Rattle.syntax_tree.specs.MainProgram.{declaration};
ghost use Rattle.expression_rules.specs.Operands.{are_operands};
ghost use Rattle.expression_rules.specs.Symbols.{is_declared, with_dummies};
ghost use Rattle.name_table.specs.Directives.{directive_dummies, directive_expressions, directive_names};
ghost use Rattle.name_table.specs.NameRules.{directive_breaches_at};

use crate::dummies::dummies;
use crate::expressions::in_directive;
use crate::listed_names::{are_declared, are_mapped_declared, is_distribution_declared};
use crate::operands::Operands;
use crate::refused::refused_unless;
use expression_rules::{Scope, SymbolTable};
use hpf_base::{Reason, Refusal, earlier};
use std::alloc::{AllocError, Global};
use syntax_tree::{Decl, DeclKind, Directive};

/// The first breach of the rules of names in directives among the declarations, where there is one. An `Err` is want of memory.
pub(crate) fn first_bad_directive(
    alloc: Global,
    table: &SymbolTable,
    decls: &[Decl],
) -> Result<Option<Refusal>, AllocError>
    ensures { IfOk result (λ r. r ≡ least (flat_map (directive_breaches_at table.now) (map declaration decls.now))) }
{
    let mut first = None;
    for decl in decls {
        let found = bad_directive(alloc, table, decl)?;
        first = earlier(first, found);
    }
    Ok(first)
}

/// The breach of one declaration.
#[tactic(auto, using(crate::proofs::Folds::all_map))]
fn bad_directive(
    alloc: Global,
    table: &SymbolTable,
    decl: &Decl,
) -> Result<Option<Refusal>, AllocError>
    ensures { IfOk result (λ r. r ≡ least (directive_breaches_at table.now (declaration decl.now))) }
{
    match &decl.what {
        DeclKind::Directive(directive) => {
            let good = names_stand(alloc, table, directive)?;
            Ok(refused_unless(good, decl.line, Reason::BadName))
        }
        _ => Ok(None),
    }
}

/// Whether the names of a directive are declared, and those in its expressions stand for a number or for numbers. An `Err` is
/// want of memory.
fn names_stand(
    alloc: Global,
    table: &SymbolTable,
    directive: &Directive,
) -> Result<bool, AllocError>
    ensures { IfOk result (λ b. b ≡ (list_all (λ x. is_declared x table.now) (directive_names (directive_of directive.now))
        && list_all (are_operands (with_dummies table.now (directive_dummies (directive_of directive.now)))) (directive_expressions (directive_of directive.now)))) }
{
    let dummies = dummies(alloc, directive)?;
    let scope = Scope::with_dummies(table, &dummies);
    let good = in_directive(&Operands { scope: &scope }, directive)?;
    Ok(are_listed_declared(table, directive) & good)
}

/// Whether the names in the lists of a directive are declared.
#[tactic(auto, using(expression_rules::proofs::Folds::all_append))]
fn are_listed_declared(table: &SymbolTable, directive: &Directive) -> bool
    ensures { result ≡ list_all (λ x. is_declared x table.now) (directive_names (directive_of directive.now)) }
{
    match directive {
        Directive::Dynamic(names) => are_declared(table, names.as_slice()),
        Directive::Distribute(spec) => is_distribution_declared(table, spec),
        Directive::Align(spec) => {
            are_mapped_declared(table, spec.colons, spec.names.as_slice())
                && table.find(&spec.target).is_some()
        }
        Directive::Processors(_) | Directive::Template(_) | Directive::Passed => true,
    }
}

//! The rules of types and ranks in declarations and directives: each expression is an integer scalar (Fortran 95, 5.1 and 5.2.9;
//! HPF 2.0, 3).

ghost use Rattle.std.specs.Prelude.{◌≡◌, map, IfOk};
ghost use Rattle.std.specs.List.{flat_map, list_all};
ghost use Rattle.hpf_base.specs.FirstBreach.{least};
ghost use Rattle.syntax_tree.specs.Directive.{directive_of, entity};
ghost use Rattle.syntax_tree.specs.MainProgram.{Directed, declaration, declared_of, named_constant, type_declaration};
ghost use Rattle.name_table.specs.RankRules.{declaration_breaches_at, declaration_meets, type_expressions, typed_expressions};

use crate::dummies::dummies;
use crate::expressions::{ExpressionTest, in_bounds_if_any, in_directive, in_option};
use crate::integer_scalars::IntegerScalars;
use crate::refused::refused_unless;
use expression_rules::{Context, Scope, SymbolTable};
use hpf_base::{Reason, Refusal, earlier};
use std::alloc::{AllocError, Global};
use syntax_tree::{ConstDef, Decl, DeclKind, Directive, Entity, IntegerDecl};

/// The first breach of the rules of types and ranks in declarations and directives, where there is one. An `Err` is want of memory,
/// here and below.
pub(crate) fn first_bad_declaration(
    alloc: Global,
    table: &SymbolTable,
    decls: &[Decl],
) -> Result<Option<Refusal>, AllocError>
    ensures { IfOk result (λ r. r ≡ least (flat_map (declaration_breaches_at table.now) (map declaration decls.now))) }
{
    let mut first = None;
    for decl in decls {
        let found = breach(alloc, table, decl)?;
        first = earlier(first, found);
    }
    Ok(first)
}

/// The breach of one declaration.
fn breach(alloc: Global, table: &SymbolTable, decl: &Decl) -> Result<Option<Refusal>, AllocError>
    ensures { IfOk result (λ r. r ≡ least (declaration_breaches_at table.now (declaration decl.now))) }
{
    let good = declaration_meets(alloc, table, &decl.what)?;
    Ok(refused_unless(good, decl.line, Reason::BadRank))
}

/// Whether each expression of a declaration is an integer scalar.
#[tactic(auto, using(crate::proofs::Scalars::all_alike))]
fn declaration_meets(
    alloc: Global,
    table: &SymbolTable,
    what: &DeclKind,
) -> Result<bool, AllocError>
    ensures { IfOk result (λ b. b ≡ declaration_meets table.now (declared_of what.now)) }
{
    let scope = Scope::new(table);
    let test = IntegerScalars {
        alloc,
        context: Context::Statement,
        scope: &scope,
    };
    match what {
        DeclKind::ImplicitNone => Ok(true),
        DeclKind::Integer(types) => in_types(&test, types),
        DeclKind::Parameter(constants) => in_constants(&test, constants),
        DeclKind::Directive(directive) => directive_meets(alloc, table, directive),
    }
}

/// Whether the expressions in INTEGER pass a test: the bounds after DIMENSION, and those of the entities. An `Err` is want of
/// memory, here and below.
#[tactic(auto, using(expression_rules::proofs::Folds::all_append))]
fn in_types<T: ExpressionTest>(test: &T, types: &IntegerDecl) -> Result<bool, AllocError>
    ensures { IfOk result (λ b. b ≡ list_all (T.passes test.now) (type_expressions (type_declaration types.now))) }
{
    let shared = in_bounds_if_any(test, &types.dims)?;
    let own = in_entities(test, &types.entities)?;
    Ok(shared & own)
}

/// Whether the expressions in an entity of INTEGER pass a test: its bounds, and its initial value.
#[tactic(auto, using(expression_rules::proofs::Folds::all_append))]
fn in_entity<T: ExpressionTest>(test: &T, one: &Entity) -> Result<bool, AllocError>
    ensures { IfOk result (λ b. b ≡ list_all (T.passes test.now) (typed_expressions (entity one.now))) }
{
    let bounds = in_bounds_if_any(test, &one.dims)?;
    let start = in_option(test, &one.start)?;
    Ok(bounds & start)
}

/// Whether the expressions in all entities of INTEGER pass a test.
#[tactic(auto, using(expression_rules::proofs::Folds::all_append))]
fn in_entities<T: ExpressionTest>(test: &T, entities: &[Entity]) -> Result<bool, AllocError>
    ensures { IfOk result (λ b. b ≡ list_all (T.passes test.now) (flat_map typed_expressions (map entity entities.now))) }
{
    let mut all = true;
    for one in entities {
        let good = in_entity(test, one)?;
        all &= good;
    }
    Ok(all)
}

/// Whether the values of PARAMETER pass a test.
fn in_constants<T: ExpressionTest>(test: &T, constants: &[ConstDef]) -> Result<bool, AllocError>
    ensures { IfOk result (λ b. b ≡ list_all (T.passes test.now) (map (λ c. c.value) (map named_constant constants.now))) }
{
    let mut all = true;
    for constant in constants {
        let good = test.test(&constant.value)?;
        all &= good;
    }
    Ok(all)
}

/// Whether each expression of a directive is an integer scalar, where its align dummies stand for integer scalars.
#[tactic(auto, using(crate::proofs::Scalars::all_alike))]
fn directive_meets(
    alloc: Global,
    table: &SymbolTable,
    directive: &Directive,
) -> Result<bool, AllocError>
    ensures { IfOk result (λ b. b ≡ declaration_meets table.now (Directed (directive_of directive.now))) }
{
    let dummies = dummies(alloc, directive)?;
    let scope = Scope::with_dummies(table, &dummies);
    let test = IntegerScalars {
        alloc,
        context: Context::Directive,
        scope: &scope,
    };
    let good = in_directive(&test, directive)?;
    Ok(good)
}

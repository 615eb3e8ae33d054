//! What a declaration says of one name.

ghost use Rattle.std.specs.Prelude.{◌≡◌, option_map, IfOk, OnOk};
ghost use Rattle.syntax_tree.specs.Directive.{arrangement, entity};
ghost use Rattle.syntax_tree.specs.Expression.{expression};
ghost use Rattle.syntax_tree.specs.MainProgram.{named_constant};
ghost use Rattle.expression_rules.specs.Symbols.{find, is_uninitialized, satisfies};
ghost use Rattle.declarations.specs.Declarations.{after, own_or, number, rank_in_text, symbol_of, Definition, TypedEntity};
ghost use Rattle.declarations.specs.Declaring.{bounds_held, least_reason, space_item, space_symbol, typed_item};
ghost use Rattle.declarations.specs.DeclarationRules.{declared_again, item_reasons, past_limits};

use crate::constant_reasons::{dims_reason, expression_reason, option_reason};
use crate::declared_names::{DeclaredNames, is_declared, is_uninitialized};
use crate::least_reason::{lesser, reason_if};
use crate::limits::{MAX_NAMES, is_past_limits, known_dims, number, number_or};
use expression_rules::{Scope, Symbol};
use hpf_base::{MAX_RANK, Name, Reason};
use std::alloc::{AllocError, Global};
use syntax_tree::{Bound, ConstDef, Entity, Expr};

/// What a directive declares.
#[derive(Clone, Copy)]
pub(crate) enum Space {
    Template,
    Arrangement,
}

/// The least reason for which a name can't be declared: it is declared, or is one too many.
fn declared_again(names: &DeclaredNames, name: &Name) -> Option<Reason>
    ensures { result ≡ least_reason (declared_again names.now name.now) }
{
    if is_declared(names.table(), name) {
        Some(Reason::BadName)
    } else {
        reason_if(names.table().len() >= MAX_NAMES, Reason::Limit)
    }
}

/// The bounds of an entity: its own, or those after DIMENSION.
fn own_dims<'a>(held: &'a Entity, dims: &'a Option<Vec<Bound>>) -> &'a Option<Vec<Bound>>
    ensures { bounds_held result.now ≡ own_or (entity held.now).bounds (bounds_held dims.now) }
{
    match &held.dims {
        None => dims,
        Some(_) => &held.dims,
    }
}

/// An entity is an array past its limits.
fn past_limits(
    alloc: Global,
    names: &DeclaredNames,
    constant: bool,
    dims: &Option<Vec<Bound>>,
) -> Result<bool, AllocError>
    ensures { IfOk result (λ b. b ≡ past_limits names.now constant (bounds_held dims.now)) }
{
    match (constant, dims) {
        (false, Some(bounds)) => is_past_limits(alloc, names, bounds),
        _ => Ok(false),
    }
}

/// The least reason for which an entity of INTEGER breaks a rule.
fn typed_reason(
    alloc: Global,
    names: &DeclaredNames,
    constant: bool,
    dims: &Option<Vec<Bound>>,
    held: &Entity,
) -> Result<Option<Reason>, AllocError>
    ensures { IfOk result (λ r. r ≡ least_reason (item_reasons names.now (TypedEntity constant (bounds_held dims.now) (entity held.now)))) }
{
    let scope = Scope::new(names.table());
    let again = declared_again(names, &held.name);
    let past = past_limits(alloc, names, constant, dims)?;
    let of_dims = dims_reason(alloc, &scope, dims)?;
    let of_start = option_reason(alloc, &scope, &held.start)?;
    let own = lesser(again, reason_if(past, Reason::Limit));
    Ok(lesser(own, lesser(of_dims, of_start)))
}

/// What an entity of INTEGER stands for.
fn symbol_of(
    alloc: Global,
    names: &DeclaredNames,
    constant: bool,
    dims: &Option<Vec<Bound>>,
    start: &Option<Expr>,
) -> Result<Symbol, AllocError>
    ensures { IfOk result (λ s. s ≡ symbol_of names.now constant (bounds_held dims.now) (option_map expression start.now)) }
{
    let scope = Scope::new(names.table());
    match (constant, dims, start) {
        (true, _, _) => {
            let value = number_or(alloc, 0, &scope, start)?;
            Ok(Symbol::Constant(value))
        }
        (false, None, None) => Ok(Symbol::Uninitialized),
        (false, None, Some(e)) => {
            let value = number(alloc, &scope, e)?;
            Ok(Symbol::Initialized(value))
        }
        (false, Some(bounds), _) => {
            let known = known_dims(alloc, names, bounds)?;
            let value = number_or(alloc, 0, &scope, start)?;
            Ok(Symbol::Array(bounds.len(), known, value))
        }
    }
}

/// One entity of INTEGER more, with the least reason for which it breaks a rule. `dims` are the bounds after DIMENSION.
pub(crate) fn typed_entity(
    alloc: Global,
    names: &mut DeclaredNames,
    constant: bool,
    dims: &Option<Vec<Bound>>,
    entity: &Entity,
) -> Result<Option<Reason>, AllocError>
    ensures table { OnOk result (names.new ≡ after names.old (typed_item constant (bounds_held dims.now) entity.now)) }
    ensures reason { IfOk result (λ r. r ≡ least_reason (item_reasons names.old (typed_item constant (bounds_held dims.now) entity.now))) }
{
    let dims = own_dims(entity, dims);
    let reason = typed_reason(alloc, names, constant, dims, entity)?;
    let symbol = symbol_of(alloc, names, constant, dims, &entity.start)?;
    names.add(entity.name, symbol)?;
    Ok(reason)
}

/// The name stands for a scalar variable without an initial value.
fn is_definable(names: &DeclaredNames, name: &Name) -> bool
    ensures { result ≡ satisfies is_uninitialized (find name.now names.now) }
{
    is_uninitialized(names.table().find(name))
}

/// The least reason for which a constant of a PARAMETER statement breaks a rule.
fn definition_reason(
    alloc: Global,
    names: &DeclaredNames,
    constant: &ConstDef,
) -> Result<Option<Reason>, AllocError>
    ensures { IfOk result (λ r. r ≡ least_reason (item_reasons names.now (Definition (named_constant constant.now)))) }
{
    let scope = Scope::new(names.table());
    let own = reason_if(!is_definable(names, &constant.name), Reason::BadName);
    let of_value = expression_reason(alloc, &scope, &constant.value)?;
    Ok(lesser(own, of_value))
}

/// The value of a constant of a PARAMETER statement, where it is known.
fn definition_value(
    alloc: Global,
    names: &DeclaredNames,
    constant: &ConstDef,
) -> Result<Option<i64>, AllocError>
    ensures { IfOk result (λ n. n ≡ number names.now (named_constant constant.now).value) }
{
    let scope = Scope::new(names.table());
    number(alloc, &scope, &constant.value)
}

/// One constant of a PARAMETER statement more, with the least reason for which it breaks a rule.
pub(crate) fn definition(
    alloc: Global,
    names: &mut DeclaredNames,
    constant: &ConstDef,
) -> Result<Option<Reason>, AllocError>
    ensures table { OnOk result (names.new ≡ after names.old (Definition (named_constant constant.now))) }
    ensures reason { IfOk result (λ r. r ≡ least_reason (item_reasons names.old (Definition (named_constant constant.now)))) }
{
    let reason = definition_reason(alloc, names, constant)?;
    let value = definition_value(alloc, names, constant)?;
    names.define(constant.name, value)?;
    Ok(reason)
}

/// The rank of a template or a processor arrangement, as it stands in the text.
fn rank_in_text(entity: &Entity) -> usize
    ensures { result ≡ rank_in_text (arrangement entity.now) }
{
    match (&entity.start, &entity.dims) {
        (None, Some(bounds)) => bounds.len(),
        _ => 0,
    }
}

/// What a template or a processor arrangement of a rank is.
fn space_symbol(space: Space, rank: usize) -> Symbol
    ensures { result ≡ space_symbol space rank }
{
    match space {
        Space::Template => Symbol::Template(rank),
        Space::Arrangement => Symbol::Arrangement(rank),
    }
}

/// One template or processor arrangement more, with the least reason for which it breaks a rule.
#[tactic(auto, using(crate::proofs::ItemReasons::space_reason))]
pub(crate) fn space_entity(
    names: &mut DeclaredNames,
    space: Space,
    entity: &Entity,
) -> Result<Option<Reason>, AllocError>
    ensures table { OnOk result (names.new ≡ after names.old (space_item space (arrangement entity.now))) }
    ensures reason { IfOk result (λ r. r ≡ least_reason (item_reasons names.old (space_item space (arrangement entity.now)))) }
{
    let rank = rank_in_text(entity);
    let again = declared_again(names, &entity.name);
    names.add(entity.name, space_symbol(space, rank))?;
    Ok(lesser(again, reason_if(rank > MAX_RANK, Reason::Limit)))
}

//! The rules of names in statements (Fortran 95, 7.5.1.1, 7.5.4.1 and 8.1.4).

ghost use Rattle.std.specs.Prelude.{◌≡◌, length, map, nat_lt, option_copied, IfOk};
ghost use Rattle.std.specs.List.{flat_map, list_all};
ghost use Rattle.syntax_tree.specs.Statement.{axis, block_of};
ghost use Rattle.name_table.specs.NameRules.{header_names, name_breaches_at, own_uses};
ghost use Rattle.statement_walk.specs.Heads.{all_heads, indices_of};
ghost use Rattle.hpf_base.specs.FirstBreach.{least};
ghost use Rattle.name_table.specs.declared.limits.TheConstants.{MAX_INDICES};
ghost use Rattle.expression_rules.specs.Symbols.{find, is_among, is_scalar, is_variable, satisfies};
ghost use Rattle.name_table.specs.Uses.{repeats, allows, Assigned};
ghost use Rattle.statement_walk.specs.Views.{head_of};
ghost use Rattle.name_table.specs.NameReasons.{name_reason};

use crate::head_operands::all_are_operands;
use crate::limits::MAX_INDICES;
use crate::listed_names::{are_declared, is_distribution_declared};
use expression_rules::{Scope, Symbol, SymbolTable, is_among};
use hpf_base::{Name, Reason, Refusal};
use indexmap::IndexSet;
use statement_walk::{Head, Judge, first_bad};
use std::alloc::{AllocError, Global};
use syntax_tree::{Header, Stmt};

/// Judges the names of a statement.
#[derive(Clone, Copy)]
struct NameJudge<'a> {
    table: &'a SymbolTable,
}

impl<'a> Judge for NameJudge<'a> {
    ghost use Rattle.name_table.specs.NameRules.{name_breaches_at};

    ghost breaches = { λ j p. name_breaches_at j.table.now p };

    fn judge(
        &self,
        alloc: Global,
        line: u32,
        do_variables: &[Name],
        head: Head<'_>,
    ) -> Result<Option<Refusal>, AllocError> {
        let reason = name_reason(alloc, self.table, do_variables, head)?;
        match reason {
            None => Ok(None),
            Some(reason) => Ok(Some(Refusal { line, reason })),
        }
    }
}

/// The first breach of the rules of names in statements, where there is one. An `Err` is want of memory.
pub(crate) fn first_bad_name(
    alloc: Global,
    table: &SymbolTable,
    stmts: &[Stmt],
) -> Result<Option<Refusal>, AllocError>
    ensures { IfOk result (λ r. r ≡ least (flat_map (name_breaches_at table.now) (all_heads (block_of stmts.now)))) }
{
    let judge = NameJudge { table };
    first_bad(alloc, &judge, stmts)
}

/// The least reason for which the names of a statement break a rule. An `Err` is want of memory.
fn name_reason(
    alloc: Global,
    table: &SymbolTable,
    do_variables: &[Name],
    head: Head<'_>,
) -> Result<Option<Reason>, AllocError>
    ensures { IfOk result (λ why. why ≡ name_reason table.now do_variables.now (head_of head.entry)) }
{
    let scope = Scope::new(table);
    let operands = all_are_operands(&scope, head)?;
    let good = own_stand(table, do_variables, head) & operands;
    let twice = has_repeats(alloc, head)?;
    if !good || twice {
        Ok(Some(Reason::BadName))
    } else if has_many(head) {
        Ok(Some(Reason::Limit))
    } else {
        Ok(None)
    }
}

/// The header of a FORALL has an index twice. An `Err` is want of memory.
fn has_repeats(alloc: Global, head: Head<'_>) -> Result<bool, AllocError>
    ensures { IfOk result (λ b. b ≡ repeats (header_names (head_of head.entry))) }
{
    match head {
        Head::Forall(axes, _) => {
            let twice = repeats(alloc, axes)?;
            Ok(twice)
        }
        _ => Ok(false),
    }
}

/// The header of a FORALL has more indices than the limit.
fn has_many(head: Head<'_>) -> bool
    ensures { result ≡ nat_lt MAX_INDICES (length (header_names (head_of head.entry))) }
{
    match head {
        Head::Forall(axes, _) => axes.len() > MAX_INDICES,
        _ => false,
    }
}

/// The names that a statement uses, beside those in its expressions, stand for what their uses ask.
#[tactic(auto, using(crate::proofs::Folds::all_map, expression_rules::proofs::Folds::all_append))]
fn own_stand(table: &SymbolTable, do_variables: &[Name], head: Head<'_>) -> bool
    ensures { result ≡ list_all (allows table.now do_variables.now) (own_uses (head_of head.entry)) }
{
    match head {
        Head::Assignment(left, _) | Head::MaskedAssignment(_, left, _) => {
            is_assignable(table, do_variables, &[], &left.name)
        }
        Head::ForallAssignment(axes, left, _) => {
            is_assignable(table, do_variables, axes, &left.name)
        }
        Head::Independent(mark) => {
            are_declared(table, mark.new.as_slice())
                && are_declared(table, mark.reduction.as_slice())
        }
        Head::Do(_, index, _, _, _) => {
            is_scalar(table.find(index)) && !is_among(index, do_variables)
        }
        Head::Forall(axes, _) => are_indices(table, axes),
        Head::Redistribute(spec) => is_distribution_declared(table, spec),
        Head::Condition(_) | Head::Where(_) | Head::Print(_) | Head::Transfer => true,
    }
}

/// The name may stand on the left side of an assignment, in a FORALL with these indices.
fn is_assignable(table: &SymbolTable, do_variables: &[Name], axes: &[Header], name: &Name) -> bool
    ensures { result ≡ allows table.now do_variables.now (Assigned (indices_of (map axis axes.now)) name.now) }
{
    is_variable(table.find(name)) && (!is_among(name, do_variables) || is_index(name, axes))
}

/// The indices of a FORALL are scalar variables.
fn are_indices(table: &SymbolTable, axes: &[Header]) -> bool
    ensures { result ≡ list_all (λ x. satisfies is_scalar (find x table.now)) (indices_of (map axis axes.now)) }
{
    let mut all = true;
    for other in axes {
        all &= is_scalar(table.find(&other.name));
    }
    all
}

/// The name is among the indices of a FORALL.
fn is_index(name: &Name, axes: &[Header]) -> bool
    ensures { result ≡ is_among name.now (indices_of (map axis axes.now)) }
{
    let mut found = false;
    for other in axes {
        found |= *name == other.name;
    }
    found
}

/// An index stands twice among those of a FORALL. An `Err` is want of memory.
#[tactic(auto, using(crate::proofs::Repeats::repeats_from_start))]
fn repeats(alloc: Global, axes: &[Header]) -> Result<bool, AllocError>
    ensures { IfOk result (λ b. b ≡ repeats (indices_of (map axis axes.now))) }
{
    let mut seen: IndexSet<Name> = IndexSet::new(alloc);
    let mut twice = false;
    for other in axes {
        let added = seen.insert(other.name)?;
        twice |= !added;
    }
    Ok(twice)
}

/// A scalar variable.
fn is_scalar(what: Option<&Symbol>) -> bool
    ensures { result ≡ satisfies is_scalar (option_copied what.entry) }
{
    matches!(
        what,
        Some(Symbol::Uninitialized) | Some(Symbol::Initialized(_))
    )
}

/// A variable.
fn is_variable(what: Option<&Symbol>) -> bool
    ensures { result ≡ satisfies is_variable (option_copied what.entry) }
{
    match what {
        Some(Symbol::Uninitialized) | Some(Symbol::Initialized(_)) | Some(Symbol::Array(_, _, _)) =>
            true,
        _ => false,
    }
}

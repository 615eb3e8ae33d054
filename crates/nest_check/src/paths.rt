//! What the statements of a nest read, and what every path to them has assigned (HPF 2.0, 5.1). An `Err` is want of memory.

ghost use Rattle.std.specs.Prelude.{◌≡◌, Bool, true, false, [], ◌∷◌, map, option_map, IfOk, OnOk};
ghost use Rattle.std.specs.List.{filter, flat_map, list_all};
ghost use Rattle.hpf_base.specs.FirstBreach.{least};
ghost use Rattle.syntax_tree.specs.Expression.{expression};
ghost use Rattle.syntax_tree.specs.Statement.{arms_of, block_of, do_construct, independent, statement, variable};
ghost use Rattle.statement_walk.specs.Head as head;
ghost use Rattle.body_forms.specs.Axes.{axis_of};
ghost use Rattle.nest_check.specs.Gathering.{common_with_arm, reached_arm};
ghost use Rattle.nest_check.specs.NestRules.{may_be_read, path_breaches_at, subexpressions_after};
ghost use Rattle.nest_check.specs.Paths.{assigned_after, assigned_by, assigned_by_arms, common, reached, reached_heads, reached_in, reached_in_arms};

use crate::distinct_names::{add_scalar, copied};
use crate::nest_judge::refused_unless;
use crate::nest_names::NestNames;
use crate::nest_tests::Readable;
use body_forms::{all_pass, all_pass_subscripts, axis_passes};
use expression_rules::is_among;
use hpf_base::{Name, Refusal, earlier};
use std::alloc::{AllocError, Global};
use syntax_tree::{Arm, DoLoop, Expr, Ref, StatementKind, Stmt};

/// The first breach in the body of a nest of the rules of paths, where there is one.
pub(crate) fn first_bad_path(
    alloc: Global,
    names: &NestNames<'_>,
    stmts: &[Stmt],
) -> Result<Option<Refusal>, AllocError>
    ensures { IfOk result (λ r. r ≡ least (flat_map (path_breaches_at names.now) (reached_heads false [] (block_of stmts.now)))) }
{
    let mut assigned = Vec::new(alloc);
    let first = walk_paths(alloc, names, false, &mut assigned, stmts)?;
    Ok(first)
}

/// The first breach in statements, under an IF or not, after an assignment of these scalars; those that are assigned after them are added.
#[cycle(paths)]
fn walk_paths(
    alloc: Global,
    names: &NestNames<'_>,
    conditional: bool,
    assigned: &mut Vec<Name>,
    stmts: &[Stmt],
) -> Result<Option<Refusal>, AllocError>
    ensures after { OnOk result (assigned.new.items ≡ assigned_after assigned.old.items (block_of stmts.now)) }
    ensures first { IfOk result (λ r. r ≡ least (flat_map (path_breaches_at names.now) (reached_heads conditional assigned.old.items (block_of stmts.now)))) }
{
    let mut first = None;
    for stmt in stmts {
        let found = walk_statement(alloc, names, conditional, assigned, stmt)?;
        first = earlier(first, found);
    }
    Ok(first)
}

/// The first breach in one statement and those inside it, after an assignment of these scalars; those that are assigned after it
/// are added.
#[cycle(paths)]
fn walk_statement(
    alloc: Global,
    names: &NestNames<'_>,
    conditional: bool,
    assigned: &mut Vec<Name>,
    stmt: &Stmt,
) -> Result<Option<Refusal>, AllocError>
    ensures after { OnOk result (assigned.new.items ≡ assigned_by assigned.old.items (statement stmt.now.line stmt.now.what)) }
    ensures first { IfOk result (λ r. r ≡ least (flat_map (path_breaches_at names.now) (reached_in conditional assigned.old.items stmt.now.line
        (statement stmt.now.line stmt.now.what)))) }
{
    match &stmt.what {
        StatementKind::Assign { left, right } => {
            let found = in_assignment(names, conditional, assigned, stmt.line, left, right);
            add_scalar(assigned, left)?;
            Ok(found)
        }
        StatementKind::IfOne { cond, body } => {
            let tested = in_condition(names, assigned, stmt.line, cond);
            let mut own = copied(alloc, assigned)?;
            let inside = walk_statement(alloc, names, true, &mut own, body)?;
            keep_common(assigned, &own);
            Ok(earlier(tested, inside))
        }
        StatementKind::If { arms, rest, .. } => {
            let before = copied(alloc, assigned)?;
            match rest {
                None => {
                    let first = walk_arms(alloc, names, &before, assigned, arms)?;
                    Ok(first)
                }
                Some(stmts) => {
                    let last = walk_paths(alloc, names, true, assigned, stmts)?;
                    let first = walk_arms(alloc, names, &before, assigned, arms)?;
                    Ok(earlier(first, last))
                }
            }
        }
        StatementKind::Do(inner) => walk_do(alloc, names, conditional, assigned, stmt.line, inner),
        _ => Ok(None),
    }
}

/// The first breach in the arms of an IF. Of what is kept, that stays which is also assigned after each arm.
#[cycle(paths)]
fn walk_arms(
    alloc: Global,
    names: &NestNames<'_>,
    before: &[Name],
    kept: &mut Vec<Name>,
    arms: &[Arm],
) -> Result<Option<Refusal>, AllocError>
    ensures after { OnOk result (kept.new.items ≡ assigned_by_arms before.now kept.old.items (arms_of arms.now)) }
    ensures first { IfOk result (λ r. r ≡ least (flat_map (path_breaches_at names.now) (reached_in_arms before.now (arms_of arms.now)))) }
{
    let mut first = None;
    for arm in arms {
        let found = walk_arm(alloc, names, before, kept, arm)?;
        first = earlier(first, found);
    }
    Ok(first)
}

/// The first breach in one arm of an IF. Of what is kept, that stays which is also assigned after the arm.
#[cycle(paths)]
fn walk_arm(
    alloc: Global,
    names: &NestNames<'_>,
    before: &[Name],
    kept: &mut Vec<Name>,
    arm: &Arm,
) -> Result<Option<Refusal>, AllocError>
    ensures after { OnOk result (kept.new.items ≡ common_with_arm before.now kept.old.items arm.now) }
    ensures first { IfOk result (λ r. r ≡ least (flat_map (path_breaches_at names.now) (reached_arm before.now arm.now))) }
{
    let tested = in_condition(names, before, arm.line, &arm.cond);
    let mut own = copied(alloc, before)?;
    let inside = walk_paths(alloc, names, true, &mut own, &arm.body)?;
    keep_common(kept, &own);
    Ok(earlier(tested, inside))
}

/// The first breach in a loop, after which no more is assigned than before it.
#[cycle(paths)]
fn walk_do(
    alloc: Global,
    names: &NestNames<'_>,
    conditional: bool,
    assigned: &[Name],
    line: u32,
    inner: &DoLoop,
) -> Result<Option<Refusal>, AllocError>
    ensures { IfOk result (λ r. r ≡ least (flat_map (path_breaches_at names.now) (reached_in conditional assigned.now line (do_construct inner.now)))) }
{
    let found = in_axis(
        names,
        conditional,
        assigned,
        line,
        &inner.first,
        &inner.last,
        &inner.step,
    );
    let mut own = copied(alloc, assigned)?;
    let inside = walk_paths(alloc, names, conditional, &mut own, &inner.body)?;
    Ok(earlier(found, inside))
}

/// Keeps the names that are among others.
fn keep_common(names: &mut Vec<Name>, others: &[Name])
    ensures { names.new.items ≡ common names.old.items others.now }
{
    names.retain(|name| is_among(name, others));
}

/// The breach of an assignment alone. It takes no memory, as the next ones.
fn in_assignment(
    names: &NestNames<'_>,
    conditional: bool,
    assigned: &[Name],
    line: u32,
    left: &Ref,
    right: &Expr,
) -> Option<Refusal>
    ensures { result ≡ least (path_breaches_at names.now (reached conditional assigned.now line (head.Assignment (variable left.now) (expression right.now)))) }
{
    let test = Readable { names, assigned };
    let kept = subscripts_pass(names, assigned, left) && all_pass(&test, right);
    refused_unless(true, kept, line)
}

/// What stands in the subscripts of a variable may be read.
fn subscripts_pass(names: &NestNames<'_>, assigned: &[Name], left: &Ref) -> bool
    ensures { result ≡ list_all (may_be_read names.now assigned.now) (subexpressions_after (variable left.now).subscripts) }
{
    match &left.subs {
        None => true,
        Some(parts) => all_pass_subscripts(&Readable { names, assigned }, parts),
    }
}

/// The breach of a condition alone.
fn in_condition(names: &NestNames<'_>, assigned: &[Name], line: u32, cond: &Expr) -> Option<Refusal>
    ensures { result ≡ least (path_breaches_at names.now (reached true assigned.now line (head.Condition (expression cond.now)))) }
{
    let kept = all_pass(&Readable { names, assigned }, cond);
    refused_unless(true, kept, line)
}

/// The breach of a loop alone.
fn in_axis(
    names: &NestNames<'_>,
    conditional: bool,
    assigned: &[Name],
    line: u32,
    first: &Expr,
    last: &Expr,
    step: &Option<Expr>,
) -> Option<Refusal>
    ensures { result ≡ least (path_breaches_at names.now (reached conditional assigned.now line (head.Do None (axis_of first.now last.now step.now)))) }
{
    let test = Readable { names, assigned };
    let kept = !conditional && axis_passes(&test, first, last, step);
    refused_unless(true, kept, line)
}

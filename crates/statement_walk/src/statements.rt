//! A walk through the statements of a program, which asks a judge of each of them alone.

ghost use Rattle.std.specs.Prelude.{◌≡◌, List, [], ◌∷◌, map, option_map, IfOk, OnOk};
ghost use Rattle.std.specs.List.{flat_map};
ghost use Rattle.hpf_base.specs.declared.refusal.Refusal.{Refusal};
ghost use Rattle.syntax_tree.specs.Expression.{expression};
ghost use Rattle.syntax_tree.specs.Statement.{axis, block_of, do_construct, independent, statement};
ghost use Rattle.statement_walk.specs.Heads.{PlacedHead, all_heads, arm_heads, heads, indexed, independent_heads, masked, placed, statement_heads};
ghost use Rattle.hpf_base.specs.FirstBreach.{least};
ghost use Rattle.statement_walk.specs.Views.{arm_alone, elsewhere_of, head_of};
ghost use Rattle.syntax_tree.specs.Statement.{arms_of, assignments_in, assignments_of};

use hpf_base::{Name, Refusal, earlier};
use std::alloc::{AllocError, Global};
use syntax_tree::{Arm, DistSpec, DoLoop, Expr, Header, Item, Mark, Ref, StatementKind, Stmt};

/// What a statement says by itself, without the statements inside it.
#[derive(Clone, Copy)]
pub enum Head<'a> {
    Assignment(&'a Ref, &'a Expr),
    /// An assignment under the mask of a WHERE.
    MaskedAssignment(&'a Expr, &'a Ref, &'a Expr),
    /// An assignment of a FORALL with these indices.
    ForallAssignment(&'a [Header], &'a Ref, &'a Expr),
    /// The condition of an IF or ELSE IF.
    Condition(&'a Expr),
    /// INDEPENDENT.
    Independent(&'a Mark),
    /// A DO: its mark, its index, its first and last value, and its step.
    Do(&'a Option<Mark>, &'a Name, &'a Expr, &'a Expr, &'a Option<Expr>),
    /// The mask of a WHERE.
    Where(&'a Expr),
    /// The header of a FORALL.
    Forall(&'a [Header], &'a Option<Expr>),
    Print(&'a [Item]),
    /// STOP, EXIT or CYCLE.
    Transfer,
    Redistribute(&'a DistSpec),
}

/// Who judges statements one by one.
pub trait Judge {
    /// What is wrong with a statement.
    ghost breaches: { Self → PlacedHead → List Refusal };

    /// The first of what is wrong with the statement of a line, inside loops with these indices, outermost first.
    fn judge(
        &self,
        alloc: Global,
        line: u32,
        do_variables: &[Name],
        head: Head<'_>,
    ) -> Result<Option<Refusal>, AllocError>
        ensures { IfOk result (λ r. r ≡ least (breaches self.now (placed do_variables.now line (head_of head.entry)))) };
}

/// The first of what is wrong with statements that stand in no loop, and with those inside them; None exactly where nothing is. An `Err` is
/// want of memory.
pub fn first_bad<J: Judge>(
    alloc: Global,
    judge: &J,
    stmts: &[Stmt],
) -> Result<Option<Refusal>, AllocError>
    ensures { IfOk result (λ r. r ≡ least (flat_map (J.breaches judge.now) (all_heads (block_of stmts.now)))) }
{
    let mut do_variables = Vec::new(alloc);
    walk(alloc, judge, &mut do_variables, stmts)
}

/// The first of what is wrong with statements inside loops with these indices.
#[cycle(walk)]
fn walk<J: Judge>(
    alloc: Global,
    judge: &J,
    do_variables: &mut Vec<Name>,
    stmts: &[Stmt],
) -> Result<Option<Refusal>, AllocError>
    ensures kept { OnOk result (do_variables.new.items ≡ do_variables.old.items) }
    ensures first { IfOk result (λ r. r ≡ least (flat_map (J.breaches judge.now) (heads do_variables.old.items (block_of stmts.now)))) }
{
    let mut first = None;
    for stmt in stmts {
        let found = walk_one(alloc, judge, do_variables, stmt)?;
        first = earlier(first, found);
    }
    Ok(first)
}

/// The first of what is wrong with a statement and those inside it.
#[cycle(walk)]
fn walk_one<J: Judge>(
    alloc: Global,
    judge: &J,
    do_variables: &mut Vec<Name>,
    stmt: &Stmt,
) -> Result<Option<Refusal>, AllocError>
    ensures kept { OnOk result (do_variables.new.items ≡ do_variables.old.items) }
    ensures first { IfOk result (λ r. r ≡ least (flat_map (J.breaches judge.now) (statement_heads do_variables.old.items stmt.now.line (statement stmt.now.line stmt.now.what)))) }
{
    match &stmt.what {
        StatementKind::Assign { left, right } => {
            one(
                alloc,
                judge,
                stmt.line,
                do_variables,
                Head::Assignment(left, right),
            )
        }
        StatementKind::IfOne { cond, body } => {
            let tested = judge.judge(alloc, stmt.line, do_variables, Head::Condition(cond))?;
            let inside = walk_one(alloc, judge, do_variables, body)?;
            Ok(earlier(tested, inside))
        }
        StatementKind::If { arms, rest, .. } => {
            let first = walk_arms(alloc, judge, do_variables, arms)?;
            match rest {
                None => Ok(first),
                Some(stmts) => {
                    let last = walk(alloc, judge, do_variables, stmts)?;
                    Ok(earlier(first, last))
                }
            }
        }
        StatementKind::Do(inner) => {
            let first = walk_do(alloc, judge, do_variables, stmt.line, inner)?;
            Ok(first)
        }
        StatementKind::Where {
            mask,
            body,
            rest,
            ..
        } => {
            let masked = judge.judge(alloc, stmt.line, do_variables, Head::Where(mask))?;
            let first = walk_masked(alloc, judge, do_variables, mask, body)?;
            let last = walk_elsewhere(alloc, judge, do_variables, mask, rest)?;
            Ok(earlier(masked, earlier(first, last)))
        }
        StatementKind::Forall {
            axes,
            mask,
            body,
            ..
        } => {
            let indexed = judge.judge(alloc, stmt.line, do_variables, Head::Forall(axes, mask))?;
            let inside = walk_indexed(alloc, judge, do_variables, axes, body)?;
            Ok(earlier(indexed, inside))
        }
        StatementKind::Print(items) => one(
            alloc,
            judge,
            stmt.line,
            do_variables,
            Head::Print(items),
        ),
        StatementKind::Stop | StatementKind::Exit | StatementKind::Cycle => {
            one(alloc, judge, stmt.line, do_variables, Head::Transfer)
        }
        StatementKind::Continue => Ok(None),
        StatementKind::Redistribute(spec) => {
            one(
                alloc,
                judge,
                stmt.line,
                do_variables,
                Head::Redistribute(spec),
            )
        }
    }
}

/// The first of what is wrong with the arms of an IF and the statements inside them.
#[cycle(walk)]
fn walk_arms<J: Judge>(
    alloc: Global,
    judge: &J,
    do_variables: &mut Vec<Name>,
    arms: &[Arm],
) -> Result<Option<Refusal>, AllocError>
    ensures kept { OnOk result (do_variables.new.items ≡ do_variables.old.items) }
    ensures first { IfOk result (λ r. r ≡ least (flat_map (J.breaches judge.now) (arm_heads do_variables.old.items (arms_of arms.now)))) }
{
    let mut first = None;
    for arm in arms {
        let found = walk_arm(alloc, judge, do_variables, arm)?;
        first = earlier(first, found);
    }
    Ok(first)
}

/// The first of what is wrong with an arm of an IF and the statements inside it.
#[cycle(walk)]
fn walk_arm<J: Judge>(
    alloc: Global,
    judge: &J,
    do_variables: &mut Vec<Name>,
    arm: &Arm,
) -> Result<Option<Refusal>, AllocError>
    ensures kept { OnOk result (do_variables.new.items ≡ do_variables.old.items) }
    ensures first { IfOk result (λ r. r ≡ least (flat_map (J.breaches judge.now) (arm_alone do_variables.old.items arm.now))) }
{
    let tested = judge.judge(alloc, arm.line, do_variables, Head::Condition(&arm.cond))?;
    let inside = walk(alloc, judge, do_variables, &arm.body)?;
    Ok(earlier(tested, inside))
}

/// The first of what is wrong with the assignments under a mask.
fn walk_masked<J: Judge>(
    alloc: Global,
    judge: &J,
    do_variables: &[Name],
    mask: &Expr,
    stmts: &[Stmt],
) -> Result<Option<Refusal>, AllocError>
    ensures { IfOk result (λ r. r ≡ least (flat_map (J.breaches judge.now) (masked do_variables.now (expression mask.now) (assignments_of stmts.now)))) }
{
    let mut first = None;
    for stmt in stmts {
        let found = masked_one(alloc, judge, do_variables, mask, stmt)?;
        first = earlier(first, found);
    }
    Ok(first)
}

/// The first of what is wrong with a statement under a mask, which is something only where it is an assignment.
fn masked_one<J: Judge>(
    alloc: Global,
    judge: &J,
    do_variables: &[Name],
    mask: &Expr,
    stmt: &Stmt,
) -> Result<Option<Refusal>, AllocError>
    ensures { IfOk result (λ r. r ≡ least (flat_map (J.breaches judge.now) (masked do_variables.now (expression mask.now) (assignments_in stmt.now.line stmt.now.what)))) }
{
    match &stmt.what {
        StatementKind::Assign { left, right } => {
            let head = Head::MaskedAssignment(mask, left, right);
            one(alloc, judge, stmt.line, do_variables, head)
        }
        _ => Ok(None),
    }
}

/// The first of what is wrong with the assignments after an ELSEWHERE that may be there.
fn walk_elsewhere<J: Judge>(
    alloc: Global,
    judge: &J,
    do_variables: &[Name],
    mask: &Expr,
    rest: &Option<Vec<Stmt>>,
) -> Result<Option<Refusal>, AllocError>
    ensures { IfOk result (λ r. r ≡ least (flat_map (J.breaches judge.now) (masked do_variables.now (expression mask.now) (elsewhere_of rest.now)))) }
{
    match rest {
        None => Ok(None),
        Some(stmts) => walk_masked(alloc, judge, do_variables, mask, stmts),
    }
}

/// The first of what is wrong with the assignments of a FORALL.
fn walk_indexed<J: Judge>(
    alloc: Global,
    judge: &J,
    do_variables: &[Name],
    axes: &[Header],
    stmts: &[Stmt],
) -> Result<Option<Refusal>, AllocError>
    ensures { IfOk result (λ r. r ≡ least (flat_map (J.breaches judge.now) (indexed do_variables.now (map axis axes.now) (assignments_of stmts.now)))) }
{
    let mut first = None;
    for stmt in stmts {
        let found = indexed_one(alloc, judge, do_variables, axes, stmt)?;
        first = earlier(first, found);
    }
    Ok(first)
}

/// The first of what is wrong with a statement of a FORALL, which is something only where it is an assignment.
fn indexed_one<J: Judge>(
    alloc: Global,
    judge: &J,
    do_variables: &[Name],
    axes: &[Header],
    stmt: &Stmt,
) -> Result<Option<Refusal>, AllocError>
    ensures { IfOk result (λ r. r ≡ least (flat_map (J.breaches judge.now) (indexed do_variables.now (map axis axes.now) (assignments_in stmt.now.line stmt.now.what)))) }
{
    match &stmt.what {
        StatementKind::Assign { left, right } => {
            let head = Head::ForallAssignment(axes, left, right);
            one(alloc, judge, stmt.line, do_variables, head)
        }
        _ => Ok(None),
    }
}

/// The first of what is wrong with one statement alone.
fn one<J: Judge>(
    alloc: Global,
    judge: &J,
    line: u32,
    do_variables: &[Name],
    head: Head<'_>,
) -> Result<Option<Refusal>, AllocError>
    ensures { IfOk result (λ r. r ≡ least (flat_map (J.breaches judge.now) (placed do_variables.now line (head_of head.entry) ∷ []))) }
{
    judge.judge(alloc, line, do_variables, head)
}

/// The first of what is wrong with a DO and the statements inside it.
#[cycle(walk)]
fn walk_do<J: Judge>(
    alloc: Global,
    judge: &J,
    do_variables: &mut Vec<Name>,
    line: u32,
    inner: &DoLoop,
) -> Result<Option<Refusal>, AllocError>
    ensures kept { OnOk result (do_variables.new.items ≡ do_variables.old.items) }
    ensures first { IfOk result (λ r. r ≡ least (flat_map (J.breaches judge.now) (statement_heads do_variables.old.items line (do_construct inner.now)))) }
{
    let marked = marked(alloc, judge, do_variables, &inner.mark)?;
    let head = Head::Do(
        &inner.mark,
        &inner.index,
        &inner.first,
        &inner.last,
        &inner.step,
    );
    let looped = judge.judge(alloc, line, do_variables, head)?;
    do_variables.push(inner.index)?;
    let inside = walk(alloc, judge, do_variables, &inner.body)?;
    do_variables.pop();
    Ok(earlier(marked, earlier(looped, inside)))
}

/// The first of what is wrong with an INDEPENDENT that may be there.
fn marked<J: Judge>(
    alloc: Global,
    judge: &J,
    do_variables: &[Name],
    mark: &Option<Mark>,
) -> Result<Option<Refusal>, AllocError>
    ensures { IfOk result (λ r. r ≡ least (flat_map (J.breaches judge.now) (independent_heads do_variables.now (option_map independent mark.now)))) }
{
    match mark {
        None => Ok(None),
        Some(mark) => one(
            alloc,
            judge,
            mark.line,
            do_variables,
            Head::Independent(mark),
        ),
    }
}

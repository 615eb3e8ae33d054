//! Statements with their names resolved. An `Err` is want of memory here.

ghost use Rattle.std.specs.Prelude.{◌≡◌, [], None, IfOk};
ghost use Rattle.syntax_tree.specs.Expression.{expression};
ghost use Rattle.syntax_tree.specs.MainProgram.{main_program};
ghost use Rattle.syntax_tree.specs.Statement as syntax;
ghost use Rattle.array_meaning.specs.Statements as meaning;
ghost use Rattle.array_meaning.specs.Statements.{Done, If, NoArm, Then};
ghost use Rattle.array_meaning.specs.Resolution.{resolved, resolved_arms, resolved_block, term_of, with_inner_unmarked};
ghost use Rattle.program_plan.specs.Nests.{body_in, with_nest};
ghost use Rattle.resolved_program.specs.Resolved.{arms_of, block_of, statement};

use crate::array_statements::{forall, where_alone, where_else};
use crate::assignments::assignment;
use crate::controls::control;
use crate::expressions::term;
use crate::items::items;
use crate::named::place_of;
use crate::nests::nest_of;
use hpf_base::OutOfMemory;
use name_table::{Names, Program};
use resolved_program::{Action, Arm, Loop, Nest, ResolvedProgram, Statement};
use std::alloc::Global;
use syntax_tree::{DoLoop, Expr, StatementKind, Stmt};

/// The plan of a program, whether it keeps the rules or not: its statements in order, with its names resolved. A variable goes by its
/// place among `program.names` and an index of a FORALL by its place in the header, both from 0. A named constant, SIZE, LBOUND and
/// UBOUND are numbers, a whole array is the section of all its elements, and what a triplet leaves out stands there. Of a nest of
/// INDEPENDENT loops (HPF 2.0, 5.1) the outermost alone is marked. It takes memory; an `Err` is want of it.
pub fn plan(alloc: Global, program: &Program) -> Result<ResolvedProgram, OutOfMemory>
    ensures { IfOk result (λ p. block_of p.body.items ≡ resolved_block program.now.names (main_program program.now.tree).body) }
{
    let body = block(alloc, &program.names, &program.tree.body)?;
    Ok(ResolvedProgram { body })
}

/// The statements, in order.
#[cycle(block)]
pub(crate) fn block(
    alloc: Global,
    names: &Names,
    stmts: &[Stmt],
) -> Result<Vec<Statement>, OutOfMemory>
    ensures { IfOk result (λ b. block_of b.items ≡ resolved_block names.now (syntax.block_of stmts.now)) }
{
    let mut statements = Vec::new(alloc);
    for stmt in stmts {
        let what = action(alloc, names, stmt)?;
        statements.push(Statement {
            line: stmt.line,
            what,
        })?;
    }
    Ok(statements)
}

/// A statement.
#[cycle(block)]
fn action(alloc: Global, names: &Names, stmt: &Stmt) -> Result<Action, OutOfMemory>
    ensures { IfOk result (λ a. statement a ≡ resolved names.now (syntax.statement stmt.now.line stmt.now.what)) }
{
    match &stmt.what {
        StatementKind::Assign { left, right } => assignment(alloc, names, left, right),
        StatementKind::IfOne { cond, body } => {
            let what = action(alloc, names, body)?;
            if_one(alloc, names, stmt.line, cond, body.line, what)
        }
        StatementKind::If { arms, rest, .. } => {
            let arms = arms_of(alloc, names, arms)?;
            match rest {
                None => Ok(Action::If(arms, Vec::new(alloc))),
                Some(stmts) => Ok(Action::If(arms, block(alloc, names, stmts)?)),
            }
        }
        StatementKind::Do(inner) => {
            let nest = nest_of(alloc, names, inner)?;
            loop_with(alloc, names, nest, inner)
        }
        StatementKind::Where {
            mask,
            body,
            rest,
            ..
        } => match rest {
            None => where_alone(alloc, names, mask, body),
            Some(others) => where_else(alloc, names, mask, body, others),
        },
        StatementKind::Forall {
            axes,
            mask,
            body,
            ..
        } => forall(alloc, names, axes, mask, body),
        StatementKind::Print(listed) => Ok(Action::Print(items(alloc, names, listed)?)),
        StatementKind::Stop => Ok(Action::Stop),
        StatementKind::Exit => Ok(Action::Exit),
        StatementKind::Cycle => Ok(Action::Cycle),
        StatementKind::Continue => Ok(Action::Continue),
        StatementKind::Redistribute(_) => Ok(Action::Redistribute),
    }
}

/// A block of one statement.
fn one(alloc: Global, line: u32, what: Action) -> Result<Vec<Statement>, OutOfMemory>
    ensures { IfOk result (λ b. block_of b.items ≡ Then line (statement what) Done) }
{
    Ok(vec![in alloc; Statement { line, what }]?)
}

/// IF with its one action, which stands on a line of its own number.
fn if_one(
    alloc: Global,
    names: &Names,
    line: u32,
    cond: &Expr,
    action_line: u32,
    what: Action,
) -> Result<Action, OutOfMemory>
    ensures { IfOk result (λ a. statement a ≡ If (meaning.Arm line (term_of names.now [] (expression cond.now)) (Then action_line (statement what) Done) NoArm) Done) }
{
    let body = one(alloc, action_line, what)?;
    let condition = term(alloc, names, &[], cond)?;
    let arms = vec![in alloc;
        Arm {
            line,
            condition,
            body
        },
    ]?;
    Ok(Action::If(arms, Vec::new(alloc)))
}

/// IF and its ELSE IFs, in order.
#[cycle(block)]
fn arms_of(alloc: Global, names: &Names, arms: &[syntax_tree::Arm]) -> Result<Vec<Arm>, OutOfMemory>
    ensures { IfOk result (λ v. arms_of v.items ≡ resolved_arms names.now (syntax.arms_of arms.now)) }
{
    let mut planned = Vec::new(alloc);
    for arm in arms {
        let condition = term(alloc, names, &[], &arm.cond)?;
        let body = block(alloc, names, &arm.body)?;
        planned.push(Arm {
            line: arm.line,
            condition,
            body,
        })?;
    }
    Ok(planned)
}

/// A loop with this nest. No inner loop of a nest is marked.
#[cycle(block)]
fn loop_with(
    alloc: Global,
    names: &Names,
    nest: Option<Nest>,
    inner: &DoLoop,
) -> Result<Action, OutOfMemory>
    ensures { IfOk result (λ a. statement a ≡ with_nest nest (resolved names.now (syntax.do_construct inner.now))) }
{
    let control = control(alloc, names, &inner.first, &inner.last, &inner.step)?;
    let body = body_of(alloc, names, inner)?;
    let index = place_of(names, &inner.index);
    Ok(Action::Do(nest, Loop { index, control }, body))
}

/// The body of a loop.
#[cycle(block)]
fn body_of(alloc: Global, names: &Names, inner: &DoLoop) -> Result<Vec<Statement>, OutOfMemory>
    ensures { IfOk result (λ b. block_of b.items ≡ body_in (resolved names.now (syntax.do_construct inner.now))) }
{
    match &inner.mark {
        None => block(alloc, names, &inner.body),
        Some(_) => unmarked(alloc, names, &inner.body),
    }
}

/// The body of an INDEPENDENT loop: where that is one loop, it isn't marked.
#[cycle(block)]
fn unmarked(alloc: Global, names: &Names, stmts: &[Stmt]) -> Result<Vec<Statement>, OutOfMemory>
    ensures { IfOk result (λ b. block_of b.items ≡ with_inner_unmarked (resolved_block names.now (syntax.block_of stmts.now))) }
{
    if stmts.len() == 1 {
        let what = unmarked_action(alloc, names, &stmts[0])?;
        one(alloc, stmts[0].line, what)
    } else {
        block(alloc, names, stmts)
    }
}

/// A statement, unmarked where it is a loop.
#[cycle(block)]
fn unmarked_action(alloc: Global, names: &Names, stmt: &Stmt) -> Result<Action, OutOfMemory>
    ensures { IfOk result (λ a. statement a ≡ with_nest None (resolved names.now (syntax.statement stmt.now.line stmt.now.what))) }
{
    match &stmt.what {
        StatementKind::Do(inner) => loop_with(alloc, names, None, inner),
        _ => action(alloc, names, stmt),
    }
}

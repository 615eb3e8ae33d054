//! The names of a nest, gathered from its loops and from the statements in its body. An `Err` is want of memory.

ghost use Rattle.std.specs.Prelude.{◌≡◌, true, length, IsTrue, OnOk};
ghost use Rattle.syntax_tree.specs.Statement.{Done, Then, arms_of, block_of, do_construct, statement};
ghost use Rattle.statement_walk.specs.Nests.{nest_in};
ghost use Rattle.nest_check.specs.Gathering.{is_independent, is_one_loop, with_heads, with_nest};
ghost use Rattle.nest_check.specs.NestNames.{heads_in, heads_in_arms, inner_heads};

use crate::nest_names::NestNames;
use std::alloc::AllocError;
use syntax_tree::{Arm, DoLoop, StatementKind, Stmt};

/// With the loops of the nest that statements are, and those in its body.
#[cycle(loops)]
pub(crate) fn add_nest(names: &mut NestNames<'_>, stmts: &[Stmt]) -> Result<(), AllocError>
    ensures { OnOk result (names.new ≡ with_nest names.old (nest_in (block_of stmts.now))) }
{
    if is_one_loop(stmts) {
        add_loops(names, &stmts[0])?;
        Ok(())
    } else {
        add_statements(names, stmts)?;
        Ok(())
    }
}

/// With the loops of the nest that begins with one INDEPENDENT loop, and those in its body.
#[cycle(loops)]
fn add_loops(names: &mut NestNames<'_>, stmt: &Stmt) -> Result<(), AllocError>
    requires { is_independent (statement stmt.now.line stmt.now.what) ≡ true }
    ensures { OnOk result (names.new ≡ with_nest names.old (nest_in (Then stmt.now.line (statement stmt.now.line stmt.now.what) Done))) }
{
    match &stmt.what {
        StatementKind::Do(inner) => match &inner.mark {
            Some(mark) => {
                names.add_loop(inner.index, mark)?;
                add_nest(names, &inner.body)?;
                Ok(())
            }
            None => Ok(()),
        },
        _ => Ok(()),
    }
}

/// Statements are one INDEPENDENT loop and no more.
pub(crate) fn is_one_loop(stmts: &[Stmt]) -> bool
    ensures value { result ≡ is_one_loop (block_of stmts.now) }
    ensures one { IsTrue result → length stmts.now ≡ 1 }
{
    if stmts.len() == 1 {
        is_independent(&stmts[0])
    } else {
        false
    }
}

/// An INDEPENDENT loop.
fn is_independent(stmt: &Stmt) -> bool
    ensures { result ≡ is_independent (statement stmt.now.line stmt.now.what) }
{
    match &stmt.what {
        StatementKind::Do(inner) => is_marked(inner),
        _ => false,
    }
}

/// A loop is INDEPENDENT.
fn is_marked(inner: &DoLoop) -> bool
    ensures { result ≡ is_independent (do_construct inner.now) }
{
    match &inner.mark {
        None => false,
        Some(_) => true,
    }
}

/// With the statements of a body.
#[cycle(statements)]
fn add_statements(names: &mut NestNames<'_>, stmts: &[Stmt]) -> Result<(), AllocError>
    ensures { OnOk result (names.new ≡ with_heads names.old (inner_heads (block_of stmts.now))) }
{
    for stmt in stmts {
        add_statement(names, stmt)?;
    }
    Ok(())
}

/// With one statement and those inside it.
#[cycle(statements)]
fn add_statement(names: &mut NestNames<'_>, stmt: &Stmt) -> Result<(), AllocError>
    ensures { OnOk result (names.new ≡ with_heads names.old (heads_in (statement stmt.now.line stmt.now.what))) }
{
    match &stmt.what {
        StatementKind::Assign { left, right } => names.add_assignment(left, right),
        StatementKind::IfOne { body, .. } => add_statement(names, body),
        StatementKind::If { arms, rest, .. } => {
            add_arms(names, arms)?;
            match rest {
                None => Ok(()),
                Some(stmts) => {
                    add_statements(names, stmts)?;
                    Ok(())
                }
            }
        }
        StatementKind::Do(inner) => add_do(names, inner),
        _ => Ok(()),
    }
}

/// With the statements in the arms of an IF.
#[cycle(statements)]
fn add_arms(names: &mut NestNames<'_>, arms: &[Arm]) -> Result<(), AllocError>
    ensures { OnOk result (names.new ≡ with_heads names.old (heads_in_arms (arms_of arms.now))) }
{
    for arm in arms {
        add_statements(names, &arm.body)?;
    }
    Ok(())
}

/// With a loop in the body, and the statements inside it.
#[cycle(statements)]
fn add_do(names: &mut NestNames<'_>, inner: &DoLoop) -> Result<(), AllocError>
    ensures { OnOk result (names.new ≡ with_heads names.old (heads_in (do_construct inner.now))) }
{
    names.add_do_variable(inner.index)?;
    add_statements(names, &inner.body)?;
    Ok(())
}

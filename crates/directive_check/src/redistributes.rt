//! The REDISTRIBUTEs of a program, in the order of the text (HPF 2.0, 8.3).

ghost use Rattle.std.specs.Prelude.{◌≡◌, ◌++◌, List, IfOk, OnOk};
ghost use Rattle.syntax_tree.specs.Statement.{arms_of, block_of, statement};
ghost use Rattle.expression_rules.specs.Symbols.{Name};
ghost use Rattle.statement_walk.specs.Heads.{all_heads, arm_heads, heads, statement_heads};
ghost use Rattle.directive_check.specs.Redistributes.{redistributes, said};

use std::alloc::{AllocError, Global};
use syntax_tree::{Arm, DistSpec, StatementKind, Stmt};

/// A REDISTRIBUTE with the number of its line.
#[derive(Clone, Copy)]
pub(crate) struct Redistribute<'a> {
    pub(crate) line: u32,
    pub(crate) spec: &'a DistSpec,
}

/// Those among the statements. An `Err` is want of memory, here and below.
pub(crate) fn redistributes(
    alloc: Global,
    stmts: &[Stmt],
) -> Result<Vec<Redistribute<'_>>, AllocError>
    ensures { IfOk result (λ rs. said rs.items ≡ redistributes (all_heads (block_of stmts.now))) }
{
    let mut found = Vec::new(alloc);
    push_all(stmts, &mut found)?;
    Ok(found)
}

/// Those among the statements, after the others.
#[cycle(redistributes)]
fn push_all<'a>(stmts: &'a [Stmt], found: &mut Vec<Redistribute<'a>>) -> Result<(), AllocError>
    ensures { OnOk result ((xs : List Name) → said found.new.items ≡ said found.old.items ++ redistributes (heads xs (block_of stmts.now))) }
{
    for stmt in stmts {
        push_one(stmt, found)?;
    }
    Ok(())
}

/// That of a statement, and those inside it.
#[cycle(redistributes)]
fn push_one<'a>(stmt: &'a Stmt, found: &mut Vec<Redistribute<'a>>) -> Result<(), AllocError>
    ensures { OnOk result ((xs : List Name) → said found.new.items ≡ said found.old.items
        ++ redistributes (statement_heads xs stmt.now.line (statement stmt.now.line stmt.now.what))) }
{
    match &stmt.what {
        StatementKind::Redistribute(spec) => {
            found.push(Redistribute {
                line: stmt.line,
                spec,
            })?;
            Ok(())
        }
        StatementKind::IfOne { body, .. } => {
            push_one(body, found)?;
            Ok(())
        }
        StatementKind::Do(inner) => {
            push_all(&inner.body, found)?;
            Ok(())
        }
        StatementKind::If { arms, rest, .. } => {
            push_arms(arms, found)?;
            match rest {
                None => Ok(()),
                Some(stmts) => {
                    push_all(stmts, found)?;
                    Ok(())
                }
            }
        }
        StatementKind::Where { .. } => Ok(()),
        StatementKind::Forall { .. } => Ok(()),
        StatementKind::Assign { .. }
        | StatementKind::Print(_)
        | StatementKind::Stop
        | StatementKind::Exit
        | StatementKind::Cycle
        | StatementKind::Continue => Ok(()),
    }
}

/// Those inside the arms of an IF.
#[cycle(redistributes)]
fn push_arms<'a>(arms: &'a [Arm], found: &mut Vec<Redistribute<'a>>) -> Result<(), AllocError>
    ensures { OnOk result ((xs : List Name) → said found.new.items ≡ said found.old.items ++ redistributes (arm_heads xs (arms_of arms.now))) }
{
    for arm in arms {
        push_all(&arm.body, found)?;
    }
    Ok(())
}

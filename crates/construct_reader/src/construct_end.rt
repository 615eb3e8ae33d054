//! The ends of constructs.

ghost use Rattle.std.specs.Prelude.{◌≡◌, [], ◌∷◌, ◌++◌, true, Some, IfOk};
ghost use Rattle.syntax_tree.specs.Expression.{expression};
ghost use Rattle.construct_rules.specs.declared.role.Construct.TheVariants as construct;
ghost use Rattle.construct_rules.specs.ProgramLine.{OfStatement};
ghost use Rattle.construct_rules.specs.NestState.{takes_else};
ghost use Rattle.construct_reader.specs.declared.draft.Opened.TheVariants as opened;
ghost use Rattle.construct_reader.specs.Views.{spelled_if_blocks, spelled_block, spelled_statement};
ghost use Rattle.construct_reader.specs.Build.{are_begun};
ghost use Rattle.construct_reader.specs.Formed.{AreArms, IsBlock};
ghost use Rattle.construct_reader.specs.ProgramLines.{block_lines, else_if, if_lines};
ghost use Rattle.construct_reader.specs.Draft.{AreFinished, IsEnded, IsOpened, open_of};

use crate::build::{arm, branches, indexed, looped, masked};
use crate::draft::Opened;
use std::alloc::{AllocError, Global};
use syntax_tree::{Arm, Expr, Stmt};

/// The first arm of an IF, with its block.
fn first_arm(alloc: Global, line: u32, cond: Expr, block: Vec<Stmt>) -> Result<Vec<Arm>, AllocError>
    requires { IsBlock (spelled_block block.items) }
    ensures { IfOk result (λ v. AreFinished (opened.If line cond) (spelled_block block.items) line v.items) }
{
    Ok(vec![in alloc; arm(line, cond, block, false)]?)
}

/// One more arm of an IF, with its block.
fn next_arm(
    first: u32,
    mut arms: Vec<Arm>,
    line: u32,
    cond: Expr,
    glued: bool,
    block: Vec<Stmt>,
) -> Result<Vec<Arm>, AllocError>
    requires { IsOpened (opened.ElseIf first arms line cond glued) × IsBlock (spelled_block block.items) }
    ensures { IfOk result (λ v. AreFinished (opened.ElseIf first arms line cond glued) (spelled_block block.items) first v.items) }
{
    arms.push(arm(line, cond, block, glued))?;
    Ok(arms)
}

/// The arms of an IF before its ELSE or its END IF, and the number of its line.
pub(crate) fn finished(
    alloc: Global,
    what: Opened,
    block: Vec<Stmt>,
) -> Result<(u32, Vec<Arm>), AllocError>
    requires open { takes_else construct.If (open_of what ∷ []) ≡ true }
    requires sound { IsOpened what × IsBlock (spelled_block block.items) }
    ensures { IfOk result (λ r. AreFinished what (spelled_block block.items) r.0 r.1.items) }
{
    match what {
        Opened::If { line, cond } => Ok((line, first_arm(alloc, line, cond, block)?)),
        Opened::ElseIf {
            first,
            arms,
            line,
            cond,
            glued,
        } => Ok((first, next_arm(first, arms, line, cond, glued, block)?)),
        _ => unreachable!(),
    }
}

/// An open construct with its innermost block, and whether its END part is one word.
pub(crate) fn ended(
    alloc: Global,
    what: Opened,
    block: Vec<Stmt>,
    glued: bool,
) -> Result<Stmt, AllocError>
    requires sound { IsOpened what × IsBlock (spelled_block block.items) }
    ensures { IfOk result (λ s. IsEnded what (spelled_block block.items) glued (spelled_statement s)) }
{
    match what {
        Opened::Else { first, arms } => Ok(branches(first, arms, Some(block), glued)),
        Opened::Do { line, head, mark } => Ok(looped(line, head, mark, block, glued)),
        Opened::Where { line, mask } => Ok(masked(line, mask, block, None, glued)),
        Opened::ElseWhere { line, mask, body } => Ok(masked(line, mask, body, Some(block), glued)),
        Opened::Forall { line, head, marked } => Ok(indexed(line, head, block, glued, marked)),
        what => {
            let (first, arms) = finished(alloc, what, block)?;
            Ok(branches(first, arms, None, glued))
        }
    }
}

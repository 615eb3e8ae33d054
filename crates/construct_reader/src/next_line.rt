//! Statements and directives after a draft.

ghost use Rattle.std.specs.Prelude.{◌≡◌, IfOk};
ghost use Rattle.statement_reader.specs.Views as statement_views;
ghost use Rattle.directive_reader.specs.Views as directive_views;
ghost use Rattle.construct_rules.specs.ProgramLine.{line_of};
ghost use Rattle.construct_rules.specs.Roles.{directive_role, role_of, statement_role};
ghost use Rattle.construct_reader.specs.Draft.{IsAfter, IsDraft, Takes, status};
ghost use Rattle.construct_reader.specs.NextLine.{directive_line, statement_line};

use crate::draft::Draft;
use crate::draft_step::{
    close, else_if, elsewhere, finish, independent, open_do, open_forall, open_if, open_where,
    otherwise, take_action, take_if_one, take_redistribute,
};
use construct_rules::{LineContent, ProgramLine};
use directive_reader::DirectiveLine;
use statement_reader::Statement;
use std::alloc::{AllocError, Global};
use syntax_tree::{EndForm, Mark};

/// A statement after a draft.
fn statement(alloc: Global, draft: Draft, line: u32, what: Statement) -> Result<Draft, AllocError>
    requires sound { IsDraft draft }
    requires takes { Takes (status draft) (statement_role (statement_views.form_of what)) }
    ensures { IfOk result (λ d. IsAfter draft (statement_line line (statement_views.form_of what)) d) }
{
    match what {
        Statement::Action(action) => take_action(alloc, draft, line, action),
        Statement::IfOne { cond, action } => take_if_one(alloc, draft, line, cond, action),
        Statement::IfThen(cond) => open_if(alloc, draft, line, cond),
        Statement::ElseIf { cond, glued } => else_if(alloc, draft, line, cond, glued),
        Statement::Else => otherwise(alloc, draft, line),
        Statement::EndIf { glued } => close(alloc, draft, glued),
        Statement::Do(head) => open_do(alloc, draft, line, head),
        Statement::EndDo { glued } => close(alloc, draft, glued),
        Statement::Where(mask) => open_where(alloc, draft, line, mask),
        Statement::ElseWhere => elsewhere(alloc, draft, line),
        Statement::EndWhere { glued } => close(alloc, draft, glued),
        Statement::Forall(head) => open_forall(alloc, draft, line, head),
        Statement::EndForall { glued } => close(alloc, draft, glued),
        Statement::End { word, name } => Ok(finish(draft, EndForm { word, name, line })),
        Statement::Program(_)
        | Statement::ImplicitNone
        | Statement::Integer(_)
        | Statement::Parameter(_) => unreachable!(),
    }
}

/// A directive after a draft.
fn directive(draft: Draft, line: u32, what: DirectiveLine) -> Result<Draft, AllocError>
    requires sound { IsDraft draft }
    requires takes { Takes (status draft) (directive_role (directive_views.form_of what)) }
    ensures { IfOk result (λ d. IsAfter draft (directive_line line (directive_views.form_of what)) d) }
{
    match what {
        DirectiveLine::Redistribute(spec) => take_redistribute(draft, line, spec),
        DirectiveLine::Independent { new, reduction } => Ok(independent(
            draft,
            Mark {
                line,
                new,
                reduction,
            },
        )),
        DirectiveLine::Mapping(_) => unreachable!(),
    }
}

/// A line after a draft.
pub(crate) fn after(alloc: Global, draft: Draft, line: ProgramLine) -> Result<Draft, AllocError>
    requires sound { IsDraft draft }
    requires takes { Takes (status draft) (role_of (line_of line).what) }
    ensures { IfOk result (λ d. IsAfter draft (line_of line) d) }
{
    let ProgramLine { number, what } = line;
    match what {
        LineContent::Statement(what) => statement(alloc, draft, number, what),
        LineContent::Directive(what) => directive(draft, number, what),
    }
}

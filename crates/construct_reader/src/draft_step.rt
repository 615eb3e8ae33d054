//! Drafts, one line further.

ghost use Rattle.std.specs.Prelude.{◌≡◌, ℕ, [], ◌∷◌, ◌++◌, true, false, Some, None, IfOk, is_some};
ghost use Rattle.syntax_tree.specs.Expression.{expression};
ghost use Rattle.statement_reader.specs.declared.kind.Kind.TheVariants as kind;
ghost use Rattle.statement_reader.specs.Forms as statements;
ghost use Rattle.statement_reader.specs.Views.{action_of, do_of, forall_of};
ghost use Rattle.construct_rules.specs.declared.role.Construct.TheVariants as construct;
ghost use Rattle.construct_rules.specs.declared.role.Role.TheVariants as role;
ghost use Rattle.construct_rules.specs.Rules.{is_empty};
ghost use Rattle.construct_rules.specs.Roles.{plain_role, role_of};
ghost use Rattle.construct_reader.specs.Views.{spelled_block, spelled_statement};
ghost use Rattle.construct_reader.specs.Formed.{IsBlock, IsStatement};
ghost use Rattle.construct_reader.specs.ProgramLines.{else_if};
ghost use Rattle.construct_reader.specs.Draft.{AreOpen, IsAppended, IsAfter, IsDraft, IsNested, IsOpened, Takes, end_part, clauses_in, innermost, shape, status};
ghost use Rattle.construct_reader.specs.NextLine.{action_line, finish_line, if_line, independent_line, redistribute_line, statement_line, single_or_marked};

use crate::build::{if_one, marked_forall, redistributed, whole};
use crate::construct_end::{ended, finished};
use crate::draft::{Draft, Open, Opened};
use statement_reader::{Action, DoHead, ForallHead};
use std::alloc::{AllocError, Global};
use syntax_tree::{DistSpec, EndForm, Expr, Mark, Stmt};

/// A draft in which a construct has just been opened, after statements of the block round it.
fn nested(
    alloc: Global,
    mut opens: Vec<Open>,
    before: Vec<Stmt>,
    what: Opened,
) -> Result<Draft, AllocError>
    requires { AreOpen opens.items × IsBlock (spelled_block before.items) × IsOpened what }
    ensures { IfOk result (λ d. IsNested opens.items before.items what d) }
{
    opens.push(Open { before, what })?;
    Ok(Draft {
        opens,
        block: Vec::new(alloc),
        mark: None,
        end: None,
    })
}

/// A draft with one more statement.
fn appended(opens: Vec<Open>, mut block: Vec<Stmt>, stmt: Stmt) -> Result<Draft, AllocError>
    requires { AreOpen opens.items × IsBlock (spelled_block block.items) × IsStatement (spelled_statement stmt) }
    ensures { IfOk result (λ d. IsAppended opens.items block.items stmt d) }
{
    block.push(stmt)?;
    Ok(Draft {
        opens,
        block,
        mark: None,
        end: None,
    })
}

/// The innermost open construct, and the constructs round it.
fn innermost(mut opens: Vec<Open>) -> (Vec<Open>, Open)
    requires { is_empty (shape opens.items) ≡ false }
    ensures { opens.items ≡ result.0.items ++ result.1 ∷ [] }
{
    let Some(open) = opens.pop() else {
        unreachable!()
    };
    (opens, open)
}

/// A statement that is whole in its line, or FORALL with one assignment after INDEPENDENT.
fn single(alloc: Global, line: u32, marked: bool, action: Action) -> Result<Stmt, AllocError>
    requires { marked ≡ true → plain_role (action_of action).0 (action_of action).1 ≡ role.One construct.Forall }
    ensures { IfOk result (λ s. spelled_statement s ≡ single_or_marked marked (action_line line action)) }
{
    match action {
        Action::Forall { head, one } if marked => marked_forall(alloc, line, head, one),
        action => whole(alloc, line, action),
    }
}

/// A statement.
pub(crate) fn take_action(
    alloc: Global,
    draft: Draft,
    line: u32,
    action: Action,
) -> Result<Draft, AllocError>
    requires sound { IsDraft draft }
    requires takes { Takes (status draft) (role_of (action_line line action).what) }
    ensures { IfOk result (λ d. IsAfter draft (action_line line action) d) }
{
    let Draft {
        opens,
        block,
        mark,
        ..
    } = draft;
    let stmt = single(alloc, line, mark.is_some(), action)?;
    appended(opens, block, stmt)
}

/// IF with an action.
pub(crate) fn take_if_one(
    alloc: Global,
    draft: Draft,
    line: u32,
    cond: Expr,
    action: Action,
) -> Result<Draft, AllocError>
    requires sound { IsDraft draft }
    requires takes { Takes (status draft) (role_of (if_line line cond action).what) }
    ensures { IfOk result (λ d. IsAfter draft (if_line line cond action) d) }
{
    let Draft { opens, block, .. } = draft;
    let stmt = if_one(alloc, line, cond, action)?;
    appended(opens, block, stmt)
}

/// A REDISTRIBUTE.
pub(crate) fn take_redistribute(
    draft: Draft,
    line: u32,
    spec: DistSpec,
) -> Result<Draft, AllocError>
    requires sound { IsDraft draft }
    requires takes { Takes (status draft) role.Redistribute }
    ensures { IfOk result (λ d. IsAfter draft (redistribute_line line spec) d) }
{
    let Draft { opens, block, .. } = draft;
    appended(opens, block, redistributed(line, spec))
}

/// The first line of an IF construct.
pub(crate) fn open_if(
    alloc: Global,
    draft: Draft,
    line: u32,
    cond: Expr,
) -> Result<Draft, AllocError>
    requires sound { IsDraft draft }
    requires takes { Takes (status draft) (role.Opens construct.If) }
    ensures { IfOk result (λ d. IsAfter draft (statement_line line (statements.Plain kind.IfThen (expression cond))) d) }
{
    let Draft { opens, block, .. } = draft;
    nested(alloc, opens, block, Opened::If { line, cond })
}

/// The first line of a DO construct.
pub(crate) fn open_do(
    alloc: Global,
    draft: Draft,
    line: u32,
    head: DoHead,
) -> Result<Draft, AllocError>
    requires sound { IsDraft draft }
    requires takes { Takes (status draft) (role.Opens construct.Do) }
    ensures { IfOk result (λ d. IsAfter draft (statement_line line (statements.Plain kind.Do (do_of head))) d) }
{
    let Draft {
        opens,
        block,
        mark,
        ..
    } = draft;
    nested(alloc, opens, block, Opened::Do { line, head, mark })
}

/// The first line of a WHERE construct.
pub(crate) fn open_where(
    alloc: Global,
    draft: Draft,
    line: u32,
    mask: Expr,
) -> Result<Draft, AllocError>
    requires sound { IsDraft draft }
    requires takes { Takes (status draft) (role.Opens construct.Where) }
    ensures { IfOk result (λ d. IsAfter draft (statement_line line (statements.Plain kind.Where (expression mask, None))) d) }
{
    let Draft { opens, block, .. } = draft;
    nested(alloc, opens, block, Opened::Where { line, mask })
}

/// The first line of a FORALL construct.
pub(crate) fn open_forall(
    alloc: Global,
    draft: Draft,
    line: u32,
    head: ForallHead,
) -> Result<Draft, AllocError>
    requires sound { IsDraft draft }
    requires takes { Takes (status draft) (role.Opens construct.Forall) }
    ensures { IfOk result (λ d. IsAfter draft (statement_line line (statements.Plain kind.Forall (forall_of head, None))) d) }
{
    let Draft {
        opens,
        block,
        mark,
        ..
    } = draft;
    let marked = mark.is_some();
    nested(alloc, opens, block, Opened::Forall { line, head, marked })
}

/// ELSE IF.
pub(crate) fn else_if(
    alloc: Global,
    draft: Draft,
    line: u32,
    cond: Expr,
    glued: bool,
) -> Result<Draft, AllocError>
    requires sound { IsDraft draft }
    requires takes { Takes (status draft) role.ElseIf }
    ensures { IfOk result (λ d. IsAfter draft (statement_line line (else_if glued (expression cond))) d) }
{
    let Draft { opens, block, .. } = draft;
    let (opens, open) = innermost(opens);
    let Open { before, what } = open;
    let (first, arms) = finished(alloc, what, block)?;
    let what = Opened::ElseIf {
        first,
        arms,
        line,
        cond,
        glued,
    };
    nested(alloc, opens, before, what)
}

/// ELSE.
pub(crate) fn otherwise(alloc: Global, draft: Draft, line: u32) -> Result<Draft, AllocError>
    requires sound { IsDraft draft }
    requires takes { Takes (status draft) role.Else }
    ensures { IfOk result (λ d. IsAfter draft (statement_line line (statements.Plain kind.Else tt)) d) }
{
    let Draft { opens, block, .. } = draft;
    let (opens, open) = innermost(opens);
    let Open { before, what } = open;
    let (first, arms) = finished(alloc, what, block)?;
    nested(alloc, opens, before, Opened::Else { first, arms })
}

/// ELSEWHERE.
pub(crate) fn elsewhere(alloc: Global, draft: Draft, line: u32) -> Result<Draft, AllocError>
    requires sound { IsDraft draft }
    requires takes { Takes (status draft) role.ElseWhere }
    ensures { IfOk result (λ d. IsAfter draft (statement_line line (statements.Plain (kind.ElseWhere true) tt)) d) }
{
    let Draft { opens, block, .. } = draft;
    let (opens, open) = innermost(opens);
    let Open { before, what } = open;
    let Opened::Where { line, mask } = what else {
        unreachable!()
    };
    let what = Opened::ElseWhere {
        line,
        mask,
        body: block,
    };
    nested(alloc, opens, before, what)
}

/// The END part of the innermost open construct, and whether it is one word.
pub(crate) fn close(alloc: Global, draft: Draft, glued: bool) -> Result<Draft, AllocError>
    requires sound { IsDraft draft }
    requires takes { Takes (status draft) (role.Closes (innermost (status draft).opens)) }
    ensures { IfOk result (λ d. (n : ℕ) → IsAfter draft (statement_line n (end_part (innermost (status draft).opens) glued)) d) }
{
    let Draft { opens, block, .. } = draft;
    let (opens, open) = innermost(opens);
    let Open { before, what } = open;
    let stmt = ended(alloc, what, block, glued)?;
    appended(opens, before, stmt)
}

/// INDEPENDENT.
pub(crate) fn independent(draft: Draft, mark: Mark) -> Draft
    requires sound { IsDraft draft }
    requires takes { Takes (status draft) (role.Independent (clauses_in mark)) }
    ensures { IsAfter draft (independent_line mark) result }
{
    let Draft { opens, block, .. } = draft;
    Draft {
        opens,
        block,
        mark: Some(mark),
        end: None,
    }
}

/// END.
pub(crate) fn finish(draft: Draft, end: EndForm) -> Draft
    requires sound { IsDraft draft }
    requires takes { Takes (status draft) role.End }
    ensures { IsAfter draft (finish_line end) result }
{
    let Draft { opens, block, .. } = draft;
    Draft {
        opens,
        block,
        mark: None,
        end: Some(end),
    }
}

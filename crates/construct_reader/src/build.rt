//! Building statements and arms from what lines say.

ghost use Rattle.std.specs.Prelude.{◌≡◌, true, not, IfOk, Some, None, List, option_map};
ghost use Rattle.syntax_tree.specs.Expression.{expression};
ghost use Rattle.directive_reader.specs.declared.kind.Kind.TheVariants as directive;
ghost use Rattle.directive_reader.specs.Forms as directives;
ghost use Rattle.directive_reader.specs.Views.{distribution_of};
ghost use Rattle.statement_reader.specs.Views.{action_of, assignment_of, do_of, forall_of};
ghost use Rattle.construct_rules.specs.ProgramLine.{OfDirective};
ghost use Rattle.construct_reader.specs.NextLine.{redistribute_line};
ghost use Rattle.construct_reader.specs.SpelledProgram.{IfBlock, IfBlocks, IfConstruct, ForallConstruct, DoConstruct, WhereConstruct, SimpleStatement};
ghost use Rattle.construct_reader.specs.Views.{action_in, arm_before, spelled_if_blocks, spelled_block, forall_one, spelled_kind, spelled_independent, spelled_statement, where_one};
ghost use Rattle.construct_reader.specs.Build.{are_begun, arm_begins, forall_of_line, if_one_of, one_assignment, spelled_else_of, single_of};

use statement_reader::{Action, Assignment, DoHead, ForallHead};
use std::alloc::{AllocError, Global};
use syntax_tree::{Arm, DistSpec, DoLoop, Expr, Mark, StatementKind, Stmt};

/// A block that is one assignment.
fn one_assignment(alloc: Global, line: u32, one: Assignment) -> Result<Vec<Stmt>, AllocError>
    ensures { IfOk result (λ v. one_assignment line v.items ≡ Some (assignment_of one)) }
{
    let Assignment { left, right } = one;
    let what = StatementKind::Assign { left, right };
    Ok(vec![in alloc; Stmt { line, what }]?)
}

/// WHERE with one assignment.
#[tactic(auto, using(crate::proofs::Rows::one_hidden))]
fn where_one(
    alloc: Global,
    line: u32,
    mask: Expr,
    one: Assignment,
) -> Result<StatementKind, AllocError>
    ensures { IfOk result (λ k. action_in line k ≡ Some (where_one (expression mask) (assignment_of one))) }
{
    Ok(StatementKind::Where {
        mask,
        body: one_assignment(alloc, line, one)?,
        rest: None,
        one: true,
        glued: false,
    })
}

/// FORALL with one assignment.
#[tactic(auto, using(crate::proofs::Rows::one_hidden))]
fn forall_one(
    alloc: Global,
    line: u32,
    head: ForallHead,
    one: Assignment,
) -> Result<StatementKind, AllocError>
    ensures { IfOk result (λ k. action_in line k ≡ Some (forall_one (forall_of head) (assignment_of one))) }
{
    let ForallHead { axes, mask } = head;
    Ok(StatementKind::Forall {
        axes,
        mask,
        body: one_assignment(alloc, line, one)?,
        one: true,
        glued: false,
        marked: false,
    })
}

/// The action of an IF.
fn action_kind(alloc: Global, line: u32, action: Action) -> Result<StatementKind, AllocError>
    ensures { IfOk result (λ k. action_in line k ≡ Some (action_of action)) }
{
    match action {
        Action::Assign(Assignment { left, right }) => Ok(StatementKind::Assign { left, right }),
        Action::Where { mask, one } => where_one(alloc, line, mask, one),
        Action::Forall { head, one } => forall_one(alloc, line, head, one),
        Action::Print(items) => Ok(StatementKind::Print(items)),
        Action::Stop => Ok(StatementKind::Stop),
        Action::Exit => Ok(StatementKind::Exit),
        Action::Cycle => Ok(StatementKind::Cycle),
        Action::Continue => Ok(StatementKind::Continue),
    }
}

/// A statement that is whole in its line.
#[tactic(auto, using(crate::proofs::Rows::whole_kind))]
pub(crate) fn whole(alloc: Global, line: u32, action: Action) -> Result<Stmt, AllocError>
    ensures { IfOk result (λ s. spelled_statement s ≡ single_of line (action_of action)) }
{
    let what = action_kind(alloc, line, action)?;
    Ok(Stmt { line, what })
}

/// IF with an action.
pub(crate) fn if_one(
    alloc: Global,
    line: u32,
    cond: Expr,
    action: Action,
) -> Result<Stmt, AllocError>
    ensures { IfOk result (λ s. spelled_statement s ≡ if_one_of line (expression cond) (action_of action)) }
{
    let what = action_kind(alloc, line, action)?;
    let body = Box::new(alloc, Stmt { line, what })?;
    let what = StatementKind::IfOne { cond, body };
    Ok(Stmt { line, what })
}

/// FORALL with one assignment, where INDEPENDENT stands before it.
#[tactic(auto, using(crate::proofs::Rows::one_hidden))]
pub(crate) fn marked_forall(
    alloc: Global,
    line: u32,
    head: ForallHead,
    one: Assignment,
) -> Result<Stmt, AllocError>
    ensures { IfOk result (λ s. spelled_statement s ≡ forall_of_line true line (forall_of head) (assignment_of one)) }
{
    let ForallHead { axes, mask } = head;
    let body = one_assignment(alloc, line, one)?;
    let what = StatementKind::Forall {
        axes,
        mask,
        body,
        one: true,
        glued: false,
        marked: true,
    };
    Ok(Stmt { line, what })
}

/// An arm of an IF construct.
#[tactic(auto, using(crate::proofs::Rows::arm_rolled))]
pub(crate) fn arm(line: u32, cond: Expr, body: Vec<Stmt>, glued: bool) -> Arm
    ensures before { (arms : IfBlocks) → arm_before result arms ≡ IfBlock line (expression cond) (spelled_block body.items) glued arms }
    ensures begins { arm_begins line result ≡ not glued }
{
    Arm {
        line,
        cond,
        body,
        glued,
    }
}

/// The IF construct.
#[tactic(auto, using(crate::proofs::Rows::arms_hidden, crate::proofs::Rows::begun_hidden, crate::proofs::Rows::rest_hidden))]
pub(crate) fn branches(line: u32, arms: Vec<Arm>, rest: Option<Vec<Stmt>>, glued: bool) -> Stmt
    requires { are_begun line arms.items ≡ true }
    ensures { spelled_statement result ≡ IfConstruct (spelled_if_blocks arms.items) (spelled_else_of rest) glued }
{
    let what = StatementKind::If { arms, rest, glued };
    Stmt { line, what }
}

/// The DO construct.
#[tactic(auto, using(crate::proofs::Rows::loop_rolled))]
pub(crate) fn looped(
    line: u32,
    head: DoHead,
    mark: Option<Mark>,
    body: Vec<Stmt>,
    glued: bool,
) -> Stmt
    ensures { spelled_statement result ≡ DoConstruct (option_map spelled_independent mark) line (do_of head) (spelled_block body.items) glued }
{
    let DoHead {
        index,
        first,
        last,
        step,
    } = head;
    let what = StatementKind::Do(DoLoop {
        index,
        first,
        last,
        step,
        mark,
        body,
        glued,
    });
    Stmt { line, what }
}

/// The WHERE construct.
#[tactic(auto, using(crate::proofs::Rows::row_hidden, crate::proofs::Rows::rest_hidden))]
pub(crate) fn masked(
    line: u32,
    mask: Expr,
    body: Vec<Stmt>,
    rest: Option<Vec<Stmt>>,
    glued: bool,
) -> Stmt
    ensures { spelled_statement result ≡ WhereConstruct line (expression mask) (spelled_block body.items) (spelled_else_of rest) glued }
{
    let what = StatementKind::Where {
        mask,
        body,
        rest,
        one: false,
        glued,
    };
    Stmt { line, what }
}

/// The FORALL construct.
#[tactic(auto, using(crate::proofs::Rows::row_hidden))]
pub(crate) fn indexed(
    line: u32,
    head: ForallHead,
    body: Vec<Stmt>,
    glued: bool,
    marked: bool,
) -> Stmt
    ensures { spelled_statement result ≡ ForallConstruct marked line (forall_of head) (spelled_block body.items) glued }
{
    let ForallHead { axes, mask } = head;
    let what = StatementKind::Forall {
        axes,
        mask,
        body,
        one: false,
        glued,
        marked,
    };
    Stmt { line, what }
}

/// A REDISTRIBUTE.
pub(crate) fn redistributed(line: u32, spec: DistSpec) -> Stmt
    ensures { spelled_statement result ≡ SimpleStatement (redistribute_line line spec) }
{
    Stmt {
        line,
        what: StatementKind::Redistribute(spec),
    }
}

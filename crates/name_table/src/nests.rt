//! Nests of INDEPENDENT loops that are too deep (HPF 2.0, 5.1).

ghost use Rattle.std.specs.Prelude.{◌≡◌, None, option_map, slice_get};
ghost use Rattle.std.specs.List.{flat_map};
ghost use Rattle.hpf_base.specs.FirstBreach.{least};
ghost use Rattle.hpf_base.specs.declared.refusal.Reason.TheVariants.{Limit};
ghost use Rattle.syntax_tree.specs.Statement.{Done, Then, arms_of, block_of, do_construct, statement};
ghost use Rattle.name_table.specs.NameRules.{nest_breaches};
ghost use Rattle.statement_walk.specs.Nests.{arm_nests, nest_in, nests, statement_nests};

use crate::limits::MAX_INDICES;
use hpf_base::{Reason, Refusal, earlier};
use syntax_tree::{Arm, DoLoop, StatementKind, Stmt};

/// The first nest with a loop too many, where there is one: the line of the first such loop. It takes no memory.
#[cycle(nests)]
pub(crate) fn first_deep_nest(stmts: &[Stmt]) -> Option<Refusal>
    ensures { result ≡ least (flat_map nest_breaches (nests (block_of stmts.now))) }
{
    let mut first = None;
    for stmt in stmts {
        first = earlier(first, deep_nest_of(stmt));
    }
    first
}

/// The first nest with a loop too many in one statement and those inside it.
#[cycle(nests)]
fn deep_nest_of(stmt: &Stmt) -> Option<Refusal>
    ensures { result ≡ least (flat_map nest_breaches (statement_nests stmt.now.line (statement stmt.now.line stmt.now.what))) }
{
    match &stmt.what {
        StatementKind::IfOne { body, .. } => deep_nest_of(body),
        StatementKind::If { arms, rest, .. } => {
            let first = deep_nest_of_arms(arms);
            match rest {
                None => first,
                Some(stmts) => earlier(first, first_deep_nest(stmts)),
            }
        }
        StatementKind::Do(inner) => deep_nest_of_do(stmt.line, inner),
        _ => None,
    }
}

/// The first nest with a loop too many in the arms of an IF.
#[cycle(nests)]
fn deep_nest_of_arms(arms: &[Arm]) -> Option<Refusal>
    ensures { result ≡ least (flat_map nest_breaches (arm_nests (arms_of arms.now))) }
{
    let mut first = None;
    for arm in arms {
        first = earlier(first, first_deep_nest(&arm.body));
    }
    first
}

/// The first nest with a loop too many in a DO, which begins a nest where it is INDEPENDENT.
#[cycle(nests)]
fn deep_nest_of_do(line: u32, inner: &DoLoop) -> Option<Refusal>
    ensures { result ≡ least (flat_map nest_breaches (statement_nests line (do_construct inner.now))) }
{
    match &inner.mark {
        None => first_deep_nest(&inner.body),
        Some(_) => past_limit(loop_of_do(line, inner, MAX_INDICES)),
    }
}

/// The breach of the loop of a line that there may be.
fn past_limit(line: Option<u32>) -> Option<Refusal>
    ensures { result ≡ option_map (λ l. record { line = l; reason = Limit }) line }
{
    match line {
        None => None,
        Some(line) => Some(Refusal {
            line,
            reason: Reason::Limit,
        }),
    }
}

/// The line of the loop at a place of the nest that these statements are the whole body of, where there is one. Places are
/// counted from 0, the outermost loop first.
#[cycle(loops)]
fn loop_of(stmts: &[Stmt], place: usize) -> Option<u32>
    ensures { result ≡ option_map (λ l. l.line) (slice_get (nest_in (block_of stmts.now)).loops place) }
{
    if stmts.len() == 1 {
        loop_of_one(&stmts[0], place)
    } else {
        None
    }
}

/// The line of the loop at a place of the nest that this statement is the whole body of, where there is one.
#[cycle(loops)]
fn loop_of_one(stmt: &Stmt, place: usize) -> Option<u32>
    ensures { result ≡ option_map (λ l. l.line) (slice_get (nest_in (Then stmt.now.line (statement stmt.now.line stmt.now.what) Done)).loops place) }
{
    match &stmt.what {
        StatementKind::Do(inner) => loop_of_do(stmt.line, inner, place),
        _ => None,
    }
}

/// The line of the loop at a place of the nest that begins with this DO, where it is INDEPENDENT and there is such a loop.
#[cycle(loops)]
fn loop_of_do(line: u32, inner: &DoLoop, place: usize) -> Option<u32>
    ensures { result ≡ option_map (λ l. l.line) (slice_get (nest_in (Then line (do_construct inner.now) Done)).loops place) }
{
    match &inner.mark {
        None => None,
        Some(_) => if place == 0 {
            Some(line)
        } else {
            loop_of(&inner.body, place - 1)
        },
    }
}

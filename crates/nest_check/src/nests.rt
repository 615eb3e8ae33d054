//! The rules of nests over all statements of a program (HPF 2.0, 5.1). An `Err` is want of memory.

ghost use Rattle.hpf_base.specs.declared.refusal.Reason.TheVariants as reason;
ghost use Rattle.declarations.specs.Reasons.{at, when};
ghost use Rattle.std.specs.Prelude.{◌≡◌, ◌++◌, ◌&&◌, not, true, option_map, IfOk};
ghost use Rattle.std.specs.List.{flat_map};
ghost use Rattle.hpf_base.specs.FirstBreach.{least};
ghost use Rattle.syntax_tree.specs.Statement.{Done, Then, arms_of, block_of, do_construct, independent, statement};
ghost use Rattle.statement_walk.specs.Nests.{arm_nests, nest_in, nests, statement_nests};
ghost use Rattle.nest_check.specs.Gathering.{axis_in, breaches_inside, is_independent, loop_of, nest_of};
ghost use Rattle.nest_check.specs.NestNames.{constant_symbols};
ghost use Rattle.nest_check.specs.NestRules.{axis_breaches, body_part_breaches, inner_loop_breaches, list_breaches, nest_breaches};

use crate::constant_symbols::constant_symbols;
use crate::gathering::{add_nest, is_one_loop};
use crate::inner_axes::is_axis_allowed;
use crate::nest_judge::{first_bad_statement, refused_unless};
use crate::nest_lists::are_well_listed;
use crate::nest_names::NestNames;
use crate::nest_tests::{LinearSubscripts, Readable};
use crate::paths::first_bad_path;
use body_forms::axis_passes;
use expression_rules::SymbolTable;
use hpf_base::{Refusal, earlier};
use name_table::Names;
use std::alloc::{AllocError, Global};
use syntax_tree::{Arm, DoLoop, Mark, StatementKind, Stmt};

/// The first breach of the rules of nests in statements, where there is one, under these declared names. Its line is that of the statement or, for the
/// NEW and REDUCTION lists, of the directive; its reason is `BadSubscript` for subscripts that aren't linear in at most one index, else `BadIndependent`.
pub fn first_bad_nest(
    alloc: Global,
    declared: &Names,
    stmts: &[Stmt],
) -> Result<Option<Refusal>, AllocError>
    ensures { IfOk result (λ r. r ≡ least (flat_map (nest_breaches declared.now) (nests (block_of stmts.now)))) }
{
    let constants = constant_symbols(alloc, declared)?;
    let first = first_in_nests(alloc, declared, &constants, stmts)?;
    Ok(first)
}

/// The first breach of the rules of nests in statements, where the constants and arrays among the declared names are given.
#[cycle(nests)]
fn first_in_nests(
    alloc: Global,
    declared: &Names,
    constants: &SymbolTable,
    stmts: &[Stmt],
) -> Result<Option<Refusal>, AllocError>
    requires { constants.now ≡ constant_symbols declared.now }
    ensures { IfOk result (λ r. r ≡ least (flat_map (nest_breaches declared.now) (nests (block_of stmts.now)))) }
{
    let mut first = None;
    for stmt in stmts {
        let found = bad_nest_of(alloc, declared, constants, stmt)?;
        first = earlier(first, found);
    }
    Ok(first)
}

/// The first breach of the rules of nests in one statement and those inside it.
#[cycle(nests)]
fn bad_nest_of(
    alloc: Global,
    declared: &Names,
    constants: &SymbolTable,
    stmt: &Stmt,
) -> Result<Option<Refusal>, AllocError>
    requires { constants.now ≡ constant_symbols declared.now }
    ensures { IfOk result (λ r. r ≡ least (flat_map (nest_breaches declared.now) (statement_nests stmt.now.line (statement stmt.now.line stmt.now.what)))) }
{
    match &stmt.what {
        StatementKind::IfOne { body, .. } => bad_nest_of(alloc, declared, constants, body),
        StatementKind::If { arms, rest, .. } => {
            let first = bad_nest_of_arms(alloc, declared, constants, arms)?;
            match rest {
                None => Ok(first),
                Some(stmts) => {
                    let last = first_in_nests(alloc, declared, constants, stmts)?;
                    Ok(earlier(first, last))
                }
            }
        }
        StatementKind::Do(inner) => bad_nest_of_do(alloc, declared, constants, stmt.line, inner),
        _ => Ok(None),
    }
}

/// The first breach of the rules of nests in the arms of an IF.
#[cycle(nests)]
fn bad_nest_of_arms(
    alloc: Global,
    declared: &Names,
    constants: &SymbolTable,
    arms: &[Arm],
) -> Result<Option<Refusal>, AllocError>
    requires { constants.now ≡ constant_symbols declared.now }
    ensures { IfOk result (λ r. r ≡ least (flat_map (nest_breaches declared.now) (arm_nests (arms_of arms.now)))) }
{
    let mut first = None;
    for arm in arms {
        let found = first_in_nests(alloc, declared, constants, &arm.body)?;
        first = earlier(first, found);
    }
    Ok(first)
}

/// The first breach of the rules of nests in a DO, which begins a nest where it is INDEPENDENT.
#[cycle(nests)]
fn bad_nest_of_do(
    alloc: Global,
    declared: &Names,
    constants: &SymbolTable,
    line: u32,
    inner: &DoLoop,
) -> Result<Option<Refusal>, AllocError>
    requires { constants.now ≡ constant_symbols declared.now }
    ensures { IfOk result (λ r. r ≡ least (flat_map (nest_breaches declared.now) (statement_nests line (do_construct inner.now)))) }
{
    match &inner.mark {
        None => {
            let found = first_in_nests(alloc, declared, constants, &inner.body)?;
            Ok(found)
        }
        Some(mark) => {
            let found = first_in_nest(alloc, declared, constants, line, mark, inner)?;
            Ok(found)
        }
    }
}

/// The first breach in the nest of an INDEPENDENT loop with this mark.
fn first_in_nest(
    alloc: Global,
    declared: &Names,
    constants: &SymbolTable,
    _line: u32,
    mark: &Mark,
    outermost: &DoLoop,
) -> Result<Option<Refusal>, AllocError>
    requires { constants.now ≡ constant_symbols declared.now }
    ensures { IfOk result (λ r. r ≡ least (nest_breaches declared.now (nest_of _line mark.now outermost.now))) }
{
    let mut names = NestNames::new(alloc, declared, constants);
    names.add_loop(outermost.index, mark)?;
    add_nest(&mut names, &outermost.body)?;
    let listed = first_in_lists(alloc, &names, mark)?;
    let inside = first_inside(alloc, &names, &outermost.body)?;
    Ok(earlier(listed, inside))
}

/// The breach of the lists of a loop.
fn first_in_lists(
    alloc: Global,
    names: &NestNames<'_>,
    mark: &Mark,
) -> Result<Option<Refusal>, AllocError>
    ensures { IfOk result (λ r. r ≡ least (list_breaches names.now (independent mark.now))) }
{
    let kept = are_well_listed(alloc, names, mark)?;
    Ok(refused_unless(true, kept, mark.line))
}

/// The first breach in what stands in a loop of a nest: in the further loops, or in the body.
#[cycle(inside)]
fn first_inside(
    alloc: Global,
    names: &NestNames<'_>,
    stmts: &[Stmt],
) -> Result<Option<Refusal>, AllocError>
    ensures { IfOk result (λ r. r ≡ least (breaches_inside names.now (nest_in (block_of stmts.now)))) }
{
    if is_one_loop(stmts) {
        let found = first_in_loops(alloc, names, &stmts[0])?;
        Ok(found)
    } else {
        let found = first_in_body(alloc, names, stmts)?;
        Ok(found)
    }
}

/// The first breach in one further loop of a nest: of that loop alone, or in what stands in it.
#[cycle(inside)]
fn first_in_loops(
    alloc: Global,
    names: &NestNames<'_>,
    stmt: &Stmt,
) -> Result<Option<Refusal>, AllocError>
    requires { is_independent (statement stmt.now.line stmt.now.what) ≡ true }
    ensures { IfOk result (λ r. r ≡ least (breaches_inside names.now (nest_in (Then stmt.now.line (statement stmt.now.line stmt.now.what) Done)))) }
{
    match &stmt.what {
        StatementKind::Do(inner) => match &inner.mark {
            Some(mark) => {
                let own = first_in_loop(alloc, names, stmt.line, mark, inner)?;
                let inside = first_inside(alloc, names, &inner.body)?;
                Ok(earlier(own, inside))
            }
            None => Ok(None),
        },
        _ => Ok(None),
    }
}

/// The first breach of a further loop alone.
fn first_in_loop(
    alloc: Global,
    names: &NestNames<'_>,
    line: u32,
    mark: &Mark,
    inner: &DoLoop,
) -> Result<Option<Refusal>, AllocError>
    ensures { IfOk result (λ r. r ≡ least (inner_loop_breaches names.now (loop_of line mark.now inner.now))) }
{
    let listed = first_in_lists(alloc, names, mark)?;
    let bounds = first_in_axis(alloc, names, line, inner)?;
    Ok(earlier(listed, bounds))
}

/// The first breach of its bounds and its step.
fn first_in_axis(
    alloc: Global,
    names: &NestNames<'_>,
    line: u32,
    inner: &DoLoop,
) -> Result<Option<Refusal>, AllocError>
    ensures { IfOk result (λ r. r ≡ least (axis_breaches names.now line (axis_in inner.now))) }
{
    let body = names.body_names();
    let linear = axis_passes(
        &LinearSubscripts { names: &body },
        &inner.first,
        &inner.last,
        &inner.step,
    );
    let allowed = is_axis_allowed(alloc, names, &[], &inner.first, &inner.last, &inner.step)?;
    let test = Readable {
        names,
        assigned: &[],
    };
    let readable = axis_passes(&test, &inner.first, &inner.last, &inner.step);
    Ok(axis_refused_unless(linear, allowed, readable, line))
}

/// The first breach in the body of a nest.
fn first_in_body(
    alloc: Global,
    names: &NestNames<'_>,
    stmts: &[Stmt],
) -> Result<Option<Refusal>, AllocError>
    ensures { IfOk result (λ r. r ≡ least (body_part_breaches names.now (block_of stmts.now))) }
{
    let first = first_bad_statement(alloc, names, stmts)?;
    let last = first_bad_path(alloc, names, stmts)?;
    Ok(earlier(first, last))
}

/// The breach at a line where subscripts aren't linear, or else one of two other rules isn't kept.
fn axis_refused_unless(linear: bool, allowed: bool, readable: bool, line: u32) -> Option<Refusal>
    ensures { result ≡ least (at line (when (not linear) reason.BadSubscript ++ when (not (allowed && readable)) reason.BadIndependent)) }
{
    refused_unless(linear, allowed && readable, line)
}

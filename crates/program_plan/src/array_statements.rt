//! WHERE and FORALL with their names resolved (Fortran 95, 7.5.3 and 7.5.4). An `Err` is want of memory here.

ghost use Rattle.std.specs.Prelude.{◌≡◌, [], map, option_map, IfOk};
ghost use Rattle.syntax_tree.specs.Expression.{expression};
ghost use Rattle.syntax_tree.specs.Statement.{assignments_of, axis};
ghost use Rattle.syntax_tree.specs.Statement as syntax;
ghost use Rattle.array_meaning.specs.Statements.{Where};
ghost use Rattle.array_meaning.specs.Resolution.{resolved, section_assignments, term_of};
ghost use Rattle.resolved_program.specs.Resolved.{statement, term};

use crate::assignments::{element_assignments, section_assignments};
use crate::controls::{controls, indices};
use crate::expressions::term;
use hpf_base::{Name, OutOfMemory};
use name_table::Names;
use resolved_program::{Action, Term};
use std::alloc::Global;
use syntax_tree::{Expr, Header, Stmt};

/// WHERE without ELSEWHERE.
pub(crate) fn where_alone(
    alloc: Global,
    names: &Names,
    mask: &Expr,
    body: &[Stmt],
) -> Result<Action, OutOfMemory>
    ensures { IfOk result (λ a. statement a ≡ Where (term_of names.now [] (expression mask.now)) (section_assignments names.now (assignments_of body.now)) []) }
{
    let mask = term(alloc, names, &[], mask)?;
    let body = section_assignments(alloc, names, body)?;
    Ok(Action::Where(mask, body, Vec::new(alloc)))
}

/// WHERE with ELSEWHERE.
pub(crate) fn where_else(
    alloc: Global,
    names: &Names,
    mask: &Expr,
    body: &[Stmt],
    others: &[Stmt],
) -> Result<Action, OutOfMemory>
    ensures { IfOk result (λ a. statement a ≡ Where (term_of names.now [] (expression mask.now)) (section_assignments names.now (assignments_of body.now)) (section_assignments names.now (assignments_of others.now))) }
{
    let mask = term(alloc, names, &[], mask)?;
    let body = section_assignments(alloc, names, body)?;
    let others = section_assignments(alloc, names, others)?;
    Ok(Action::Where(mask, body, others))
}

/// FORALL.
pub(crate) fn forall(
    alloc: Global,
    names: &Names,
    axes: &[Header],
    mask: &Option<Expr>,
    body: &[Stmt],
) -> Result<Action, OutOfMemory>
    ensures { IfOk result (λ a. statement a ≡ resolved names.now (syntax.Forall (map axis axes.now) (option_map expression mask.now) (assignments_of body.now))) }
{
    let indices = indices(alloc, axes)?;
    let controls = controls(alloc, names, axes)?;
    let mask = mask_of(alloc, names, &indices, mask)?;
    let assignments = element_assignments(alloc, names, &indices, body)?;
    Ok(Action::Forall(controls, mask, assignments))
}

/// The mask of a FORALL, if there is one.
fn mask_of(
    alloc: Global,
    names: &Names,
    indices: &[Name],
    mask: &Option<Expr>,
) -> Result<Option<Term>, OutOfMemory>
    ensures { IfOk result (λ m. option_map term m ≡ option_map (term_of names.now indices.now) (option_map expression mask.now)) }
{
    match mask {
        None => Ok(None),
        Some(e) => {
            let t = term(alloc, names, indices, e)?;
            Ok(Some(t))
        }
    }
}

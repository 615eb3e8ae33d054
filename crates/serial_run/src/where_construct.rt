//! WHERE (Fortran 95, 7.5.3).

ghost use Rattle.std.specs.Prelude.{◌≡◌, IfErr, IfOk, Ok, map};
ghost use Rattle.array_meaning.specs.ArrayAssignments.{assign_all_where, assign_where, run_where};
ghost use Rattle.array_meaning.specs.Runs.{one_step};
ghost use Rattle.resolved_program.specs.Resolved.{section_assignment, term};
ghost use Rattle.term_values.specs.States.{state_of};
ghost use Rattle.term_values.specs.Stops.{IsStop};
ghost use Rattle.term_values.specs.Views.{array_value_of};
ghost use Rattle.serial_run.specs.Completions.{IsRun};
ghost use Rattle.serial_run.specs.SectionStores.{branch_mask};
ghost use Rattle.serial_run.specs.WhereConstruct.{mask_value, run_branches};

use crate::completion::{Completion, ended, faulted};
use crate::section_assignments::assign_where;
use crate::section_stores::{Branch, Space};
use resolved_program::{SectionAssignment, Term};
use std::alloc::AllocError;
use term_values::{ArrayValue, State, Stop, array_value, elemental_of};

/// Runs a WHERE.
#[inline(never)]
pub(crate) fn run_where(
    s: &mut State,
    line: u32,
    mask: &Term,
    body: &Vec<SectionAssignment>,
    others: &Vec<SectionAssignment>,
) -> Result<Completion, AllocError>
    ensures { IfOk result (IsRun (run_where line (term mask.now) (map section_assignment body.now.items) (map section_assignment others.now.items) (state_of s.old)) (state_of s.new)) }
{
    match mask_value(s, mask) {
        Ok(m) => run_branches(s, &m, body, others),
        Err(stop) => faulted(line, stop),
    }
}

/// The value of a mask, which is evaluated once.
fn mask_value(s: &State, mask: &Term) -> Result<ArrayValue, Stop>
    ensures value { IfOk result (λ m. mask_value (term mask.now) (state_of s.now) ≡ Ok (array_value_of m)) }
    ensures stopped { IfErr result (IsStop (mask_value (term mask.now) (state_of s.now))) }
{
    let x = elemental_of(s, &[], mask)?;
    let m = array_value(s, &x)?;
    Ok(m)
}

/// Runs the assignments where the mask is true, and then those of ELSEWHERE where it is false.
fn run_branches(
    s: &mut State,
    mask: &ArrayValue,
    body: &Vec<SectionAssignment>,
    others: &Vec<SectionAssignment>,
) -> Result<Completion, AllocError>
    ensures { IfOk result (IsRun (run_branches (array_value_of mask.now) (map section_assignment body.now.items) (map section_assignment others.now.items) (state_of s.old)) (state_of s.new)) }
{
    let space = Space {
        extents: &mask.extents,
        branch: Branch::Where,
        mask: &mask.elements,
    };
    match assign_all_where(s, space, body)? {
        Completion::Normal => {
            let space = Space {
                extents: &mask.extents,
                branch: Branch::Elsewhere,
                mask: &mask.elements,
            };
            assign_all_where(s, space, others)
        }
        completion => Ok(completion),
    }
}

/// Runs assignments one after the other, until one has a fault.
fn assign_all_where(
    s: &mut State,
    space: Space<'_>,
    body: &Vec<SectionAssignment>,
) -> Result<Completion, AllocError>
    ensures { IfOk result (IsRun (assign_all_where space.entry.extents.now (branch_mask space.entry.branch space.entry.mask.now) (map section_assignment body.now.items) (state_of s.old)) (state_of s.new)) }
{
    for b in body {
        match run_assignment(s, space, b)? {
            Completion::Normal => {}
            completion => return Ok(completion),
        }
    }
    Ok(Completion::Normal)
}

/// Runs an assignment.
fn run_assignment(
    s: &mut State,
    space: Space<'_>,
    b: &SectionAssignment,
) -> Result<Completion, AllocError>
    ensures { IfOk result (IsRun (one_step b.now.line (state_of s.old) (assign_where space.entry.extents.now (branch_mask space.entry.branch space.entry.mask.now) (section_assignment b.now) (state_of s.old))) (state_of s.new)) }
{
    let step = assign_where(s, space, b);
    ended(b.line, step)
}

//! Assignments to scalars and to array elements (Fortran 95, 7.5.1).

ghost use Rattle.std.specs.Prelude.{◌≡◌, IfErr, IfOk, Ok, OnOk};
ghost use Rattle.array_meaning.specs.Execution.{assign_element, assign_scalar, run};
ghost use Rattle.array_meaning.specs.Statements.{AssignElement, AssignScalar};
ghost use Rattle.resolved_program.specs.Resolved.{term, terms_of};
ghost use Rattle.term_values.specs.States.{state_of};
ghost use Rattle.term_values.specs.Stops.{IsStop};
ghost use Rattle.serial_run.specs.Completions.{IsRun, IsStopped};

use crate::completion::{Completion, ended};
use resolved_program::Term;
use std::alloc::AllocError;
use term_values::{State, Stop, value, variable_place};

/// Runs an assignment to a scalar.
#[inline(never)]
pub(crate) fn run_assign_scalar(
    s: &mut State,
    line: u32,
    scalar: usize,
    right: &Term,
) -> Result<Completion, AllocError>
    ensures { IfOk result (IsRun (run (AssignScalar scalar (term right.now)) line (state_of s.old)) (state_of s.new)) }
{
    let step = assign_scalar(s, scalar, right);
    ended(line, step)
}

/// Evaluates the right side, and then stores.
fn assign_scalar(s: &mut State, scalar: usize, right: &Term) -> Result<(), Stop>
    ensures value { OnOk result (assign_scalar scalar (term right.now) (state_of s.old) ≡ Ok (state_of s.new)) }
    ensures stopped { IfErr result (IsStopped (assign_scalar scalar (term right.now) (state_of s.old)) (state_of s.old) (state_of s.new)) }
{
    let v = value(s, &[], right)?;
    s.set_scalar(scalar, v);
    Ok(())
}

/// Runs an assignment to an element.
#[inline(never)]
pub(crate) fn run_assign_element(
    s: &mut State,
    line: u32,
    array: usize,
    subscripts: &Vec<Term>,
    right: &Term,
) -> Result<Completion, AllocError>
    ensures { IfOk result (IsRun (run (AssignElement array (terms_of subscripts.now.items) (term right.now)) line (state_of s.old)) (state_of s.new)) }
{
    let step = assign_element(s, array, subscripts, right);
    ended(line, step)
}

/// Evaluates the subscripts, finds the element, evaluates the right side, and then stores.
fn assign_element(
    s: &mut State,
    array: usize,
    subscripts: &Vec<Term>,
    right: &Term,
) -> Result<(), Stop>
    ensures value { OnOk result (assign_element array (terms_of subscripts.now.items) (term right.now) (state_of s.old) ≡ Ok (state_of s.new)) }
    ensures stopped { IfErr result (IsStopped (assign_element array (terms_of subscripts.now.items) (term right.now) (state_of s.old)) (state_of s.old) (state_of s.new)) }
{
    let place = variable_place(s, &[], array, subscripts)?;
    let v = value(s, &[], right)?;
    s.store(array, place, v);
    Ok(())
}

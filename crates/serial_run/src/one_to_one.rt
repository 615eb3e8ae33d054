//! Assignments of a FORALL that assign no element at two tuples.

ghost use Rattle.std.specs.Prelude.{◌≡◌, IfOk, map};
ghost use Rattle.array_meaning.specs.Forall.{check_one_to_one};
ghost use Rattle.resolved_program.specs.Resolved.{element_assignment};
ghost use Rattle.term_values.specs.States.{state_of};
ghost use Rattle.serial_run.specs.Completions.{IsRun};

use crate::completion::{Completion, faulted};
use array_meaning::FaultKind;
use forall_conditions::is_one_to_one;
use resolved_program::ElementAssignment;
use std::alloc::AllocError;
use term_values::{State, fault};

/// Completes normally where no assignment assigns an element at two tuples of a space with these extents, else with a fault at the line
/// of the first one that does.
pub(crate) fn check_one_to_one(
    s: &State,
    extents: &[u128],
    body: &[ElementAssignment],
) -> Result<Completion, AllocError>
    ensures { IfOk result (IsRun (check_one_to_one extents.now (map element_assignment body.now) (state_of s.now)) (state_of s.now)) }
{
    for b in body {
        if !is_one_to_one(s, &b.subscripts, extents)? {
            return faulted(b.line, fault(FaultKind::NotOneToOne));
        }
    }
    Ok(Completion::Normal)
}

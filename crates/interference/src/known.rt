//! Conditions that are known at the entry of a nest (HPF 2.0, 5.1).

ghost use Rattle.std.specs.Prelude.{◌≡◌, IfOk};
ghost use Rattle.array_meaning.specs.Touches.{are_known, is_known, known_truth};
ghost use Rattle.resolved_program.specs.Resolved.{term, terms_of};
ghost use Rattle.term_values.specs.States.{state_of};

use crate::walk::is_in;
use resolved_program::Term;
use std::alloc::AllocError;
use term_values::{State, Stop, value};

/// Whether a condition is true, where that is known at the entry: it has no arrays and none of the assigned scalars, and doesn't divide by
/// zero. An `Err` is want of memory.
pub(crate) fn known_truth(
    s: &State,
    assigned: &[usize],
    t: &Term,
) -> Result<Option<bool>, AllocError>
    ensures { IfOk result (λ r. r ≡ known_truth assigned.now (state_of s.now) (term t.now)) }
{
    if !is_known(assigned, t) {
        return Ok(None);
    }
    match value(s, &[], t) {
        Ok(v) => Ok(Some(v != 0)),
        Err(Stop::Fault(_)) => Ok(None),
        Err(Stop::Memory) => Err(AllocError),
    }
}

/// Whether an expression has no arrays and none of the assigned scalars. It takes no memory.
#[cycle(known)]
fn is_known(assigned: &[usize], t: &Term) -> bool
    ensures { result ≡ is_known assigned.now (term t.now) }
{
    match t {
        Term::Number(_) => true,
        Term::Scalar(k) => !is_in(*k, assigned),
        Term::Apply(_, operands) => are_known(assigned, operands),
        _ => false,
    }
}

/// Whether no expression has arrays or assigned scalars.
#[cycle(known)]
fn are_known(assigned: &[usize], terms: &Vec<Term>) -> bool
    ensures { result ≡ are_known assigned.now (terms_of terms.now.items) }
{
    for t in terms {
        if !is_known(assigned, t) {
            return false;
        }
    }
    true
}

//! Assignments of a FORALL that assign no element at two tuples.

ghost use Rattle.std.specs.Prelude.{◌≡◌, IfOk};
ghost use Rattle.std.specs.List.{list_any};
ghost use Rattle.array_meaning.specs.Terms.{list_of};
ghost use Rattle.array_meaning.specs.Forall.{depends_on, is_one_to_one};
ghost use Rattle.resolved_program.specs.Resolved.{terms_of};
ghost use Rattle.term_values.specs.States.{state_of};
ghost use Rattle.forall_conditions.specs.Linears.{is_covered, linear_of};

use crate::linear_forms::{LinearForm, linears};
use resolved_program::Term;
use std::alloc::AllocError;
use term_values::State;

/// Whether some subscript depends on each index that has two values at least.
pub fn is_one_to_one(
    s: &State,
    subscripts: &Vec<Term>,
    extents: &[u128],
) -> Result<bool, AllocError>
    ensures { IfOk result (λ b. b ≡ is_one_to_one (state_of s.now) (list_of (terms_of subscripts.now.items)) 0 extents.now) }
{
    let xs = linears(s, subscripts)?;
    for (k, n) in extents.iter().enumerate() {
        if !is_covered(&xs, k, *n) {
            return Ok(false);
        }
    }
    Ok(true)
}

/// Whether an index with so many values has one at most, or one of these depends on it.
fn is_covered(xs: &[LinearForm], k: usize, count: u128) -> bool
    ensures { result ≡ is_covered xs.now k count }
{
    count <= 1 || has_factor(xs, k)
}

/// Whether one of these depends on an index.
fn has_factor(xs: &[LinearForm], k: usize) -> bool
    ensures { result ≡ list_any (λ x. depends_on k (linear_of x)) xs.now }
{
    for x in xs {
        if depends_on(x, k) {
            return true;
        }
    }
    false
}

/// Whether the index stands in it with a factor other than 0.
fn depends_on(x: &LinearForm, k: usize) -> bool
    ensures { result ≡ depends_on k (linear_of x.now) }
{
    match x.index {
        Some(i) => i == k && x.factor != 0,
        None => false,
    }
}

//! The limits of a FORALL: its space, the values of its indices, and all subscripts in it.

ghost use Rattle.std.specs.Prelude.{◌≡◌, ◌≤◌, ◌<◌, ◌^◌, ◌&&◌, IfOk, map, pos, ◌+ℤ◌, ◌-ℤ◌, ◌*ℤ◌, ◌≤ℤ◌, nat_le, unsigned_abs, option_map};
ghost use Rattle.std.specs.List.{list_all};
ghost use Rattle.hpf_base.specs.ElementOrder.{product};
ghost use Rattle.array_meaning.specs.Terms.{list_of};
ghost use Rattle.array_meaning.specs.Sections.{is_at_most, nth};
ghost use Rattle.array_meaning.specs.Forall.{all_subscripts, body_subscripts, index_extents, is_forall_in_limits, is_linear_in_limits, mask_subscripts, subscripts_in, subscripts_in_all};
ghost use Rattle.resolved_program.specs.Resolved.{element_assignment, term, terms_of};
ghost use Rattle.term_values.specs.States.{state_of};
ghost use Rattle.forall_conditions.specs.Linears.{are_in_limits, is_short_in_limits, linear_of};

use crate::linear_forms::{LinearForm, linear};
use array_meaning::{MAX_FACTOR, MAX_INDEX_VALUE, MAX_OFFSET, MAX_TUPLES, Sequence};
use resolved_program::{ElementAssignment, Term};
use std::alloc::AllocError;
use term_values::State;

/// Whether all indices and all subscripts are in the limits, where the space isn't empty and has few tuples.
#[tactic(auto, using(crate::proofs::Products::forall_limits))]
pub fn is_forall_in_limits(
    s: &State,
    axes: &[Sequence],
    mask: &Option<Term>,
    body: &[ElementAssignment],
) -> Result<bool, AllocError>
    requires some { 0 < product (index_extents axes.now) }
    requires few { product (index_extents axes.now) ≤ MAX_TUPLES }
    ensures { IfOk result (λ b. b ≡ is_forall_in_limits (state_of s.now) axes.now (all_subscripts (option_map term mask.now) (map element_assignment body.now))) }
{
    let few = are_indices_in_limits(axes);
    let small = all_subscripts_in_limits(s, mask, body)?;
    Ok(few && small)
}

/// Whether all indices and all subscripts of a list are in the limits, where the space isn't empty and has few tuples.
#[tactic(auto, using(crate::proofs::Products::forall_limits))]
pub fn are_subscripts_in_limits(
    s: &State,
    axes: &[Sequence],
    subscripts: &Vec<Term>,
) -> Result<bool, AllocError>
    requires some { 0 < product (index_extents axes.now) }
    requires few { product (index_extents axes.now) ≤ MAX_TUPLES }
    ensures { IfOk result (λ b. b ≡ is_forall_in_limits (state_of s.now) axes.now (list_of (terms_of subscripts.now.items))) }
{
    let few = are_indices_in_limits(axes);
    let small = is_listed_in_limits(s, subscripts)?;
    Ok(few && small)
}

/// Whether all indices take values in the limits, each of them few.
fn are_indices_in_limits(axes: &[Sequence]) -> bool
    ensures { result ≡ list_all is_short_in_limits axes.now }
{
    for p in axes {
        if !is_short_in_limits(p) {
            return false;
        }
    }
    true
}

/// Whether an index takes few values, of which the first and the last are in the limits.
fn is_short_in_limits(p: &Sequence) -> bool
    ensures { result ≡ is_short_in_limits p.now }
{
    if p.count > MAX_TUPLES as u128 {
        return false;
    }
    let last = last(p.first, p.count as i64, p.step);
    p.first.unsigned_abs() <= MAX_INDEX_VALUE && last.unsigned_abs() <= MAX_INDEX_VALUE as u128
}

/// The last of so many values.
fn last(first: i64, count: i64, step: i64) -> i128
    requires least { pos 0 ≤ℤ count }
    requires most { count ≤ℤ pos (2 ^ 20) }
    ensures { result ≡ first +ℤ (count -ℤ pos 1) *ℤ step }
{
    sum(first, steps(count - 1, step))
}

fn sum(first: i64, steps: i128) -> i128
    requires { unsigned_abs steps ≤ 2 ^ 83 }
    ensures { result ≡ first +ℤ steps }
{
    first as i128 + steps
}

/// So many steps.
fn steps(count: i64, step: i64) -> i128
    requires { unsigned_abs count ≤ 2 ^ 20 }
    ensures value { result ≡ count *ℤ step }
    ensures small { unsigned_abs result ≤ 2 ^ 83 }
{
    count as i128 * step as i128
}

/// Whether all subscripts of the mask and of the assignments are in the limits.
fn all_subscripts_in_limits(
    s: &State,
    mask: &Option<Term>,
    body: &[ElementAssignment],
) -> Result<bool, AllocError>
    ensures { IfOk result (λ b. b ≡ are_in_limits (state_of s.now) (all_subscripts (option_map term mask.now) (map element_assignment body.now))) }
{
    if !is_mask_in_limits(s, mask)? {
        return Ok(false);
    }
    is_body_in_limits(s, body)
}

/// Whether those of the mask are.
fn is_mask_in_limits(s: &State, mask: &Option<Term>) -> Result<bool, AllocError>
    ensures { IfOk result (λ b. b ≡ are_in_limits (state_of s.now) (mask_subscripts (option_map term mask.now))) }
{
    match mask {
        Some(t) => is_term_in_limits(s, t),
        None => Ok(true),
    }
}

/// Whether those of the assignments are.
#[tactic(auto, using(expression_rules::proofs::Folds::all_append))]
fn is_body_in_limits(s: &State, body: &[ElementAssignment]) -> Result<bool, AllocError>
    ensures { IfOk result (λ b. b ≡ are_in_limits (state_of s.now) (body_subscripts (map element_assignment body.now))) }
{
    for b in body {
        if !is_listed_in_limits(s, &b.subscripts)? {
            return Ok(false);
        }
        if !is_term_in_limits(s, &b.right)? {
            return Ok(false);
        }
    }
    Ok(true)
}

/// Whether the subscripts of all elements in an expression are.
#[cycle(limits)]
fn is_term_in_limits(s: &State, t: &Term) -> Result<bool, AllocError>
    ensures { IfOk result (λ b. b ≡ are_in_limits (state_of s.now) (subscripts_in (term t.now))) }
{
    match t {
        Term::Element(_, subscripts) => is_listed_in_limits(s, subscripts),
        Term::Apply(_, operands) => are_terms_in_limits(s, operands),
        _ => Ok(true),
    }
}

/// Whether the subscripts of all elements in several expressions are in the limits.
#[cycle(limits)]
#[tactic(auto, using(expression_rules::proofs::Folds::all_append))]
fn are_terms_in_limits(s: &State, terms: &Vec<Term>) -> Result<bool, AllocError>
    ensures { IfOk result (λ b. b ≡ are_in_limits (state_of s.now) (subscripts_in_all (terms_of terms.now.items))) }
{
    for t in terms {
        if !is_term_in_limits(s, t)? {
            return Ok(false);
        }
    }
    Ok(true)
}

/// Whether subscripts in a list are.
fn is_listed_in_limits(s: &State, subscripts: &Vec<Term>) -> Result<bool, AllocError>
    ensures { IfOk result (λ b. b ≡ are_in_limits (state_of s.now) (list_of (terms_of subscripts.now.items))) }
{
    for t in subscripts {
        let x = linear(s, t)?;
        if !is_linear_in_limits(&x) {
            return Ok(false);
        }
    }
    Ok(true)
}

fn is_linear_in_limits(x: &LinearForm) -> bool
    ensures { result ≡ is_linear_in_limits (linear_of x.now) }
{
    x.factor.unsigned_abs() <= MAX_FACTOR && x.offset.unsigned_abs() <= MAX_OFFSET
}

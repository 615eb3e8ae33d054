//! The limits of a nest: its indices, its subscripts, and how many tuples each statement has.

ghost use Rattle.std.specs.Prelude.{◌≡◌, ◌≤◌, ◌^◌, ◌||◌, ◌==◌, ◌++◌, ◌∷◌, IfOk, pos, ◌+ℤ◌, ◌-ℤ◌, ◌*ℤ◌, ◌≤ℤ◌, unsigned_abs};
ghost use Rattle.std.specs.List.{list_all};
ghost use Rattle.array_meaning.specs.declared.limits.TheConstants.{MAX_INDEX_VALUE};
ghost use Rattle.hpf_base.specs.ElementOrder.{product};
ghost use Rattle.op_tables.specs.Operators.{wrapped};
ghost use Rattle.array_meaning.specs.Terms.{list_of};
ghost use Rattle.array_meaning.specs.Statements.{Do, Unmarked};
ghost use Rattle.array_meaning.specs.Sections.{is_at_most, is_subscript_in_limits, nth};
ghost use Rattle.array_meaning.specs.Forall.{index_extents, is_index_in_limits, subscripts_in, subscripts_in_all};
ghost use Rattle.array_meaning.specs.NestLimits.{are_arms_in_limits, are_linear_in_limits, is_block_in_limits, is_in_limits, is_linear_in_limits, number_in, with_all};
ghost use Rattle.resolved_program.specs.Resolved.{arms_of, block_of, loop_of, statement, term, terms_of};
ghost use Rattle.term_values.specs.States.{state_of};
ghost use Rattle.interference.specs.Limits.{is_arm_in_limits, is_space_in_limits, saturated};

use crate::indices::{IterationSpace, kept, set_all, set_back, values_of};
use array_meaning::{MAX_FACTOR, MAX_INDEX_VALUE, MAX_OFFSET, MAX_TUPLES, Sequence};
use resolved_program::{Action, Arm, Loop, Statement, Term};
use smallvec::SmallVec;
use std::alloc::{AllocError, Global};
use term_values::{Number, State, Stop, value};

/// Whether a nest that has an iteration is in the limits, with this body of its innermost loop: the first and the last value of each
/// index, all subscripts, and the tuples of each statement, which are those of the nest times the turns of the loops round it. An `Err`
/// is want of memory.
#[tactic(auto, using(crate::proofs::Saturated::block_saturated))]
pub(crate) fn is_nest_in_limits(
    alloc: Global,
    s: &mut State,
    space: &IterationSpace,
    body: &Vec<Statement>,
) -> Result<bool, AllocError>
    ensures limits { IfOk result (λ b. b ≡ is_space_in_limits space.now (block_of body.now.items) (state_of s.old)) }
    ensures unchanged { state_of s.new ≡ state_of s.old }
{
    if !are_indices_in_limits(&space.axes) {
        return Ok(false);
    }
    let n = tuples(&space.axes);
    is_block_in_limits(alloc, s, &space.indices, n, body)
}

// ---- indices

/// Whether the first and the last value of each index are in the limits.
fn are_indices_in_limits(axes: &[Sequence]) -> bool
    ensures { result ≡ list_all is_index_in_limits axes.now }
{
    for p in axes {
        if !is_index_in_limits(p) {
            return false;
        }
    }
    true
}

/// Whether the first and the last value of an index are.
fn is_index_in_limits(p: &Sequence) -> bool
    ensures { result ≡ is_index_in_limits p.now }
{
    p.first.unsigned_abs() <= MAX_INDEX_VALUE && is_last_in_limits(p)
}

/// Whether the last value of an index is, where the first one is. With more than 2^43 values it isn't.
fn is_last_in_limits(p: &Sequence) -> bool
    requires { unsigned_abs p.now.first ≤ MAX_INDEX_VALUE }
    ensures { result ≡ is_at_most MAX_INDEX_VALUE (nth p.now (pos p.now.count)) }
{
    if p.step == 0 {
        return true;
    }
    if p.count > 1 << 43 {
        return false;
    }
    let last = last(p.first, p.count as i64, p.step);
    last.unsigned_abs() <= MAX_INDEX_VALUE as u128
}

/// The last of so many values.
fn last(first: i64, count: i64, step: i64) -> i128
    requires least { pos 0 ≤ℤ count }
    requires most { count ≤ℤ pos (2 ^ 43) }
    ensures { result ≡ first +ℤ (count -ℤ pos 1) *ℤ step }
{
    sum(first, steps(count - 1, step))
}

fn sum(first: i64, steps: i128) -> i128
    requires { unsigned_abs steps ≤ 2 ^ 106 }
    ensures { result ≡ first +ℤ steps }
{
    first as i128 + steps
}

/// So many steps.
fn steps(count: i64, step: i64) -> i128
    requires { unsigned_abs count ≤ 2 ^ 43 }
    ensures value { result ≡ count *ℤ step }
    ensures small { unsigned_abs result ≤ 2 ^ 106 }
{
    count as i128 * step as i128
}

/// How many tuples the values of indices make. It takes no memory.
#[tactic(auto, using(crate::proofs::Saturated::tuples_next, crate::proofs::Saturated::tuples_all))]
pub(crate) fn tuples(axes: &[Sequence]) -> u128
    ensures { result ≡ saturated (product (index_extents axes.now)) }
{
    let mut n: u128 = 1;
    for p in axes {
        n = n.saturating_mul(p.count);
    }
    n
}

// ---- statements

/// Whether statements are in the limits, which have so many tuples each. An `Err` is want of memory.
#[cycle(limits)]
fn is_block_in_limits(
    alloc: Global,
    s: &mut State,
    indices: &[usize],
    n: u128,
    block: &Vec<Statement>,
) -> Result<bool, AllocError>
    ensures limits { IfOk result (λ b. b ≡ is_block_in_limits indices.now (state_of s.old) n (block_of block.now.items)) }
    ensures unchanged { state_of s.new ≡ state_of s.old }
{
    for stmt in block {
        if n > MAX_TUPLES as u128 {
            return Ok(false);
        }
        if !is_in_limits(alloc, s, indices, n, stmt)? {
            return Ok(false);
        }
    }
    Ok(true)
}

/// Whether a statement is.
#[cycle(limits)]
fn is_in_limits(
    alloc: Global,
    s: &mut State,
    indices: &[usize],
    n: u128,
    stmt: &Statement,
) -> Result<bool, AllocError>
    ensures limits { IfOk result (λ b. b ≡ is_in_limits indices.now (state_of s.old) n (statement stmt.now.what)) }
    ensures unchanged { state_of s.new ≡ state_of s.old }
{
    match &stmt.what {
        Action::AssignScalar(_, right) => is_term_in_limits(alloc, s, indices, right),
        Action::AssignElement(_, subscripts, right) => is_assignment_in_limits(
            alloc, s, indices, subscripts, right,
        ),
        Action::If(arms, other) => {
            if !are_arms_in_limits(alloc, s, indices, n, arms)? {
                return Ok(false);
            }
            is_block_in_limits(alloc, s, indices, n, other)
        }
        Action::Do(_, l, body) => is_loop_in_limits(alloc, s, indices, n, l, body),
        _ => Ok(true),
    }
}

/// Whether the arms of an IF are.
#[cycle(limits)]
fn are_arms_in_limits(
    alloc: Global,
    s: &mut State,
    indices: &[usize],
    n: u128,
    arms: &Vec<Arm>,
) -> Result<bool, AllocError>
    ensures limits { IfOk result (λ b. b ≡ are_arms_in_limits indices.now (state_of s.old) n (arms_of arms.now.items)) }
    ensures unchanged { state_of s.new ≡ state_of s.old }
{
    for arm in arms {
        if !is_arm_in_limits(alloc, s, indices, n, arm)? {
            return Ok(false);
        }
    }
    Ok(true)
}

/// Whether one of them is: its condition and its block.
#[cycle(limits)]
fn is_arm_in_limits(
    alloc: Global,
    s: &mut State,
    indices: &[usize],
    n: u128,
    arm: &Arm,
) -> Result<bool, AllocError>
    ensures limits { IfOk result (λ b. b ≡ is_arm_in_limits indices.now (state_of s.old) n arm.now) }
    ensures unchanged { state_of s.new ≡ state_of s.old }
{
    if !is_term_in_limits(alloc, s, indices, &arm.condition)? {
        return Ok(false);
    }
    is_block_in_limits(alloc, s, indices, n, &arm.body)
}

/// Whether a loop is: its index, and its body, in which it is one more index.
#[cycle(limits)]
#[tactic(auto, using(crate::proofs::Saturated::block_saturated))]
fn is_loop_in_limits(
    alloc: Global,
    s: &mut State,
    indices: &[usize],
    n: u128,
    l: &Loop,
    body: &Vec<Statement>,
) -> Result<bool, AllocError>
    ensures limits { IfOk result (λ b. b ≡ is_in_limits indices.now (state_of s.old) n (Do Unmarked (loop_of l.now) (block_of body.now.items))) }
    ensures unchanged { state_of s.new ≡ state_of s.old }
{
    let p = values_of(s, l)?;
    if !is_turned_in_limits(&p) {
        return Ok(false);
    }
    let inner = with_index(alloc, l.index, indices)?;
    is_block_in_limits(alloc, s, &inner, n.saturating_mul(p.count), body)
}

/// Whether a loop has no turn, or the values of its index are in the limits.
fn is_turned_in_limits(p: &Sequence) -> bool
    ensures { result ≡ (p.now.count == 0 || is_index_in_limits p.now) }
{
    p.count == 0 || is_index_in_limits(p)
}

/// An index before others. An `Err` is want of memory; up to seven take none.
fn with_index(
    alloc: Global,
    index: usize,
    indices: &[usize],
) -> Result<SmallVec<usize, 7>, AllocError>
    ensures { IfOk result (λ v. v.items ≡ index ∷ indices.now) }
{
    let mut v = SmallVec::new(alloc);
    v.push(index)?;
    v.extend_from_slice(indices)?;
    Ok(v)
}

// ---- subscripts

/// Whether the subscripts in an assignment to an element are.
fn is_assignment_in_limits(
    alloc: Global,
    s: &mut State,
    indices: &[usize],
    subscripts: &Vec<Term>,
    right: &Term,
) -> Result<bool, AllocError>
    ensures limits { IfOk result (λ b. b ≡ are_linear_in_limits indices.now (state_of s.old) (list_of (terms_of subscripts.now.items) ++ subscripts_in (term right.now))) }
    ensures unchanged { state_of s.new ≡ state_of s.old }
{
    if !is_listed_in_limits(alloc, s, indices, subscripts)? {
        return Ok(false);
    }
    is_term_in_limits(alloc, s, indices, right)
}

/// Whether the subscripts of all elements in an expression are.
#[cycle(subscripts)]
fn is_term_in_limits(
    alloc: Global,
    s: &mut State,
    indices: &[usize],
    t: &Term,
) -> Result<bool, AllocError>
    ensures limits { IfOk result (λ b. b ≡ are_linear_in_limits indices.now (state_of s.old) (subscripts_in (term t.now))) }
    ensures unchanged { state_of s.new ≡ state_of s.old }
{
    match t {
        Term::Element(_, subscripts) => is_listed_in_limits(alloc, s, indices, subscripts),
        Term::Apply(_, operands) => are_terms_in_limits(alloc, s, indices, operands),
        _ => Ok(true),
    }
}

/// Whether the subscripts of all elements in several expressions are.
#[cycle(subscripts)]
#[tactic(auto, using(expression_rules::proofs::Folds::all_append))]
fn are_terms_in_limits(
    alloc: Global,
    s: &mut State,
    indices: &[usize],
    terms: &Vec<Term>,
) -> Result<bool, AllocError>
    ensures limits { IfOk result (λ b. b ≡ are_linear_in_limits indices.now (state_of s.old) (subscripts_in_all (terms_of terms.now.items))) }
    ensures unchanged { state_of s.new ≡ state_of s.old }
{
    for t in terms {
        if !is_term_in_limits(alloc, s, indices, t)? {
            return Ok(false);
        }
    }
    Ok(true)
}

/// Whether subscripts in a list are.
fn is_listed_in_limits(
    alloc: Global,
    s: &mut State,
    indices: &[usize],
    subscripts: &Vec<Term>,
) -> Result<bool, AllocError>
    ensures limits { IfOk result (λ b. b ≡ are_linear_in_limits indices.now (state_of s.old) (list_of (terms_of subscripts.now.items))) }
    ensures unchanged { state_of s.new ≡ state_of s.old }
{
    for t in subscripts {
        if !is_linear_in_limits(alloc, s, indices, t)? {
            return Ok(false);
        }
    }
    Ok(true)
}

/// Whether a subscript is: its value where all indices are 0, and what it grows by until all are 1.
fn is_linear_in_limits(
    alloc: Global,
    s: &mut State,
    indices: &[usize],
    t: &Term,
) -> Result<bool, AllocError>
    ensures limits { IfOk result (λ b. b ≡ is_linear_in_limits indices.now (state_of s.old) (term t.now)) }
    ensures unchanged { state_of s.new ≡ state_of s.old }
{
    let offset = number_where(alloc, s, indices, 0, t)?;
    let next = number_where(alloc, s, indices, 1, t)?;
    let factor = difference(&next, &offset);
    Ok(is_subscript_in_limits(&factor, &offset))
}

/// The value of a subscript where all indices have one value; 0 where it has a fault.
#[tactic(auto, using(crate::proofs::SetBack::set_all_back))]
fn number_where(
    alloc: Global,
    s: &mut State,
    indices: &[usize],
    at: i64,
    t: &Term,
) -> Result<Number, AllocError>
    ensures number { IfOk result (λ n. n.value ≡ number_in (with_all indices.now at (state_of s.old)) (term t.now)) }
    ensures unchanged { state_of s.new ≡ state_of s.old }
{
    let before = kept(alloc, s, indices)?;
    set_all(s, indices, at);
    let number = number_in(s, t);
    set_back(s, indices, before.as_slice());
    number
}

/// The value of a subscript, or 0 where it has a fault.
fn number_in(s: &State, t: &Term) -> Result<Number, AllocError>
    ensures { IfOk result (λ n. n.value ≡ number_in (state_of s.now) (term t.now)) }
{
    match value(s, &[], t) {
        Ok(value) => Ok(Number { value }),
        Err(Stop::Fault(_)) => Ok(Number { value: 0 }),
        Err(Stop::Memory) => Err(AllocError),
    }
}

#[tactic(auto, using(std::proofs::lemmas::Int::wraps))]
fn difference(a: &Number, b: &Number) -> Number
    ensures { result.value ≡ wrapped (a.now.value -ℤ b.now.value) }
{
    Number {
        value: a.value.wrapping_sub(b.value),
    }
}

fn is_subscript_in_limits(factor: &Number, offset: &Number) -> bool
    ensures { result ≡ is_subscript_in_limits factor.now.value offset.now.value }
{
    factor.value.unsigned_abs() <= MAX_FACTOR && offset.value.unsigned_abs() <= MAX_OFFSET
}

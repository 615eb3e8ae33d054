//! The iterations of a nest of INDEPENDENT loops (HPF 2.0, 5.1): the values of its indices, and the state in an iteration.

ghost use Rattle.std.specs.Prelude.{◌≡◌, ℕ, suc, pos, ◌*ℤ◌, IfOk, OnOk, [], ◌∷◌, ◌++◌, map};
ghost use Rattle.op_tables.specs.Operators.{wrapped};
ghost use Rattle.array_meaning.specs.State.{scalar};
ghost use Rattle.array_meaning.specs.Forall.{indices_at};
ghost use Rattle.array_meaning.specs.Iterations.{turn_value, values_of, with_indices};
ghost use Rattle.array_meaning.specs.NestLimits.{with_all};
ghost use Rattle.resolved_program.specs.Resolved.{block_of, inner_loops, innermost, loop_of, statement};
ghost use Rattle.resolved_program.specs.InnerLoops.{innermost_in, loops_of};
ghost use Rattle.array_meaning.specs.Statements.{Block};
ghost use Rattle.term_values.specs.States.{state_of};
ghost use Rattle.interference.specs.IterationSpaces.{IsSpaceOf, at_number, innermost_from, innermost_of, loops_from, nest_of};

use array_meaning::Sequence;
use resolved_program::{Action, Loop, Nest, Statement};
use smallvec::SmallVec;
use std::alloc::{AllocError, Global};
use term_values::{Number, State, Stop, divided, index_values, sum};

/// The indices of a nest by the places of their names, and the values that each takes, the innermost loop first. Tuples of values are
/// numbered from 0 in the order of execution.
#[derive(Drop)]
pub(crate) struct IterationSpace {
    pub indices: Vec<usize>,
    pub axes: Vec<Sequence>,
}

/// A loop that is all that stands in the body of another one.
#[derive(Clone, Copy)]
pub(crate) struct InnerLoop<'a> {
    pub head: &'a Loop,
    pub body: &'a Vec<Statement>,
}

// ---- the loops of a nest

/// The iterations of a nest whose outermost loop has this body. An `Err` is want of memory.
pub(crate) fn iteration_space(
    alloc: Global,
    s: &State,
    nest: &Nest,
    outermost: &Loop,
    body: &Vec<Statement>,
) -> Result<IterationSpace, AllocError>
    ensures { IfOk result (IsSpaceOf (nest_of nest.now outermost.now body.now.items) (state_of s.now)) }
{
    let mut space = IterationSpace {
        indices: Vec::new(alloc),
        axes: Vec::new(alloc),
    };
    add_loop(s, outermost, &mut space)?;
    add_inner_loops(s, nest.inner_loops, body, &mut space)?;
    space.indices.reverse();
    space.axes.reverse();
    Ok(space)
}

/// Adds a loop at the end. An `Err` is want of memory.
fn add_loop(s: &State, l: &Loop, space: &mut IterationSpace) -> Result<(), AllocError>
    ensures indices { OnOk result (space.new.indices.items ≡ space.old.indices.items ++ map (λ l. l.index) (loop_of l.now ∷ [])) }
    ensures axes { OnOk result (space.new.axes.items ≡ space.old.axes.items ++ map (values_of (state_of s.now)) (loop_of l.now ∷ [])) }
{
    let p = values_of(s, l)?;
    space.indices.push(l.index)?;
    space.axes.push(p)?;
    Ok(())
}

/// Adds so many loops, each of which is all of the body before. An `Err` is want of memory.
fn add_inner_loops(
    s: &State,
    n: usize,
    body: &Vec<Statement>,
    space: &mut IterationSpace,
) -> Result<(), AllocError>
    ensures indices { OnOk result (space.new.indices.items ≡ space.old.indices.items ++ map (λ l. l.index) (inner_loops n (block_of body.now.items))) }
    ensures axes { OnOk result (space.new.axes.items ≡ space.old.axes.items ++ map (values_of (state_of s.now)) (inner_loops n (block_of body.now.items))) }
{
    if n == 0 {
        return Ok(());
    }
    match inner_loop(body) {
        Some(inner) => {
            add_loop(s, inner.head, space)?;
            add_inner_loops(s, n - 1, inner.body, space)
        }
        None => Ok(()),
    }
}

/// The body of the innermost loop of a nest whose outermost loop has this body. It takes no memory.
pub(crate) fn innermost<'a>(nest: &Nest, body: &'a Vec<Statement>) -> &'a Vec<Statement>
    ensures { block_of result.now.items ≡ innermost_of nest.now body.now.items }
{
    inside(nest.inner_loops, body)
}

/// What stands in the last of so many loops, each of which is all of the body before.
fn inside<'a>(n: usize, body: &'a Vec<Statement>) -> &'a Vec<Statement>
    ensures { block_of result.now.items ≡ innermost n (block_of body.now.items) }
{
    if n == 0 {
        return body;
    }
    match inner_loop(body) {
        Some(inner) => inside(n - 1, inner.body),
        None => body,
    }
}

/// The loop that is all of a body, if there is one.
#[tactic(auto, using(resolved_program::proofs::InnerLoops::one_loops, resolved_program::proofs::InnerLoops::one_innermost, resolved_program::proofs::InnerLoops::no_loops, resolved_program::proofs::InnerLoops::no_innermost))]
fn inner_loop<'a>(body: &'a Vec<Statement>) -> Option<InnerLoop<'a>>
    ensures loops { (n : ℕ) → inner_loops (suc n) (block_of body.now.items) ≡ loops_from result n }
    ensures inside { (n : ℕ) → innermost (suc n) (block_of body.now.items) ≡ innermost_from result n (block_of body.now.items) }
{
    if body.len() != 1 {
        return None;
    }
    loop_in(&body[0].what)
}

/// The loop that a statement is, if it is one.
fn loop_in<'a>(what: &'a Action) -> Option<InnerLoop<'a>>
    ensures loops { (n : ℕ) → loops_of n (statement what.now) ≡ loops_from result n }
    ensures inside { (n : ℕ) (block : Block) → innermost_in n (statement what.now) block ≡ innermost_from result n block }
{
    match what {
        Action::Do(_, head, body) => Some(InnerLoop { head, body }),
        _ => None,
    }
}

// ---- the values of indices

/// The values that the index of a loop takes; none where its control has a fault. An `Err` is want of memory.
pub(crate) fn values_of(s: &State, l: &Loop) -> Result<Sequence, AllocError>
    ensures { IfOk result (λ p. p ≡ values_of (state_of s.now) (loop_of l.now)) }
{
    match index_values(s, &l.control) {
        Ok(p) => Ok(p),
        Err(Stop::Fault(_)) => Ok(Sequence {
            first: 0,
            step: 1,
            count: 0,
        }),
        Err(Stop::Memory) => Err(AllocError),
    }
}

/// The value of an index in a turn of its loop, from 0. It takes no memory.
#[tactic(auto, using(crate::proofs::Turns::turn_is))]
pub(crate) fn turn_value(p: &Sequence, turn: usize) -> i64
    ensures { result ≡ turn_value p.now turn }
{
    let turn = in_64_bits(turn);
    let steps = steps(&turn, p);
    sum(&p.first, &steps.value).value
}

/// A number in 64 bits, which wrap.
#[tactic(auto, using(crate::proofs::Turns::wrapped_number))]
fn in_64_bits(n: usize) -> Number
    ensures { result.value ≡ wrapped (pos n) }
{
    Number {
        value: (n as u64).cast_signed(),
    }
}

/// So many steps from one value of an index to another.
#[tactic(auto, using(std::proofs::lemmas::Int::wraps))]
fn steps(n: &Number, p: &Sequence) -> Number
    ensures { result.value ≡ wrapped (n.now.value *ℤ p.now.step) }
{
    Number {
        value: n.value.wrapping_mul(p.step),
    }
}

/// The values of the indices in the iteration of a number. An `Err` is want of memory.
pub(crate) fn indices_at(
    alloc: Global,
    axes: &[Sequence],
    number: usize,
) -> Result<Vec<i64>, AllocError>
    ensures { IfOk result (λ v. v.items ≡ indices_at axes.now number) }
{
    let mut values = Vec::new(alloc);
    let mut left = number;
    for p in axes {
        let d = divided(left, p.count);
        values.push(turn_value(p, d.rest))?;
        left = d.quotient;
    }
    Ok(values)
}

// ---- the state in an iteration

/// Gives the indices of a space the values that they have in the iteration of a number. It takes no memory.
pub(crate) fn set_iteration(s: &mut State, space: &IterationSpace, number: usize)
    ensures { state_of s.new ≡ at_number space.now (state_of s.old) number }
{
    set_tuple(s, &space.indices, &space.axes, number);
}

/// Gives the indices of these loops their values, the last one first.
fn set_tuple(s: &mut State, indices: &[usize], axes: &[Sequence], number: usize)
    ensures { state_of s.new ≡ with_indices indices.now (indices_at axes.now number) (state_of s.old) }
{
    if let Some((x, indices)) = indices.split_first() {
        if let Some((p, axes)) = axes.split_first() {
            let d = divided(number, p.count);
            set_tuple(s, indices, axes, d.quotient);
            s.set_scalar(*x, turn_value(p, d.rest));
        }
    }
}

/// Gives all of these indices one value. It takes no memory.
pub(crate) fn set_all(s: &mut State, indices: &[usize], value: i64)
    ensures { state_of s.new ≡ with_all indices.now value (state_of s.old) }
{
    for x in indices {
        s.set_scalar(*x, value);
    }
}

/// The values that these indices have, in their order. An `Err` is want of memory; up to seven take none.
pub(crate) fn kept(
    alloc: Global,
    s: &State,
    indices: &[usize],
) -> Result<SmallVec<i64, 7>, AllocError>
    ensures { IfOk result (λ v. v.items ≡ map (scalar (state_of s.now)) indices.now) }
{
    let mut values = SmallVec::new(alloc);
    for x in indices {
        values.push(s.scalar(*x))?;
    }
    Ok(values)
}

/// Gives these indices these values, the last one first. With the values that were kept, after other values, the state is as it was
/// (`set_back`, `proofs/SetBack.antt`). It takes no memory.
pub(crate) fn set_back(s: &mut State, indices: &[usize], values: &[i64])
    ensures { state_of s.new ≡ with_indices indices.now values.now (state_of s.old) }
{
    if let Some((x, indices)) = indices.split_first() {
        if let Some((v, values)) = values.split_first() {
            set_back(s, indices, values);
            s.set_scalar(*x, *v);
        }
    }
}

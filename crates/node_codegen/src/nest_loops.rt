//! The loops of a nest of INDEPENDENT loops and its innermost block (HPF 2.0, 5.1).

ghost use Rattle.std.specs.Prelude.{◌≡◌, ◌++◌, ◌*◌, [], ◌∷◌, ℕ, suc, length, map, IfOk, OnOk};
ghost use Rattle.array_meaning.specs.Statements.{Block};
ghost use Rattle.program_code.specs.NestCode.{bounds_code};
ghost use Rattle.node_code.specs.Texts.{instructions};
ghost use Rattle.resolved_program.specs.Resolved.{block_of, inner_loops, innermost, loop_of, statement};
ghost use Rattle.resolved_program.specs.InnerLoops.{innermost_in, loops_of};
ghost use Rattle.node_codegen.specs.NestLoops.{innermost_from, loops_from};

use crate::nest_steps::step_flat;
use expression_code::{index_flat, plus};
use hpf_base::OutOfMemory;
use node_code::Instruction;
use resolved_program::{Action, Loop, Statement};
use std::alloc::Global;

/// A loop that is all that stands in the body of another one.
#[derive(Clone, Copy)]
pub(crate) struct InnerLoop<'a> {
    pub head: &'a Loop,
    pub body: &'a Vec<Statement>,
}

/// The loop that is all of a body, if there is one.
#[tactic(auto, using(resolved_program::proofs::InnerLoops::one_loops, resolved_program::proofs::InnerLoops::one_innermost, resolved_program::proofs::InnerLoops::no_loops, resolved_program::proofs::InnerLoops::no_innermost))]
fn inner_loop<'a>(body: &'a Vec<Statement>) -> Option<InnerLoop<'a>>
    ensures loops { (n : ℕ) → inner_loops (suc n) (block_of body.now.items) ≡ loops_from result n }
    ensures inside { (n : ℕ) → innermost (suc n) (block_of body.now.items) ≡ innermost_from result n (block_of body.now.items) }
{
    if body.len() != 1 {
        return None;
    }
    loop_in(&body[0].what)
}

/// The loop that a statement is, if it is one.
fn loop_in<'a>(what: &'a Action) -> Option<InnerLoop<'a>>
    ensures loops { (n : ℕ) → loops_of n (statement what.now) ≡ loops_from result n }
    ensures inside { (n : ℕ) (block : Block) → innermost_in n (statement what.now) block ≡ innermost_from result n block }
{
    match what {
        Action::Do(_, head, body) => Some(InnerLoop { head, body }),
        _ => None,
    }
}

/// What stands in the last of so many loops, each of which is all of the body before.
pub(crate) fn innermost<'a>(n: usize, body: &'a Vec<Statement>) -> &'a Vec<Statement>
    ensures { block_of result.now.items ≡ innermost n (block_of body.now.items) }
{
    if n == 0 {
        return body;
    }
    match inner_loop(body) {
        Some(inner) => innermost(n - 1, inner.body),
        None => body,
    }
}

/// Puts the indices of so many loops, each of which is all of the body before, after others.
pub(crate) fn add_indices(
    indices: &mut Vec<usize>,
    n: usize,
    body: &Vec<Statement>,
) -> Result<(), OutOfMemory>
    ensures { OnOk result (indices.new.items ≡ indices.old.items ++ map (λ l. l.index) (inner_loops n (block_of body.now.items))) }
{
    if n == 0 {
        return Ok(());
    }
    match inner_loop(body) {
        Some(inner) => {
            indices.push(inner.head.index)?;
            add_indices(indices, n - 1, inner.body)
        }
        None => Ok(()),
    }
}

/// How many slots the bounds of so many loops take: each four.
pub(crate) fn loops_slots(n: usize, body: &Vec<Statement>) -> Result<usize, OutOfMemory>
    ensures { IfOk result (λ m. m ≡ 4 * length (inner_loops n (block_of body.now.items))) }
{
    if n == 0 {
        return Ok(0);
    }
    match inner_loop(body) {
        Some(inner) => plus(loops_slots(n - 1, inner.body)?, 4),
        None => Ok(0),
    }
}

/// Puts the bounds of so many loops, in slots from `v` on, after other code.
pub(crate) fn add_bounds(
    alloc: Global,
    code: &mut Vec<Instruction>,
    line: u32,
    v: usize,
    n: usize,
    body: &Vec<Statement>,
) -> Result<(), OutOfMemory>
    ensures { OnOk result (instructions code.new.items ≡ instructions code.old.items ++ bounds_code line v (inner_loops n (block_of body.now.items))) }
{
    if n == 0 {
        return Ok(());
    }
    match inner_loop(body) {
        Some(inner) => {
            let next = plus(v, 4)?;
            add_loop_bounds(alloc, code, line, v, inner.head)?;
            add_bounds(alloc, code, line, next, n - 1, inner.body)
        }
        None => Ok(()),
    }
}

/// Puts the bounds of a loop, in three slots from `v` on.
pub(crate) fn add_loop_bounds(
    alloc: Global,
    code: &mut Vec<Instruction>,
    line: u32,
    v: usize,
    l: &Loop,
) -> Result<(), OutOfMemory>
    ensures { OnOk result (instructions code.new.items ≡ instructions code.old.items ++ bounds_code line v (loop_of l.now ∷ [])) }
{
    let last = plus(v, 1)?;
    let step = plus(v, 2)?;
    code.push(Instruction::Set {
        line,
        slot: v,
        value: index_flat(alloc, &l.control.first)?,
    })?;
    code.push(Instruction::Set {
        line,
        slot: last,
        value: index_flat(alloc, &l.control.last)?,
    })?;
    code.push(Instruction::Set {
        line,
        slot: step,
        value: step_flat(alloc, &l.control.step)?,
    })?;
    Ok(())
}

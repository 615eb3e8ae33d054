//! What an iteration of a nest touches (HPF 2.0, 5.1), in the order of the text.

ghost use Rattle.std.specs.Prelude.{◌≡◌, [], ℤ, IfOk, OnOk};
ghost use Rattle.array_meaning.specs.State.{scalar, set_scalar};
ghost use Rattle.array_meaning.specs.Statements.{Do, Unmarked};
ghost use Rattle.array_meaning.specs.Touches.{element_touch};
ghost use Rattle.resolved_program.specs.Resolved.{arms_of, block_of, loop_of, statement, term, terms_of};
ghost use Rattle.term_values.specs.Parts.{variable_place};
ghost use Rattle.term_values.specs.States.{state_of};
ghost use Rattle.interference.specs.Walks.{AreWalkedArms, IsWalkedArm, all_read, noted, read, turned, walk_of, walked, walked_in};

use crate::indices::values_of;
use crate::known::known_truth;
use crate::walk::Walk;
use array_meaning::Sequence;
use resolved_program::{Action, Arm, Loop, Statement, Term};
use std::alloc::AllocError;
use term_values::{Number, State, Stop, nth, sum, variable_place};

// ---- expressions

/// Notes the references in an expression. An `Err` is want of memory.
#[cycle(read)]
fn note_reads(s: &State, w: &mut Walk, t: &Term) -> Result<(), AllocError>
    ensures { OnOk result (walk_of w.new ≡ read (walk_of w.old) (state_of s.now) (term t.now)) }
{
    match t {
        Term::Scalar(k) => w.note_scalar(*k, false),
        Term::Element(a, subscripts) => note_element(s, w, *a, subscripts, false),
        Term::Apply(_, operands) => note_all_reads(s, w, operands),
        _ => Ok(()),
    }
}

/// Notes the references in expressions, in order.
#[cycle(read)]
fn note_all_reads(s: &State, w: &mut Walk, terms: &Vec<Term>) -> Result<(), AllocError>
    ensures { OnOk result (walk_of w.new ≡ all_read (walk_of w.old) (state_of s.now) (terms_of terms.now.items)) }
{
    for t in terms {
        note_reads(s, w, t)?;
    }
    Ok(())
}

/// Notes that an element is read or written; nothing where it is out of bounds. An `Err` is want of memory.
fn note_element(
    s: &State,
    w: &mut Walk,
    a: usize,
    subscripts: &Vec<Term>,
    writes: bool,
) -> Result<(), AllocError>
    ensures { OnOk result (walk_of w.new ≡ noted (walk_of w.old) (element_touch writes a (variable_place [] (state_of s.now) a (terms_of subscripts.now.items)))) }
{
    match variable_place(s, &[], a, subscripts) {
        Ok(place) => w.note(a, place, writes),
        Err(Stop::Fault(_)) => Ok(()),
        Err(Stop::Memory) => Err(AllocError),
    }
}

// ---- statements

/// Notes what a block touches, in the state with the indices as they are in the iteration, which is left as it was. An `Err` is want of
/// memory.
#[cycle(walk)]
pub(crate) fn note_block(
    s: &mut State,
    w: &mut Walk,
    statements: &Vec<Statement>,
) -> Result<(), AllocError>
    ensures noted { OnOk result (walk_of w.new ≡ walked (walk_of w.old) (state_of s.old) (block_of statements.now.items)) }
    ensures unchanged { state_of s.new ≡ state_of s.old }
{
    for stmt in statements {
        note_statement(s, w, stmt)?;
    }
    Ok(())
}

/// Notes what a statement touches.
#[cycle(walk)]
fn note_statement(s: &mut State, w: &mut Walk, stmt: &Statement) -> Result<(), AllocError>
    ensures noted { OnOk result (walk_of w.new ≡ walked_in (walk_of w.old) (state_of s.old) (statement stmt.now.what)) }
    ensures unchanged { state_of s.new ≡ state_of s.old }
{
    match &stmt.what {
        Action::AssignScalar(k, right) => {
            note_reads(s, w, right)?;
            w.note_scalar(*k, true)
        }
        Action::AssignElement(a, subscripts, right) => {
            note_reads(s, w, right)?;
            note_element(s, w, *a, subscripts, true)
        }
        Action::If(arms, other) => {
            if note_arms(s, w, arms)? {
                return note_block(s, w, other);
            }
            Ok(())
        }
        Action::Do(_, l, body) => note_loop(s, w, l, body),
        _ => Ok(()),
    }
}

/// Notes what the arms of an IF touch: by a condition that is known its block counts or what stands after it, and else both. The answer is
/// whether what stands after all of them counts.
#[cycle(walk)]
fn note_arms(s: &mut State, w: &mut Walk, arms: &Vec<Arm>) -> Result<bool, AllocError>
    ensures noted { IfOk result (AreWalkedArms (walk_of w.old) (state_of s.old) (arms_of arms.now.items) (walk_of w.new)) }
    ensures unchanged { state_of s.new ≡ state_of s.old }
{
    for arm in arms {
        if !note_arm(s, w, arm)? {
            return Ok(false);
        }
    }
    Ok(true)
}

/// Notes what an arm of an IF touches. The answer is whether what stands after it counts.
#[cycle(walk)]
fn note_arm(s: &mut State, w: &mut Walk, arm: &Arm) -> Result<bool, AllocError>
    ensures noted { IfOk result (IsWalkedArm (walk_of w.old) (state_of s.old) arm.now (walk_of w.new)) }
    ensures unchanged { state_of s.new ≡ state_of s.old }
{
    note_reads(s, w, &arm.condition)?;
    match known_truth(s, &w.assigned, &arm.condition)? {
        Some(false) => Ok(true),
        Some(true) => {
            note_block(s, w, &arm.body)?;
            Ok(false)
        }
        None => {
            note_block(s, w, &arm.body)?;
            Ok(true)
        }
    }
}

/// Notes what an inner loop touches, turn by turn. A loop without statements touches nothing, however many turns it has.
#[cycle(walk)]
fn note_loop(s: &mut State, w: &mut Walk, l: &Loop, body: &Vec<Statement>) -> Result<(), AllocError>
    ensures noted { OnOk result (walk_of w.new ≡ walked_in (walk_of w.old) (state_of s.old) (Do Unmarked (loop_of l.now) (block_of body.now.items))) }
    ensures unchanged { state_of s.new ≡ state_of s.old }
{
    if body.len() == 0 {
        return Ok(());
    }
    let p = values_of(s, l)?;
    let before = index_value(s, l.index);
    w.go_inside(l.index)?;
    let done = note_turns(s, w, l.index, p, body);
    set_index(s, l.index, before);
    done?;
    w.go_outside();
    Ok(())
}

/// Notes what the turns of a loop touch. The state is left as it was but for the index.
#[cycle(walk)]
fn note_turns(
    s: &mut State,
    w: &mut Walk,
    index: usize,
    p: Sequence,
    body: &Vec<Statement>,
) -> Result<(), AllocError>
    ensures noted { OnOk result (walk_of w.new ≡ turned (walk_of w.old) (state_of s.old) index p (block_of body.now.items) p.count) }
    ensures unchanged { (v : ℤ) → set_scalar (state_of s.new) index v ≡ set_scalar (state_of s.old) index v }
{
    let mut at = nth(&p, &1);
    for _ in 0..p.count {
        set_index(s, index, at);
        note_block(s, w, body)?;
        at = sum(&at.value, &p.step);
    }
    Ok(())
}

/// The value of an index.
fn index_value(s: &State, index: usize) -> Number
    ensures { result.value ≡ scalar (state_of s.now) index }
{
    Number {
        value: s.scalar(index),
    }
}

/// Gives an index its value.
fn set_index(s: &mut State, index: usize, v: Number)
    ensures { state_of s.new ≡ set_scalar (state_of s.old) index v.value }
{
    s.set_scalar(index, v.value);
}

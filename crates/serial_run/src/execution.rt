//! Statements, one after the other (Fortran 95, 8.1).

ghost use Rattle.std.specs.Prelude.{◌≡◌, ◌+ℤ◌, IfErr, IfOk, Ok, drop};
ghost use Rattle.op_tables.specs.Operators.{wrapped};
ghost use Rattle.array_meaning.specs.Execution.{condition, iterate, run, run_block};
ghost use Rattle.array_meaning.specs.State.{set_scalar};
ghost use Rattle.resolved_program.specs.Resolved.{arms_of, block_of, statement, term};
ghost use Rattle.term_values.specs.States.{state_of};
ghost use Rattle.term_values.specs.Stops.{IsStop};
ghost use Rattle.serial_run.specs.Arms.{IsArms};
ghost use Rattle.serial_run.specs.Completions.{IsRun};

use crate::assignments::{run_assign_element, run_assign_scalar};
use crate::completion::{Completion, faulted};
use crate::forall::run_forall;
use crate::known_steps::{known_step, known_steps};
use crate::loop_entry::loop_values;
use crate::print::run_print;
use crate::section_assignments::run_assign_section;
use crate::transformations::run_transform;
use crate::where_construct::run_where;
use array_meaning::Sequence;
use resolved_program::{Action, Arm, Statement, Term};
use scalar_values::known_value;
use std::alloc::AllocError;
use term_values::{State, Stop, value};

/// Runs statements one after the other, until one completes in another way than normally.
#[cycle(run)]
pub(crate) fn run_block(
    s: &mut State,
    statements: &Vec<Statement>,
) -> Result<Completion, AllocError>
    ensures { IfOk result (IsRun (run_block (block_of statements.now.items) (state_of s.old)) (state_of s.new)) }
{
    run_rest(s, statements, 0)
}

/// Runs the statements of a block from one on.
#[inline(never)]
#[cycle(run)]
fn run_rest(
    s: &mut State,
    statements: &Vec<Statement>,
    first: usize,
) -> Result<Completion, AllocError>
    ensures { IfOk result (IsRun (run_block (block_of (drop first statements.now.items)) (state_of s.old)) (state_of s.new)) }
{
    for i in first..statements.len() {
        if known_step(s, &statements[i]) {
            continue;
        }
        match run(s, &statements[i])? {
            Completion::Normal => {}
            completion => return Ok(completion),
        }
    }
    Ok(Completion::Normal)
}

/// Runs a statement.
#[cycle(run)]
fn run(s: &mut State, stmt: &Statement) -> Result<Completion, AllocError>
    ensures { IfOk result (IsRun (run (statement stmt.now.what) stmt.now.line (state_of s.old)) (state_of s.new)) }
{
    let line = stmt.line;
    match &stmt.what {
        Action::AssignScalar(scalar, right) => run_assign_scalar(s, line, *scalar, right),
        Action::AssignElement(array, subscripts, right) => run_assign_element(
            s, line, *array, subscripts, right,
        ),
        Action::AssignSection(array, subscripts, right) => run_assign_section(
            s, line, *array, subscripts, right,
        ),
        Action::Transform(target, source, how) => run_transform(s, line, target, source, how),
        Action::If(arms, other) => match run_arms(s, arms)? {
            Some(completion) => Ok(completion),
            None => run_block(s, other),
        },
        Action::Do(nest, l, body) => match loop_values(s, nest, l, body) {
            Ok(p) => iterate(s, l.index, p, body),
            Err(stop) => faulted(line, stop),
        },
        Action::Where(mask, body, others) => run_where(s, line, mask, body, others),
        Action::Forall(controls, mask, body) => run_forall(s, line, controls, mask, body),
        Action::Print(items) => run_print(s, line, items),
        Action::Stop => Ok(Completion::Stopped),
        Action::Exit => Ok(Completion::Exited),
        Action::Cycle => Ok(Completion::Cycled),
        Action::Continue => Ok(Completion::Normal),
        Action::Redistribute => Ok(Completion::Normal),
    }
}

/// Runs the block of the first arm whose condition is true; None where there is no such arm.
#[cycle(run)]
#[inline(never)]
fn run_arms(s: &mut State, arms: &Vec<Arm>) -> Result<Option<Completion>, AllocError>
    ensures { IfOk result (IsArms (arms_of arms.now.items) (state_of s.old) (state_of s.new)) }
{
    for arm in arms {
        match condition(s, &arm.condition) {
            Err(stop) => {
                let completion = faulted(arm.line, stop)?;
                return Ok(Some(completion));
            }
            Ok(true) => {
                let completion = run_block(s, &arm.body)?;
                return Ok(Some(completion));
            }
            Ok(false) => {}
        }
    }
    Ok(None)
}

/// Whether a condition is true.
fn condition(s: &State, t: &Term) -> Result<bool, Stop>
    ensures value { IfOk result (λ is_met. condition (state_of s.now) (term t.now) ≡ Ok is_met) }
    ensures stopped { IfErr result (IsStop (condition (state_of s.now) (term t.now))) }
{
    let v = known_value(s, t);
    if v.known {
        return Ok(v.value != 0);
    }
    let v = value(s, &[], t)?;
    Ok(v != 0)
}

/// The value of a loop's index.
#[derive(Clone, Copy)]
struct IndexValue {
    value: i64,
}

/// Runs the iterations of a loop. After it the index has the value that the next iteration would have had.
#[cycle(run)]
#[inline(never)]
fn iterate(
    s: &mut State,
    index: usize,
    p: Sequence,
    body: &Vec<Statement>,
) -> Result<Completion, AllocError>
    ensures { IfOk result (IsRun (iterate p.count index p.first p.step (run_block (block_of body.now.items)) (state_of s.old)) (state_of s.new)) }
{
    let mut at = IndexValue { value: p.first };
    for _ in 0..p.count {
        set_index(s, index, at);
        let done = known_steps(s, body);
        if done < body.len() {
            match run_rest(s, body, done)? {
                Completion::Normal | Completion::Cycled => {}
                Completion::Exited => return Ok(Completion::Normal),
                completion => return Ok(completion),
            }
        }
        at = next(at, p);
    }
    set_index(s, index, at);
    Ok(Completion::Normal)
}

/// Gives an index its value.
fn set_index(s: &mut State, index: usize, at: IndexValue)
    ensures { state_of s.new ≡ set_scalar (state_of s.old) index at.value }
{
    s.set_scalar(index, at.value);
}

/// The value of an index after one.
#[tactic(auto, using(std::proofs::lemmas::Int::wraps))]
fn next(at: IndexValue, p: Sequence) -> IndexValue
    ensures { result.value ≡ wrapped (at.value +ℤ p.step) }
{
    IndexValue {
        value: at.value.wrapping_add(p.step),
    }
}

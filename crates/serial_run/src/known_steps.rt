//! Statements that are done by values that are known: assignments to scalars and to array elements (Fortran 95, 7.5.1), and IF (8.1.2) where the
//! block that is taken has one statement at most. They take no memory and have no fault, so nothing but whether they are done comes back.

ghost use Rattle.std.specs.Prelude.{◌≡◌, ◌≤◌, Ok, drop, false, length, true};
ghost use Rattle.array_meaning.specs.Execution.{assign_element, assign_scalar, condition, run, run_block};
ghost use Rattle.array_meaning.specs.Runs.{normal};
ghost use Rattle.resolved_program.specs.Resolved.{arms_of, block_of, statement, term, terms_of};
ghost use Rattle.term_values.specs.States.{state_of};
ghost use Rattle.serial_run.specs.Arms.{AreDone};

use resolved_program::{Action, Arm, Statement, Term};
use scalar_values::{known_place, known_value};
use term_values::State;

/// Runs the statements in front of a block that can be done so, and says how many they are.
#[inline(always)]
pub(crate) fn known_steps(s: &mut State, statements: &[Statement]) -> usize
    ensures few { result ≤ length statements.now }
    ensures rest { run_block (block_of statements.now) (state_of s.old) ≡ run_block (block_of (drop result statements.now)) (state_of s.new) }
{
    for i in 0..statements.len() {
        if !known_step(s, &statements[i]) {
            return i;
        }
    }
    statements.len()
}

/// Runs a statement, where it can be done so. Where it can't, nothing has changed.
#[inline(always)]
#[cycle(known_step)]
pub(crate) fn known_step(s: &mut State, stmt: &Statement) -> bool
    ensures done { result ≡ true → run (statement stmt.now.what) stmt.now.line (state_of s.old) ≡ normal (state_of s.new) }
    ensures same { result ≡ false → state_of s.new ≡ state_of s.old }
{
    match &stmt.what {
        Action::AssignScalar(scalar, right) => known_scalar(s, *scalar, right),
        Action::AssignElement(array, subscripts, right) => known_element(
            s, *array, subscripts, right,
        ),
        _ => known_if(s, stmt),
    }
}

/// Runs an IF, where it can be done so; no other statement.
#[inline(never)]
#[cycle(known_step)]
fn known_if(s: &mut State, stmt: &Statement) -> bool
    ensures done { result ≡ true → run (statement stmt.now.what) stmt.now.line (state_of s.old) ≡ normal (state_of s.new) }
    ensures same { result ≡ false → state_of s.new ≡ state_of s.old }
{
    match &stmt.what {
        Action::If(arms, other) => match known_arms(s, arms) {
            ArmsDone::Done => true,
            ArmsDone::NoneTrue => known_block(s, other),
            ArmsDone::Unknown => false,
        },
        _ => false,
    }
}

/// Assigns to a scalar.
#[inline(always)]
fn known_scalar(s: &mut State, scalar: usize, right: &Term) -> bool
    ensures done { result ≡ true → assign_scalar scalar (term right.now) (state_of s.old) ≡ Ok (state_of s.new) }
    ensures same { result ≡ false → state_of s.new ≡ state_of s.old }
{
    let v = known_value(s, right);
    if v.known {
        s.set_scalar(scalar, v.value);
    }
    v.known
}

/// Assigns to an element: its subscripts and its bounds come before the right side.
#[inline(always)]
fn known_element(s: &mut State, array: usize, subscripts: &Vec<Term>, right: &Term) -> bool
    ensures done { result ≡ true → assign_element array (terms_of subscripts.now.items) (term right.now) (state_of s.old) ≡ Ok (state_of s.new) }
    ensures same { result ≡ false → state_of s.new ≡ state_of s.old }
{
    let p = known_place(s, array, subscripts);
    if !p.known {
        return false;
    }
    let v = known_value(s, right);
    if v.known {
        s.store(array, p.place, v.value);
    }
    v.known
}

/// What was done of the arms of an IF: the block of the first whose condition is true; none, since no condition is; or it isn't known.
#[derive(Clone, Copy)]
pub(crate) enum ArmsDone {
    Done,
    NoneTrue,
    Unknown,
}

/// Runs the block of the first arm whose condition is true, where it can be done so.
#[inline(always)]
#[cycle(known_step)]
fn known_arms(s: &mut State, arms: &Vec<Arm>) -> ArmsDone
    ensures { AreDone (arms_of arms.now.items) (state_of s.old) (state_of s.new) result }
{
    for arm in arms {
        let c = known_condition(s, &arm.condition);
        if !c.known {
            return ArmsDone::Unknown;
        }
        if c.holds {
            return if known_block(s, &arm.body) {
                ArmsDone::Done
            } else {
                ArmsDone::Unknown
            };
        }
    }
    ArmsDone::NoneTrue
}

/// Whether a condition is true, where it is known.
#[derive(Clone, Copy)]
struct KnownCondition {
    holds: bool,
    known: bool,
}

/// Whether a condition is true.
#[inline(always)]
fn known_condition(s: &State, t: &Term) -> KnownCondition
    ensures { result.known ≡ true → condition (state_of s.now) (term t.now) ≡ Ok result.holds }
{
    let v = known_value(s, t);
    KnownCondition {
        holds: v.value != 0,
        known: v.known,
    }
}

/// Runs a block of at most one statement, where it can be done so. Where it can't, nothing has changed.
#[inline(always)]
#[cycle(known_step)]
fn known_block(s: &mut State, statements: &Vec<Statement>) -> bool
    ensures done { result ≡ true → run_block (block_of statements.now.items) (state_of s.old) ≡ normal (state_of s.new) }
    ensures same { result ≡ false → state_of s.new ≡ state_of s.old }
{
    if statements.is_empty() {
        return true;
    }
    if statements.len() != 1 {
        return false;
    }
    known_step(s, &statements[0])
}

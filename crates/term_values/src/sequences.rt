//! What triplets and the controls of loops come to (Fortran 95, 6.2.2.3 and 8.1.4.4.1).

ghost use Rattle.std.specs.Prelude.{◌≡◌, ◌≢◌, ◌<◌, ◌^◌, pos, ◌+ℤ◌, ◌-ℤ◌, int_div, unsigned_abs, IfOk, IfErr, Ok, []};
ghost use Rattle.expression_rules.specs.Dims.{at_least_none};
ghost use Rattle.array_meaning.specs.Expressions.{index_values};
ghost use Rattle.array_meaning.specs.Sections.{sequence, value_count};
ghost use Rattle.resolved_program.specs.Resolved.{control};
ghost use Rattle.term_values.specs.States.{state_of};
ghost use Rattle.term_values.specs.Stops.{IsStop};

use crate::expressions::value;
use crate::state::State;
use crate::stops::{Stop, fault};
use array_meaning::{FaultKind, Sequence};
use resolved_program::Control;

/// The values that the index of a DO or FORALL takes; a fault where an expression has one, or the step is 0.
pub fn index_values(s: &State, c: &Control) -> Result<Sequence, Stop>
    ensures value { IfOk result (λ p. index_values (state_of s.now) (control c.now) ≡ Ok p) }
    ensures stopped { IfErr result (IsStop (index_values (state_of s.now) (control c.now))) }
{
    let first = value(s, &[], &c.first)?;
    let last = value(s, &[], &c.last)?;
    let step = value(s, &[], &c.step)?;
    let p = sequence(first, last, step)?;
    Ok(p)
}

/// The values from a first to a last one; a fault where the step is 0.
pub fn sequence(first: i64, last: i64, step: i64) -> Result<Sequence, Stop>
    ensures value { IfOk result (λ p. sequence first last step ≡ Ok p) }
    ensures stopped { IfErr result (IsStop (sequence first last step)) }
{
    if step == 0 {
        return Err(fault(FaultKind::ZeroStride));
    }
    let count = value_count(first, last, step);
    Ok(Sequence { first, step, count })
}

/// How many values there are from the first to the last one.
fn value_count(first: i64, last: i64, step: i64) -> u128
    requires { step ≢ pos 0 }
    ensures { result ≡ value_count first last step }
{
    let sum = reach(first, last, step);
    let by = wide(step);
    let quotient = quotient(sum, by);
    whole(quotient)
}

/// What is divided by the step.
fn reach(first: i64, last: i64, step: i64) -> i128
    ensures is { result ≡ last -ℤ first +ℤ step }
    ensures small { unsigned_abs result < 2 ^ 100 }
{
    last as i128 - first as i128 + step as i128
}

/// The number in 128 bits.
fn wide(z: i64) -> i128
    ensures { result ≡ z }
{
    z as i128
}

/// The quotient, rounded toward zero.
fn quotient(a: i128, d: i128) -> i128
    requires nonzero { d ≢ pos 0 }
    requires small { unsigned_abs a < 2 ^ 100 }
    ensures { result ≡ int_div a d }
{
    a / d
}

/// The number, or 0 where it is below that.
fn whole(z: i128) -> u128
    ensures { result ≡ at_least_none z }
{
    if z < 0 { 0 } else { z as u128 }
}

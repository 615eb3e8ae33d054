//! The entry of a loop (Fortran 95, 8.1.4.4.1, and HPF 2.0, 5.1).

ghost use Rattle.std.specs.Prelude.{◌≡◌, IfErr, IfOk, Ok};
ghost use Rattle.array_meaning.specs.NestEntry.{entered};
ghost use Rattle.resolved_program.specs.Resolved.{block_of, loop_of, mark};
ghost use Rattle.term_values.specs.States.{state_of};
ghost use Rattle.term_values.specs.Stops.{IsStop};
ghost use Rattle.serial_run.specs.LoopEntry.{loop_entry};

use array_meaning::Sequence;
use interference::enter;
use resolved_program::{Loop, Nest, Statement};
use term_values::{State, Stop, index_values};

/// The values that the index of a loop takes, where the loop is entered; the fault of its control, or that of the nest of which it is
/// the outermost loop. The state is as it was.
#[inline(never)]
pub(crate) fn loop_values(
    s: &mut State,
    nest: &Option<Nest>,
    l: &Loop,
    body: &Vec<Statement>,
) -> Result<Sequence, Stop>
    ensures value { IfOk result (λ p. loop_entry (mark nest.now (loop_of l.now) (block_of body.now.items)) (loop_of l.now) (state_of s.old) ≡ Ok p) }
    ensures stopped { IfErr result (IsStop (loop_entry (mark nest.now (loop_of l.now) (block_of body.now.items)) (loop_of l.now) (state_of s.old))) }
    ensures unchanged { state_of s.new ≡ state_of s.old }
{
    let p = index_values(s, &l.control)?;
    enter_nest(s, nest, l, body)?;
    Ok(p)
}

/// Whether a loop is entered; one that isn't the outermost of a nest always is.
fn enter_nest(
    s: &mut State,
    nest: &Option<Nest>,
    l: &Loop,
    body: &Vec<Statement>,
) -> Result<(), Stop>
    ensures entered { IfOk result (λ _. entered (mark nest.now (loop_of l.now) (block_of body.now.items)) (state_of s.old) ≡ Ok (state_of s.old)) }
    ensures stopped { IfErr result (IsStop (entered (mark nest.now (loop_of l.now) (block_of body.now.items)) (state_of s.old))) }
    ensures unchanged { state_of s.new ≡ state_of s.old }
{
    match nest {
        Some(nest) => enter(*s.scalars.allocator(), s, nest, l, body),
        None => Ok(()),
    }
}

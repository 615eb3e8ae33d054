//! What a tuple comes to.

ghost use Rattle.std.specs.Prelude.{IfOk, true};
ghost use Rattle.tuple_values.specs.Outcomes.{IsBroken};

use hpf_base::OutOfMemory;
use std::alloc::Global;
use term_values::{Fault, Stop, at_tuple};

/// What a tuple comes to: nothing where the masks don't ask for it, a value, or a fault.
#[derive(Drop)]
pub enum Outcome {
    Nothing,
    Value(i64),
    Breaks(Fault),
}

/// The outcome of an evaluation at a tuple that stopped, by whether its fault has the tuple.
pub(crate) fn broken(
    alloc: Global,
    line: u32,
    located: bool,
    tuple: &[i64],
    stop: Stop,
) -> Result<Outcome, OutOfMemory>
    ensures { IfOk result (IsBroken line located tuple.now stop) }
{
    if located {
        return broken_at(alloc, line, tuple, stop);
    }
    match stop {
        Stop::Fault(cause) => Ok(Outcome::Breaks(Fault { line, cause })),
        Stop::Memory => Err(OutOfMemory),
    }
}

/// The outcome of an evaluation that stopped, whose fault has the tuple.
fn broken_at(alloc: Global, line: u32, tuple: &[i64], stop: Stop) -> Result<Outcome, OutOfMemory>
    ensures { IfOk result (IsBroken line true tuple.now stop) }
{
    match at_tuple(alloc, tuple, stop) {
        Stop::Fault(cause) => Ok(Outcome::Breaks(Fault { line, cause })),
        Stop::Memory => Err(OutOfMemory),
    }
}

//! How statements complete.

ghost use Rattle.std.specs.Prelude.{◌≡◌, IfOk};
ghost use Rattle.serial_run.specs.Completions.{IsEnd, IsFaulted};

use std::alloc::AllocError;
use term_values::{Fault, Stop};

/// How a statement completes (Fortran 95, 8.1): so that the next one follows, by EXIT, CYCLE or STOP, or with a fault.
#[derive(Drop)]
pub enum Completion {
    Normal,
    Exited,
    Cycled,
    Stopped,
    Faulted(Fault),
}

/// How a statement completes whose evaluation stopped.
pub(crate) fn faulted(line: u32, stop: Stop) -> Result<Completion, AllocError>
    ensures { IfOk result (IsFaulted line stop) }
{
    match stop {
        Stop::Fault(cause) => Ok(Completion::Faulted(Fault { line, cause })),
        Stop::Memory => Err(AllocError),
    }
}

/// How a statement completes that makes a new state or stops.
pub(crate) fn ended(line: u32, step: Result<(), Stop>) -> Result<Completion, AllocError>
    ensures { IfOk result (IsEnd line step) }
{
    match step {
        Ok(()) => Ok(Completion::Normal),
        Err(stop) => faulted(line, stop),
    }
}

//! Whole programs.

ghost use Rattle.std.specs.Prelude.{◌≡◌, IfOk};
ghost use Rattle.syntax_tree.specs.MainProgram.{main_program};
ghost use Rattle.array_meaning.specs.Serial.{end_of, outcome, outcome_of};
ghost use Rattle.term_values.specs.States.{state_of};
ghost use Rattle.serial_run.specs.Completions.{completion};
ghost use Rattle.serial_run.specs.Outcomes.{end_seen, outcome_seen};

use crate::completion::Completion;
use crate::execution::run_block;
use crate::initial_state::initial_state;
use hpf_base::OutOfMemory;
use name_table::Program;
use program_plan::plan;
use std::alloc::Global;
use term_values::{Array, Fault, State};

/// How a program ends: at its end or by STOP, or with a fault.
#[derive(Drop)]
pub enum End {
    Finished,
    Faulted(Fault),
}

/// What a program comes to.
#[derive(Drop)]
pub struct Outcome {
    /// All bytes that it printed, in order.
    pub printed: Vec<u8>,
    pub end: End,
    /// The arrays as they are at the end, each at the place of its name among the declared names. Any other name has one without
    /// elements there.
    pub arrays: Vec<Array>,
}

/// Runs a program in one order over whole arrays, and gives what it means. An `Err` is want of memory.
pub fn run_serial(alloc: Global, program: &Program) -> Result<Outcome, OutOfMemory>
    ensures { IfOk result (λ o. outcome_seen o ≡ outcome program.now.names (main_program program.now.tree).body) }
{
    let plan = plan(alloc, program)?;
    let mut s = initial_state(alloc, &program.names)?;
    let completion = run_block(&mut s, &plan.body)?;
    Ok(outcome_of(s, completion))
}

/// What the run of a program comes to.
fn outcome_of(s: State, c: Completion) -> Outcome
    ensures { outcome_seen result ≡ outcome_of (record { state = state_of s; completion = completion c }) }
{
    Outcome {
        printed: s.printed,
        end: end_of(c),
        arrays: s.arrays,
    }
}

/// How a program ends whose statements complete so.
fn end_of(c: Completion) -> End
    ensures { end_seen result ≡ end_of (completion c) }
{
    match c {
        Completion::Faulted(fault) => End::Faulted(fault),
        _ => End::Finished,
    }
}

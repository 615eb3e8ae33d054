//! What each action that waits for nobody makes of an accepted program.

ghost use Rattle.std.specs.Prelude.{◌≡◌, Bool, false, ℕ, List, None};
ghost use Rattle.syntax_tree.specs.MainProgram.{MainProgram, main_program};
ghost use Rattle.array_meaning.specs.Serial.{Outcome as SerialOutcome, outcome};
ghost use Rattle.serial_run.specs.Outcomes.{end_seen};
ghost use Rattle.hpf_words.specs.declared.job.Action.TheVariants.{Check, Map, Messages, Serial};
ghost use Rattle.hpf_run.specs.Command.{runs_on_nodes};
ghost use Rattle.hpf_run.specs.Outcome.{listed};
ghost use Rattle.hpf_run.specs.Reply.{ActionMeant, IsReported, outcome_of};

use crate::reply::{Reply, reply_faulted};
use accepted_program::AcceptedProgram;
use distributed_run::{MessageList, list_messages};
use hpf_words::{Action, Job};
use name_table::{Names, Program};
use run_report::map_text;
use serial_run::{End, Outcome, run_serial};
use std::alloc::Global;

/// What the job's action makes of an accepted program, on the grid that it is accepted on.
pub(crate) fn reply_to_accepted(alloc: Global, job: &Job, accepted: &AcceptedProgram<'_>) -> Reply
    requires { runs_on_nodes job.now.action ≡ false }
    ensures { ActionMeant accepted.now.grid.now job.now.arrays (main_program accepted.now.program.tree) job.now.action (outcome_of result) }
{
    match job.action {
        Action::Check => accepted_reply(alloc),
        Action::Map => map_reply(alloc, accepted),
        Action::Serial => serial_reply(alloc, accepted),
        Action::Messages => messages_reply(alloc, accepted),
        Action::Run | Action::Bulk => unreachable!(),
    }
}

/// What `check` answers.
fn accepted_reply(alloc: Global) -> Reply
    ensures { (grid : List ℕ) (arrays : Bool) (p : MainProgram) → ActionMeant grid arrays p Check (outcome_of result) }
{
    match Vec::from_slice(alloc, b"accepted\n") {
        Ok(line) => Reply::Done(line, None),
        Err(_) => Reply::Memory,
    }
}

/// What `map` answers.
fn map_reply(alloc: Global, accepted: &AcceptedProgram<'_>) -> Reply
    ensures { (arrays : Bool) → ActionMeant accepted.now.grid.now arrays (main_program accepted.now.program.tree) Map (outcome_of result) }
{
    match map_text(alloc, &accepted.maps, accepted.grid) {
        Ok(text) => Reply::Done(text, None),
        Err(_) => Reply::Memory,
    }
}

/// What `serial` answers.
fn serial_reply(alloc: Global, accepted: &AcceptedProgram<'_>) -> Reply
    ensures { (grid : List ℕ) (arrays : Bool) → ActionMeant grid arrays (main_program accepted.now.program.tree) Serial (outcome_of result) }
{
    run_program(alloc, &accepted.program)
}

/// What the run of a program in one order comes to.
fn run_program(alloc: Global, program: &Program) -> Reply
    ensures { IsReported program.now.names false (outcome program.now.names (main_program program.now.tree).body) None (outcome_of result) }
{
    match run_serial(alloc, program) {
        Ok(outcome) => {
            let Outcome {
                printed,
                end,
                arrays: _,
            } = outcome;
            report(alloc, &program.names, printed, end)
        }
        Err(_) => Reply::Memory,
    }
}

/// The reply to what is printed and to how a program ends.
fn report(alloc: Global, names: &Names, printed: Vec<u8>, end: End) -> Reply
    ensures { (s : SerialOutcome) → printed.items ≡ s.printed → end_seen end ≡ s.end → IsReported names.now false s None (outcome_of result) }
{
    match end {
        End::Finished => Reply::Done(printed, None),
        End::Faulted(fault) => reply_faulted(alloc, names, printed, fault, None),
    }
}

/// What `messages` answers.
fn messages_reply(alloc: Global, accepted: &AcceptedProgram<'_>) -> Reply
    ensures { (arrays : Bool) → ActionMeant accepted.now.grid.now arrays (main_program accepted.now.program.tree) Messages (outcome_of result) }
{
    list_program(alloc, accepted)
}

/// The lines of a program's messages, and its fault where it has one.
fn list_program(alloc: Global, accepted: &AcceptedProgram<'_>) -> Reply
    ensures { IsReported accepted.now.program.names false (listed accepted.now.grid.now (main_program accepted.now.program.tree)) None (outcome_of result) }
{
    match list_messages(alloc, accepted) {
        Ok(MessageList { text, end }) => report(alloc, &accepted.program.names, text, end),
        Err(_) => Reply::Memory,
    }
}

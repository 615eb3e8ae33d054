//! What a run on nodes makes of a text.

ghost use Rattle.std.specs.Prelude.{◌≡◌, Bool, Some, map, true, IfOk};
ghost use Rattle.syntax_tree.specs.MainProgram.{main_program};
ghost use Rattle.array_meaning.specs.Serial.{Outcome as SerialOutcome};
ghost use Rattle.distributed_run.specs.Outcomes.{IsOutcome};
ghost use Rattle.hpf_run.specs.Command.{runs_on_nodes};
ghost use Rattle.hpf_run.specs.Outcome.{with_arrays};
ghost use Rattle.hpf_run.specs.Reply.{ActionMeant, IsReported, TextMeant, outcome_of};

use crate::accept::accept;
use crate::reply::{Reply, reply_faulted, reply_refused};
use accepted_program::AcceptedProgram;
use distributed_run::{NodesOutcome, run_on_nodes};
use hpf_base::{OutOfMemory, StaticError};
use hpf_ports::Gate;
use hpf_reader::SourceForm;
use hpf_words::Job;
use name_table::Names;
use run_report::arrays_text;
use serial_run::End;
use std::alloc::Global;
use std::sync::Wait;
use std::thread::Threads;

/// What a job that runs on nodes makes of a text in a source form, on crews of threads. It may wait.
pub(crate) fn run_text<R: Threads + Wait + Sync, G: Gate>(
    rt: &R,
    alloc: Global,
    job: &Job,
    form: SourceForm,
    text: &[u8],
    gate: &G,
) -> Reply
    requires { runs_on_nodes job.now.action ≡ true }
    ensures { TextMeant form text.now job.now (outcome_of result) }
{
    match accept(alloc, form, &job.grid, text) {
        Ok(accepted) => run_accepted(rt, alloc, job, &accepted, gate),
        Err(StaticError::Refused(refusal)) => reply_refused(alloc, refusal),
        Err(StaticError::Memory) => Reply::Memory,
    }
}

/// What the run of an accepted program on the nodes of its grid comes to, with the last arrays where they are asked for.
fn run_accepted<R: Threads + Wait + Sync, G: Gate>(
    rt: &R,
    alloc: Global,
    job: &Job,
    accepted: &AcceptedProgram<'_>,
    gate: &G,
) -> Reply
    requires { runs_on_nodes job.now.action ≡ true }
    ensures { ActionMeant accepted.now.grid.now job.now.arrays (main_program accepted.now.program.tree) job.now.action (outcome_of result) }
{
    match run_on_nodes(rt, alloc, accepted, job.threads, gate) {
        Ok(outcome) => report_nodes(alloc, &accepted.program.names, job.arrays, outcome),
        Err(_) => Reply::Memory,
    }
}

/// The reply to what a program came to on nodes.
fn report_nodes(alloc: Global, names: &Names, arrays: bool, outcome: NodesOutcome) -> Reply
    ensures { (s : SerialOutcome) → IsOutcome outcome s → IsReported names.now arrays s (Some outcome.ran) (outcome_of result) }
{
    let NodesOutcome {
        printed,
        end,
        arrays: last,
        nodes,
        ran,
    } = outcome;
    drop(nodes);
    match end {
        End::Finished => match with_arrays(alloc, names, arrays, printed, &last) {
            Ok(printed) => Reply::Done(printed, Some(ran)),
            Err(_) => Reply::Memory,
        },
        End::Faulted(fault) => reply_faulted(alloc, names, printed, fault, Some(ran)),
    }
}

/// What is printed, with the lines of the last arrays where they are asked for.
fn with_arrays(
    alloc: Global,
    names: &Names,
    arrays: bool,
    printed: Vec<u8>,
    last: &[Vec<i64>],
) -> Result<Vec<u8>, OutOfMemory>
    ensures { IfOk result (λ out. out.items ≡ with_arrays arrays names.now printed.items (map (λ a. a.items) last.now)) }
{
    if !arrays {
        return Ok(printed);
    }
    let mut out = printed;
    out.extend_from_slice(&arrays_text(alloc, names, last)?)?;
    Ok(out)
}

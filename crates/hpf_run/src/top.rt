//! The top call: from words and a source to a status and two texts.

ghost use Rattle.std.specs.Prelude.{◌≡◌, ℕ, List, false, map, string_bytes, true};
ghost use Rattle.hpf_words.specs.declared.job.Action.TheVariants.{Bulk};
ghost use Rattle.hpf_run.specs.Command.{IsCommand, reads, reads_source, runs_on_nodes};
ghost use Rattle.hpf_run.specs.Outcome.{IsAnswer, Meant, Port, port};
ghost use Rattle.hpf_run.specs.Reply.{outcome_of};

use crate::alone::hpf_alone;
use crate::answer::Answer;
use crate::bulk::bulk_text;
use crate::delivery::deliver;
use crate::form::form_of;
use crate::nodes::run_text;
use crate::reading::read_text;
use crate::reply::Reply;
use hpf_ports::{Gate, Sink, Source};
use hpf_reader::SourceForm;
use hpf_words::{Action, Job, WordsError, read_words};
use std::alloc::Global;
use std::sync::Wait;
use std::thread::Threads;

/// Runs the program on words, a source and two sinks, and answers its status and what a run on nodes leaves.
///
/// The answer is what the words and the source mean: the outcome of the text, or a read fault where the source's count of faults rose in
/// this call, or want of memory, which may come without a cause. The text is in the free source form or, with `--fixed`, in the fixed one
/// (Fortran 95, 3.3). Whatever the action, a text is refused for the first breach of the first stage that has one: lines, tokens, statements
/// and directives, the nest, names, ranks, mappings onto the grid, bodies. For a text that is accepted `check` prints so, and `map` prints
/// what each node owns of each array when the program starts; `serial` runs the program in one order, and `run` on the nodes of the grid, and
/// both answer what the program means in one order: what it prints and, with `--arrays`, its last arrays, or what it prints before its first
/// fault, and that fault. `bulk` runs the program of bulk work as `run` does, and reads no source. `messages` prints a line for each message
/// that the nodes send for array statements, reductions, nests of INDEPENDENT loops and REDISTRIBUTEs, up to that fault, and then that fault.
/// A nest of INDEPENDENT loops with two iterations that interfere is a fault at its entry (HPF 2.0, 5.1).
///
/// Under `run` and `bulk` the nodes are stepped by crews, each on a thread of its own, and exchange their letters through queues. Whatever the
/// number of threads and the order of their steps, the answer is the same, where the call returns; that it returns isn't said. Where the status is
/// `Done` or `Fault` the answer has the code that ran and the closed queue of each ordered pair of nodes: just the letters of the nodes' lockstep
/// run were sent on it, in order, and all were taken.
///
/// The answer is delivered whole, or it is `WriteFault`: then the count of the sink at fault rose in this call, and that sink holds a
/// proper prefix of its text. For words that are no job, and for `bulk`, the source isn't touched. `gate` has no part in any answer.
pub fn hpf_top<R: Threads + Wait + Sync, S: Source, O: Sink, E: Sink, G: Gate>(
    rt: &R,
    alloc: Global,
    words: &[String],
    src: &mut S,
    out: &mut O,
    err: &mut E,
    gate: &G,
) -> Answer
    ensures untouched { reads (map string_bytes words.now) ≡ false → src.new ≡ src.old }
    ensures answer { IsAnswer (map string_bytes words.now) (port (S.left src.old) (S.faults src.old)) (port (S.left src.new) (S.faults src.new))
        (port (O.held out.old) (O.faults out.old)) (port (O.held out.new) (O.faults out.new))
        (port (E.held err.old) (E.faults err.old)) (port (E.held err.new) (E.faults err.new)) result }
{
    match read_words(alloc, words) {
        Ok(job) => do_job(rt, alloc, &job, src, out, err, gate),
        Err(WordsError::Usage) => deliver(Reply::Usage, out, err),
        Err(WordsError::Memory) => deliver(Reply::Memory, out, err),
    }
}

/// Does a job, whichever words it is from.
fn do_job<R: Threads + Wait + Sync, S: Source, O: Sink, E: Sink, G: Gate>(
    rt: &R,
    alloc: Global,
    job: &Job,
    src: &mut S,
    out: &mut O,
    err: &mut E,
    gate: &G,
) -> Answer
    ensures untouched { reads_source job.now.action ≡ false → src.new ≡ src.old }
    ensures answer { (words : List (List ℕ)) → IsCommand words job.now
        → IsAnswer words (port (S.left src.old) (S.faults src.old)) (port (S.left src.new) (S.faults src.new))
        (port (O.held out.old) (O.faults out.old)) (port (O.held out.new) (O.faults out.new))
        (port (E.held err.old) (E.faults err.old)) (port (E.held err.new) (E.faults err.new)) result }
{
    match job.action {
        Action::Bulk => {
            let reply = reply_bulk(rt, alloc, job, gate);
            deliver(reply, out, err)
        }
        Action::Run => {
            let reply = reply_run(rt, alloc, job, src, gate);
            deliver(reply, out, err)
        }
        _ => Answer {
            status: hpf_alone(alloc, job, src, out, err),
            ran: None,
        },
    }
}

/// What `run` makes of the source, whichever words the job is from.
fn reply_run<R: Threads + Wait + Sync, S: Source, G: Gate>(
    rt: &R,
    alloc: Global,
    job: &Job,
    src: &mut S,
    gate: &G,
) -> Reply
    requires on_nodes { runs_on_nodes job.now.action ≡ true }
    requires reads { reads_source job.now.action ≡ true }
    ensures { (words : List (List ℕ)) → IsCommand words job.now → Meant words
        (port (S.left src.old) (S.faults src.old)) (port (S.left src.new) (S.faults src.new)) (outcome_of result) }
{
    match read_text(alloc, src) {
        Ok(text) => run_text(rt, alloc, job, form_of(job), &text, gate),
        Err(reply) => reply,
    }
}

/// What `bulk` makes of its own text, whichever words the job is from and whatever the source is.
fn reply_bulk<R: Threads + Wait + Sync, G: Gate>(
    rt: &R,
    alloc: Global,
    job: &Job,
    gate: &G,
) -> Reply
    requires bulk { job.now.action ≡ Bulk }
    requires on_nodes { runs_on_nodes job.now.action ≡ true }
    ensures { (words : List (List ℕ)) (source : Port) → IsCommand words job.now → Meant words source source (outcome_of result) }
{
    match bulk_text(alloc, job.size) {
        Ok(text) => run_text(rt, alloc, job, SourceForm::Free, &text, gate),
        Err(_) => Reply::Memory,
    }
}

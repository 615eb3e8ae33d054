//! The call for what waits for nobody.

ghost use Rattle.std.specs.Prelude.{◌≡◌, ℕ, List, None, false};
ghost use Rattle.hpf_run.specs.Command.{IsCommand, form_of, runs_on_nodes};
ghost use Rattle.hpf_run.specs.Outcome.{IsAnswer, Meant, port};
ghost use Rattle.hpf_run.specs.Reply.{TextMeant, outcome_of};

use crate::accept::accept;
use crate::actions::reply_to_accepted;
use crate::delivery::deliver;
use crate::form::form_of;
use crate::reading::read_text;
use crate::reply::{Reply, reply_refused};
use hpf_base::{StaticError, Status};
use hpf_ports::{Sink, Source};
use hpf_words::Job;
use std::alloc::Global;

/// Does a job that runs nothing on nodes, which is `check`, `map`, `serial` or `messages`, and answers its status: what the top call answers for
/// the words that are this job. It waits for nobody, and always returns.
pub fn hpf_alone<S: Source, O: Sink, E: Sink>(
    alloc: Global,
    job: &Job,
    src: &mut S,
    out: &mut O,
    err: &mut E,
) -> Status
    requires { runs_on_nodes job.now.action ≡ false }
    ensures { (words : List (List ℕ)) → IsCommand words job.now
        → IsAnswer words (port (S.left src.old) (S.faults src.old)) (port (S.left src.new) (S.faults src.new))
        (port (O.held out.old) (O.faults out.old)) (port (O.held out.new) (O.faults out.new))
        (port (E.held err.old) (E.faults err.old)) (port (E.held err.new) (E.faults err.new)) (record { status = result; ran = None }) }
{
    let reply = reply_alone(alloc, job, src);
    let answer = deliver(reply, out, err);
    answer.status
}

/// What the job and the source come to, whichever words the job is from.
fn reply_alone<S: Source>(alloc: Global, job: &Job, src: &mut S) -> Reply
    requires { runs_on_nodes job.now.action ≡ false }
    ensures { (words : List (List ℕ)) → IsCommand words job.now → Meant words
        (port (S.left src.old) (S.faults src.old)) (port (S.left src.new) (S.faults src.new)) (outcome_of result) }
{
    match read_text(alloc, src) {
        Ok(text) => reply_to_text(alloc, job, &text),
        Err(reply) => reply,
    }
}

/// What the job makes of a text.
fn reply_to_text(alloc: Global, job: &Job, text: &[u8]) -> Reply
    requires { runs_on_nodes job.now.action ≡ false }
    ensures { TextMeant (form_of job.now) text.now job.now (outcome_of result) }
{
    match accept(alloc, form_of(job), &job.grid, text) {
        Ok(accepted) => reply_to_accepted(alloc, job, &accepted),
        Err(StaticError::Refused(refusal)) => reply_refused(alloc, refusal),
        Err(StaticError::Memory) => Reply::Memory,
    }
}

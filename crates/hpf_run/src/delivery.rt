//! How a reply is written.

ghost use Rattle.hpf_run.specs.Outcome.{Delivered, port};
ghost use Rattle.hpf_run.specs.Reply.{outcome_of};

use crate::answer::Answer;
use crate::reply::Reply;
use hpf_base::Status;
use hpf_ports::{Sink, write_all};

/// Writes a reply: first standard output, then standard error. What a run on nodes leaves is kept where all is written.
pub(crate) fn deliver<O: Sink, E: Sink>(reply: Reply, out: &mut O, err: &mut E) -> Answer
    ensures { Delivered (outcome_of reply) (port (O.held out.old) (O.faults out.old)) (port (O.held out.new) (O.faults out.new))
        (port (E.held err.old) (E.faults err.old)) (port (E.held err.new) (E.faults err.new)) result.status result.ran }
{
    let Ok(()) = write_all(out, reply.out()) else {
        return Answer {
            status: Status::WriteFault,
            ran: None,
        };
    };
    let Ok(()) = write_all(err, reply.err()) else {
        return Answer {
            status: Status::WriteFault,
            ran: None,
        };
    };
    let status = reply.status();
    Answer {
        status,
        ran: reply.into_ran(),
    }
}

//! The text that a source has.

ghost use Rattle.std.specs.Prelude.{◌≡◌, ◌≤◌, ℕ, List, true, length, IfOk, IfErr};
ghost use Rattle.hpf_ports.specs.declared.limits.TheConstants.{MAX_SOURCE_BYTES};
ghost use Rattle.hpf_ports.specs.Ports.{Gave, IsAtEnd};
ghost use Rattle.hpf_words.specs.declared.job.Job.{Job};
ghost use Rattle.hpf_run.specs.Command.{IsCommand, reads_source};
ghost use Rattle.hpf_run.specs.Outcome.{Meant, port};
ghost use Rattle.hpf_run.specs.Reply.{outcome_of};

use crate::reply::Reply;
use hpf_ports::{ReadAll, Source, read_all};
use std::alloc::Global;

/// All that the source has left. An `Err` is the reply to a source that isn't read to its end, for any words that ask for what reads it.
pub(crate) fn read_text<S: Source>(alloc: Global, src: &mut S) -> Result<Vec<u8>, Reply>
    ensures whole { IfOk result (λ text. Gave (S.left src.old) (S.left src.new) text.items) }
    ensures end { IfOk result (λ text. IsAtEnd (S.left src.new)) }
    ensures short { IfOk result (λ text. length text.items ≤ MAX_SOURCE_BYTES) }
    ensures unread { IfErr result (λ reply. (words : List (List ℕ)) (job : Job) → IsCommand words job → reads_source job.action ≡ true
        → Meant words (port (S.left src.old) (S.faults src.old)) (port (S.left src.new) (S.faults src.new)) (outcome_of reply)) }
{
    match read_all(alloc, src) {
        Ok(text) => Ok(text),
        Err(ReadAll::Fault) => Err(Reply::ReadFault),
        Err(ReadAll::TooLong) => Err(Reply::TooLong),
        Err(ReadAll::Memory) => Err(Reply::Memory),
    }
}

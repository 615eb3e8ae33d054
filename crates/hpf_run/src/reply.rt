//! What a call of the program means to answer. Every text is made before the first is written.

ghost use Rattle.std.specs.Prelude.{◌≡◌, IfOk};
ghost use Rattle.hpf_run.specs.Outcome.{refusal_line};
ghost use Rattle.hpf_run.specs.Reply.{IsFaulted, IsReplyOf, outcome_of};

use distributed_run::Ran;
use hpf_base::{OutOfMemory, Refusal, Status};
use itoa::Buffer;
use name_table::Names;
use run_report::fault_line;
use std::alloc::Global;
use term_values::Fault;

/// An answer, with the text that isn't known beforehand.
#[derive(Drop)]
pub enum Reply {
    /// The bytes that the action prints, and what its run on nodes leaves, where there was one.
    Done(Vec<u8>, Option<Ran>),
    /// The bytes that the program prints before a fault, the fault's line, and what its run on nodes leaves, where there was one.
    Fault(Vec<u8>, Vec<u8>, Option<Ran>),
    /// The refusal's line.
    Refused(Vec<u8>),
    Usage,
    ReadFault,
    TooLong,
    Memory,
}

impl Reply {
    pub fn status(&self) -> Status
        ensures { result ≡ (outcome_of self.now).status }
    {
        match self {
            Reply::Done(_, _) => Status::Done,
            Reply::Fault(_, _, _) => Status::Fault,
            Reply::Refused(_) => Status::Refused,
            Reply::Usage => Status::Usage,
            Reply::ReadFault => Status::ReadFault,
            Reply::TooLong => Status::TooLong,
            Reply::Memory => Status::Memory,
        }
    }

    /// The bytes for standard output.
    pub fn out(&self) -> &[u8]
        ensures { result.now ≡ (outcome_of self.now).out }
    {
        match self {
            Reply::Done(printed, _) | Reply::Fault(printed, _, _) => printed,
            _ => &[],
        }
    }

    /// The line for standard error.
    pub fn err(&self) -> &[u8]
        ensures { result.now ≡ (outcome_of self.now).err }
    {
        match self {
            Reply::Done(_, _) => &[],
            Reply::Fault(_, line, _) | Reply::Refused(line) => line,
            Reply::Usage => {
                b"hpf: usage: hpf ACTION [--grid G] [--threads T] [--size N] [--arrays] [--fixed]\n"
            }
            Reply::ReadFault => b"hpf: read fault\n",
            Reply::TooLong => b"hpf: source too long\n",
            Reply::Memory => b"hpf: out of memory\n",
        }
    }

    /// What a run on nodes leaves.
    pub(crate) fn into_ran(self) -> Option<Ran>
        ensures { result ≡ (outcome_of self).ran }
    {
        match self {
            Reply::Done(_printed, ran) => ran,
            Reply::Fault(_printed, _line, ran) => ran,
            Reply::Refused(_line) => None,
            Reply::Usage | Reply::ReadFault | Reply::TooLong | Reply::Memory => None,
        }
    }
}

/// The line that a refusal is reported by.
fn refusal_text(alloc: Global, refusal: Refusal) -> Result<Vec<u8>, OutOfMemory>
    ensures { IfOk result (λ text. text.items ≡ refusal_line refusal) }
{
    let mut line = Buffer::new();
    let mut reason = Buffer::new();
    let mut text = Vec::from_slice(alloc, b"hpf: line ")?;
    text.extend_from_slice(line.format(refusal.line).as_bytes())?;
    text.extend_from_slice(b": refused ")?;
    text.extend_from_slice(reason.format(refusal.reason.number()).as_bytes())?;
    text.extend_from_slice(b" ")?;
    text.extend_from_slice(refusal.reason.name().as_bytes())?;
    text.extend_from_slice(b"\n")?;
    Ok(text)
}

/// The reply to a text that is refused.
pub(crate) fn reply_refused(alloc: Global, refusal: Refusal) -> Reply
    ensures { IsReplyOf refusal (outcome_of result) }
{
    match refusal_text(alloc, refusal) {
        Ok(text) => Reply::Refused(text),
        Err(_) => Reply::Memory,
    }
}

/// The reply to a fault after what was printed.
pub(crate) fn reply_faulted(
    alloc: Global,
    names: &Names,
    printed: Vec<u8>,
    fault: Fault,
    ran: Option<Ran>,
) -> Reply
    ensures { IsFaulted names.now printed.items fault ran (outcome_of result) }
{
    match fault_line(alloc, names, fault.line, &fault.cause) {
        Ok(line) => Reply::Fault(printed, line, ran),
        Err(_) => Reply::Memory,
    }
}

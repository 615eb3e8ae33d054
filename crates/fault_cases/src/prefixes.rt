//! Runs on each prefix of a text.

use crate::call::{Answer, Streams, call};
use crate::show::write_answer;
use fault_texts::is_refusal;
use std::alloc::{AllocError, Global};
use std::fmt::Write;
use std::sync::Wait;
use std::thread::Threads;

/// What is said of a text.
#[derive(Clone, Copy)]
enum Verdict {
    Accepted,
    Refused,
}

/// Writes how many prefixes of the text are accepted and how many refused, where each is answered as it must be.
pub fn write_prefixes<R: Threads + Wait + Sync>(
    rt: &R,
    alloc: Global,
    answer: &mut String,
    words: &[String],
    text: &[u8],
) -> Result<(), AllocError> {
    let mut accepted = 0u64;
    let mut refused = 0u64;
    for len in 0..=text.len() {
        let prefix = text.get(..len).unwrap_or(text);
        let found = call(rt, alloc, words, prefix, Streams::plain())?;
        match judged(&found) {
            Some(Verdict::Accepted) => accepted = accepted.saturating_add(1),
            Some(Verdict::Refused) => refused = refused.saturating_add(1),
            None => return write_wrong(answer, len, &found),
        }
    }
    let runs = accepted.saturating_add(refused);
    writeln!(
        answer,
        "  runs: {runs}, accepted: {accepted}, refused: {refused}, all as they must be"
    )
}

/// What is said of a text, where it is said as it must be, with all of the text read.
fn judged(found: &Answer) -> Option<Verdict> {
    let accepted: &[u8] = b"accepted\n";
    let (out, err) = (found.out.bytes(), found.err.bytes());
    match (found.status, found.left) {
        (0, 0) if out == accepted && err.is_empty() => Some(Verdict::Accepted),
        (1, 0) if out.is_empty() && is_refusal(err) => Some(Verdict::Refused),
        _ => None,
    }
}

/// Writes what the prefix of this length comes to.
fn write_wrong(answer: &mut String, len: usize, found: &Answer) -> Result<(), AllocError> {
    writeln!(
        answer,
        "  the prefix of {len} bytes isn't answered as it must be:"
    )?;
    write_answer(answer, found)
}

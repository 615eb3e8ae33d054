//! Runs in which one call of a stream fails, the first in the first run, and so on.

use crate::call::{Answer, Stream, Streams, call};
use crate::show::write_answer;
use fault_texts::{Case, Tried};
use std::alloc::{AllocError, Global};
use std::fmt::Write;
use std::sync::Wait;
use std::thread::Threads;

/// The most runs of a case.
const MOST_RUNS: u64 = 10_000;

/// The status of a read that failed.
const READ_FAULT: u8 = 4;

/// The status of a write that failed.
const WRITE_FAULT: u8 = 5;

/// Writes what the run comes to in which nothing fails, and then how many runs there are up to the first without a fault, where all of them
/// are as they must be.
pub fn write_faults<R: Threads + Wait + Sync>(
    rt: &R,
    alloc: Global,
    answer: &mut String,
    case: &Case,
    words: &[String],
    text: &[u8],
) -> Result<(), AllocError> {
    let whole = call(rt, alloc, words, text, plain(case))?;
    write_answer(answer, &whole)?;
    for number in 1..=MOST_RUNS {
        let found = call(rt, alloc, words, text, failing(case, number))?;
        if !is_faulted(case, number, text.len(), &whole, &found) {
            return write_last(answer, number, &whole, &found);
        }
    }
    answer.push_str("  no run ended without a fault\n")
}

/// The streams of a case, of which none but the source may fail.
fn plain(case: &Case) -> Streams {
    let mut streams = Streams::plain();
    streams.source.fails = case.fails;
    streams
}

/// The streams of the run in which the call of this number fails.
fn failing(case: &Case, number: u64) -> Streams {
    let mut streams = plain(case);
    let stream = Stream {
        piece: case.number,
        fails: number,
    };
    match case.tried {
        Tried::Reads => streams.source = stream,
        Tried::Writes => streams.out = stream,
        Tried::Errs => streams.err = stream,
        Tried::Prefixes | Tried::Chance => {}
    }
    streams
}

/// Whether the run in which the call of this number fails, of a text of so many bytes, comes to the fault of that call.
fn is_faulted(case: &Case, number: u64, len: usize, whole: &Answer, found: &Answer) -> bool {
    let before = number.saturating_sub(1) as usize;
    let done = before.saturating_mul(case.number.max(1));
    match case.tried {
        Tried::Reads => is_read_fault(found) && found.left == len.saturating_sub(done),
        Tried::Writes => {
            is_write_fault(whole, found)
                && is_front(done, whole.out.bytes(), found.out.bytes())
                && found.err.bytes().is_empty()
        }
        Tried::Errs => {
            is_write_fault(whole, found)
                && found.out.bytes() == whole.out.bytes()
                && is_front(done, whole.err.bytes(), found.err.bytes())
        }
        Tried::Prefixes | Tried::Chance => false,
    }
}

/// Whether the answer is that of a read that failed.
fn is_read_fault(found: &Answer) -> bool {
    let line: &[u8] = b"hpf: read fault\n";
    found.status == READ_FAULT && found.out.bytes().is_empty() && found.err.bytes() == line
}

/// Whether the status is that of a write that failed, and the source was read as far as where none does.
fn is_write_fault(whole: &Answer, found: &Answer) -> bool {
    found.status == WRITE_FAULT && found.left == whole.left
}

/// Whether bytes are the first so many of others, and not all of them.
fn is_front(len: usize, whole: &[u8], found: &[u8]) -> bool {
    match whole.get(..len) {
        Some(front) => len < whole.len() && front == found,
        None => false,
    }
}

/// Whether two runs come to the same.
fn is_same(one: &Answer, other: &Answer) -> bool {
    one.status == other.status
        && one.left == other.left
        && one.out.bytes() == other.out.bytes()
        && one.err.bytes() == other.err.bytes()
}

/// Writes how many runs there are, where this last one comes to the same as the one in which nothing fails, and else what it comes to.
fn write_last(
    answer: &mut String,
    number: u64,
    whole: &Answer,
    found: &Answer,
) -> Result<(), AllocError> {
    if is_same(whole, found) {
        let faults = number.saturating_sub(1);
        writeln!(
            answer,
            "  runs: {number}, faults: {faults}, all as they must be"
        )
    } else {
        writeln!(answer, "  run {number} isn't as it must be:")?;
        write_answer(answer, found)
    }
}

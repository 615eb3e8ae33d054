//! What every action says of texts that are made by numbers.

use crate::call::{Answer, Streams, call};
use case_texts::write_text;
use fault_texts::{is_fault, is_refusal, text_of_number};
use std::alloc::{AllocError, Global};
use std::fmt::Write;
use std::sync::Wait;
use std::thread::Threads;

/// How a run ends.
#[derive(Clone, Copy, PartialEq)]
enum End {
    Done,
    Refused,
    Fault,
}

/// How a run ends, where both texts are as its status wants them and all of the source was read.
fn end_of(found: &Answer) -> Option<End> {
    let (out, err) = (found.out.bytes(), found.err.bytes());
    match (found.status, found.left) {
        (0, 0) if err.is_empty() => Some(End::Done),
        (1, 0) if out.is_empty() && is_refusal(err) => Some(End::Refused),
        (3, 0) if is_fault(err) => Some(End::Fault),
        _ => None,
    }
}

/// The words of each action that reads a text.
fn words_of(alloc: Global, action: u64) -> Result<Vec<String>, AllocError> {
    let line = match action {
        0 => "check --grid 3",
        1 => "map --grid 3",
        2 => "serial --grid 3",
        3 => "messages --grid 3",
        _ => "run --grid 3 --threads 1",
    };
    let mut words = Vec::new(alloc);
    for word in line.split(' ') {
        words.push(String::from_str(alloc, word)?)?;
    }
    Ok(words)
}

/// How a text ends under each action, where these agree: `check` and `map` accept what the others run, `messages` ends as `serial` does, and
/// `run` comes to what `serial` comes to.
fn tried<R: Threads + Wait + Sync>(
    rt: &R,
    alloc: Global,
    text: &[u8],
) -> Result<Option<End>, AllocError> {
    let mut answers = Vec::new(alloc);
    for action in 0..5 {
        let words = words_of(alloc, action)?;
        answers.push(call(rt, alloc, &words, text, Streams::plain())?)?;
    }
    Ok(agreed(&answers))
}

/// How `serial` ends, where the answers agree.
fn agreed(answers: &[Answer]) -> Option<End> {
    let [check, map, serial, messages, run] = answers else {
        return None;
    };
    let end = end_of(serial)?;
    let accepted = if end == End::Refused {
        End::Refused
    } else {
        End::Done
    };
    let is_so = end_of(check)? == accepted && end_of(map)? == accepted && end_of(messages)? == end;
    if is_so && end_of(run)? == end && alike(serial, run) {
        return Some(end);
    }
    None
}

/// Whether two runs wrote the same.
fn alike(one: &Answer, other: &Answer) -> bool {
    one.out.bytes() == other.out.bytes() && one.err.bytes() == other.err.bytes()
}

/// How many texts came to each end.
#[derive(Drop)]
struct Ends {
    done: u64,
    refused: u64,
    faults: u64,
}

impl Ends {
    /// One more with this end.
    fn count(&mut self, end: End) {
        match end {
            End::Done => self.done = self.done.saturating_add(1),
            End::Refused => self.refused = self.refused.saturating_add(1),
            End::Fault => self.faults = self.faults.saturating_add(1),
        }
    }

    /// Whether each end came.
    fn has_each(&self) -> bool {
        self.done > 0 && self.refused > 0 && self.faults > 0
    }
}

/// Writes how many texts were tried, and that each was answered as it must be by each action; or else the first that wasn't.
pub fn write_chance<R: Threads + Wait + Sync>(
    rt: &R,
    alloc: Global,
    answer: &mut String,
    count: usize,
) -> Result<(), AllocError> {
    let mut ends = Ends {
        done: 0,
        refused: 0,
        faults: 0,
    };
    for number in 0..count {
        let text = text_of_number(alloc, number as u64)?;
        match tried(rt, alloc, &text)? {
            Some(end) => ends.count(end),
            None => return write_wrong(answer, &text),
        }
    }
    let each = if ends.has_each() {
        "each end among them"
    } else {
        "not each end"
    };
    writeln!(answer, "  texts: {count}, {each}, all as they must be")
}

/// Writes a text that isn't answered as it must be.
fn write_wrong(answer: &mut String, text: &[u8]) -> Result<(), AllocError> {
    answer.push_str("  not answered as it must be: ")?;
    write_text(answer, text)?;
    answer.push_str("\n")
}

//! The answers to cases.

use crate::chance::write_chance;
use crate::faults::write_faults;
use crate::prefixes::write_prefixes;
use case_texts::{TextError, text_of};
use fault_texts::{Case, Tried};
use std::alloc::{AllocError, Global};
use std::sync::Wait;
use std::thread::Threads;

/// The answer to a case, in lines.
pub fn answer_to<R: Threads + Wait + Sync>(
    rt: &R,
    alloc: Global,
    case: &Case,
) -> Result<String, AllocError> {
    let mut answer = String::new(alloc);
    match text_of(alloc, case.text.as_str()) {
        Ok(text) => write_runs(rt, alloc, &mut answer, case, &text)?,
        Err(TextError::Malformed) => answer.push_str("  no text is written so\n")?,
        Err(TextError::Memory) => answer.push_str("  out of memory\n")?,
    }
    Ok(answer)
}

/// Writes what the runs of a case with this text come to.
fn write_runs<R: Threads + Wait + Sync>(
    rt: &R,
    alloc: Global,
    answer: &mut String,
    case: &Case,
    text: &[u8],
) -> Result<(), AllocError> {
    let words = words_of(alloc, case.words.as_str())?;
    match case.tried {
        Tried::Prefixes => write_prefixes(rt, alloc, answer, &words, text),
        Tried::Chance => write_chance(rt, alloc, answer, case.number),
        _ => write_faults(rt, alloc, answer, case, &words, text),
    }
}

/// The words that stand in a line; none where nothing does.
fn words_of(alloc: Global, line: &str) -> Result<Vec<String>, AllocError> {
    let mut words = Vec::new(alloc);
    if !line.is_empty() {
        for word in line.split(' ') {
            words.push(String::from_str(alloc, word)?)?;
        }
    }
    Ok(words)
}

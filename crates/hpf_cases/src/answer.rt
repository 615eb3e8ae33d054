//! The answers to cases.

use crate::alike::{write_alike, write_writing};
use crate::case::{Case, Wanted};
use crate::job::write_job;
use crate::ran::queues_text;
use crate::rounds::are_fewest;
use case_texts::{TextError, text_of, write_text};
use hpf_ports::{Gate, MeetGate, MemSink, OpenGate, Source, read_all};
use hpf_run::hpf_top;
use std::alloc::{AllocError, Global};
use std::fmt::Write;
use std::sync::Wait;
use std::thread::Threads;

/// The answer to a case, in lines.
pub fn answer_to<R: Threads + Wait + Sync>(
    rt: &R,
    alloc: Global,
    case: Case,
) -> Result<String, AllocError> {
    let mut out = String::new(alloc);
    match case.wanted {
        Wanted::Job => {
            let words = words_of(alloc, case.words.as_str())?;
            write_job(alloc, &mut out, &words)?;
        }
        Wanted::Answer | Wanted::Ran | Wanted::Writing | Wanted::Alike => match text_of(
            alloc,
            case.text.as_str(),
        ) {
            Ok(text) => write_answer(rt, alloc, &mut out, case, text)?,
            Err(TextError::Malformed) => out.push_str("  no text is written so\n")?,
            Err(TextError::Memory) => out.push_str("  out of memory\n")?,
        },
    }
    Ok(out)
}

/// Writes what a case with this source asks for.
fn write_answer<R: Threads + Wait + Sync>(
    rt: &R,
    alloc: Global,
    answer: &mut String,
    case: Case,
    text: Vec<u8>,
) -> Result<(), AllocError> {
    match case.wanted {
        Wanted::Alike => write_alike(rt, alloc, answer, case.words.as_str(), &text),
        Wanted::Writing => write_writing(rt, alloc, answer, case.words.as_str(), &text),
        Wanted::Ran => write_meeting(rt, alloc, answer, case, text),
        _ => {
            write_run(rt, alloc, answer, case, text, &OpenGate)?;
            Ok(())
        }
    }
}

/// Runs the top call on a case with this source at a gate where two threads meet, and writes what it comes to, what its run on nodes leaves, and
/// whether they met.
fn write_meeting<R: Threads + Wait + Sync>(
    rt: &R,
    alloc: Global,
    answer: &mut String,
    case: Case,
    text: Vec<u8>,
) -> Result<(), AllocError> {
    let gate = MeetGate::new();
    let queues = write_run(rt, alloc, answer, case, text, &gate)?;
    answer.push_str(&queues)?;
    let met = if gate.met() {
        "  two threads met\n"
    } else {
        "  no two threads met\n"
    };
    answer.push_str(met)
}

/// Runs the top call on a case with this source, writes what it comes to, and gives the lines of what its run on nodes leaves.
fn write_run<R: Threads + Wait + Sync, G: Gate>(
    rt: &R,
    alloc: Global,
    written: &mut String,
    case: Case,
    text: Vec<u8>,
    gate: &G,
) -> Result<String, AllocError> {
    let words = words_of(alloc, case.words.as_str())?;
    let mut src = case.source.source(text);
    let mut out = case.out.sink(alloc)?;
    let mut err = case.err.sink(alloc)?;
    let answer = hpf_top(rt, alloc, &words, &mut src, &mut out, &mut err, gate);
    let queues = queues_text(alloc, &answer.ran);
    let status = answer.into_status();
    write!(written, "  status {}, ", status.exit_code())?;
    write_left(alloc, written, &mut src)?;
    write_held(written, "out", &out)?;
    if !are_fewest(out.bytes()) {
        written.push_str("  rounds that aren't the fewest\n")?;
    }
    write_held(written, "err", &err)?;
    queues
}

/// The words that stand in a line; none where nothing does.
fn words_of(alloc: Global, line: &str) -> Result<Vec<String>, AllocError> {
    let mut words = Vec::new(alloc);
    if !line.is_empty() {
        for word in line.split(' ') {
            words.push(String::from_str(alloc, word)?)?;
        }
    }
    Ok(words)
}

/// Writes how many bytes a source still gives.
fn write_left(alloc: Global, out: &mut String, src: &mut impl Source) -> Result<(), AllocError> {
    match read_all(alloc, src) {
        Ok(rest) => writeln!(out, "{} bytes left", rest.len()),
        Err(_) => out.push_str("what is left can't be read\n"),
    }
}

/// Writes the bytes that a sink holds, where it holds any.
fn write_held(out: &mut String, name: &str, sink: &MemSink) -> Result<(), AllocError> {
    if !sink.bytes().is_empty() {
        write!(out, "  {name} ")?;
        write_text(out, sink.bytes())?;
        out.push_str("\n")?;
    }
    Ok(())
}

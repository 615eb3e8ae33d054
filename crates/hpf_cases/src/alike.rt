//! What the program writes, and runs on nodes beside runs in one order.

use crate::stream::Stream;
use case_texts::write_text;
use hpf_ports::{MemSink, OpenGate};
use hpf_run::hpf_top;
use std::alloc::{AllocError, Global};
use std::fmt::Write;
use std::sync::Wait;
use std::thread::Threads;

/// What the program answers: its exit status, and what it writes.
#[derive(Drop)]
struct Answer {
    status: u8,
    out: MemSink,
    err: MemSink,
}

/// Writes what the program writes on four nodes, to standard output and then to standard error.
pub fn write_writing<R: Threads + Wait + Sync>(
    rt: &R,
    alloc: Global,
    answer: &mut String,
    action: &str,
    text: &[u8],
) -> Result<(), AllocError> {
    let written = answer_to_words(rt, alloc, &[action, "--grid", "4"], text)?;
    answer.push_str("  ")?;
    write_text(answer, written.out.bytes())?;
    write_text(answer, written.err.bytes())?;
    answer.push_str("\n")
}

/// The numbers of threads on which programs run on a grid: 1, 2, 3 and 8, without those that make no more crews; on 64 nodes 1 and 8.
fn threads_on(grid: &str) -> &str {
    match grid {
        "1" | "1x1" => "1",
        "2" | "2x1" => "1 2",
        "3" | "3x1" => "1 2 3",
        "8x8" => "1 8",
        _ => "1 2 3 8",
    }
}

/// Writes for each grid whether `run` answers as `serial` does for the text, on each number of threads.
pub fn write_alike<R: Threads + Wait + Sync>(
    rt: &R,
    alloc: Global,
    answer: &mut String,
    grids: &str,
    text: &[u8],
) -> Result<(), AllocError> {
    for grid in grids.split(' ') {
        let in_order = answer_to_words(rt, alloc, &["serial", "--grid", grid], text)?;
        let mut alike = true;
        for threads in threads_on(grid).split(' ') {
            let words = ["run", "--grid", grid, "--threads", threads];
            let on_nodes = answer_to_words(rt, alloc, &words, text)?;
            if !is_same(&in_order, &on_nodes) {
                alike = false;
                writeln!(
                    answer,
                    "  {grid}: status {} in one order, {} on nodes with {threads} threads",
                    in_order.status, on_nodes.status
                )?;
            }
        }
        if alike {
            writeln!(answer, "  {grid}: alike")?;
        }
    }
    Ok(())
}

/// What the program answers to words.
fn answer_to_words<R: Threads + Wait + Sync>(
    rt: &R,
    alloc: Global,
    given: &[&str],
    text: &[u8],
) -> Result<Answer, AllocError> {
    let mut words = Vec::new(alloc);
    for word in given {
        words.push(String::from_str(alloc, word)?)?;
    }
    let mut src = Stream::new(alloc).source(Vec::from_slice(alloc, text)?);
    let mut out = Stream::new(alloc).sink(alloc)?;
    let mut err = Stream::new(alloc).sink(alloc)?;
    let answer = hpf_top(rt, alloc, &words, &mut src, &mut out, &mut err, &OpenGate);
    Ok(Answer {
        status: answer.into_status().exit_code(),
        out,
        err,
    })
}

fn is_same(one: &Answer, other: &Answer) -> bool {
    one.status == other.status
        && one.out.bytes() == other.out.bytes()
        && one.err.bytes() == other.err.bytes()
}

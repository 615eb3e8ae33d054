//! Tries the top call on cases: words, sources and sinks whose answers are known.
//!
//! Comes in: cases on standard input. Goes out: the same lines, and after each case its answer. What holds in between: a
//! line that begins with one of these words begins a case, with the words of the command line after it, a blank between two.
//!
//! - `job`: the answer is the job that the words are, or that they are none.
//! - `words`: the answer is the status, how many bytes the source has left, and what standard output and standard error then hold. Where standard output
//!   lists messages of redistributions and their rounds aren't the fewest, that is said too.
//! - `ran`: the answer is that of `words`, at a gate where two threads meet; and then for each queue on which nodes sent letters how many, how many
//!   queues there are, and whether two threads met.
//! - `alike`: grids stand after it; the answer says of each whether `run` and `serial` on it have the same status and write the same, on 1, 2, 3
//!   and 8 threads, where these are crews of another number, and on 64 nodes on 1 and 8.
//!
//! A line that begins with `check` or `serial` is a case with its source after the word; the answer is what this action on four nodes writes.
//!
//! These lines go on with it:
//!
//! - `text`: the source, written as `case_texts` says; on further lines that begin with a bar it goes on.
//! - `source`, `out` or `err`: how that stream behaves. After `piece` stands how many bytes it gives or takes in a call, after
//!   `room` how many a sink holds at most, and after `fails` the numbers of the calls that fail, from 1.
//!
//! Any other line ends it.
#![tactic(auto)]

mod alike;
mod answer;
mod case;
mod job;
mod ran;
mod rounds;
mod stream;

use crate::answer::answer_to;
use crate::case::Case;
use std::io;
use std::io::{BufRead, BufReader};
use std::sync::Wait;
use std::thread::Threads;

/// Prints the answer to a case.
fn print_answer<R: Print + AllocGlobal + Threads + Wait + Sync>(
    rt: &R,
    case: Option<Case>,
) -> io::Result<()> {
    if let Some(case) = case {
        print!(rt; "{}", answer_to(rt, rt.alloc(), case)?)?;
    }
    Ok(())
}

fn main(rt: HostRuntime) -> io::Result<()> {
    let alloc = rt.alloc();
    let mut open: Option<Case> = None;
    for line in BufReader::new(alloc, rt.reader())?.lines(alloc) {
        let line = line?;
        let goes_on = match &mut open {
            Some(case) => case.go_on(line.as_str())?,
            None => false,
        };
        if !goes_on {
            print_answer(&rt, open.take())?;
            open = Case::begin(alloc, line.as_str())?;
        }
        println!(rt; "{line}")?;
    }
    print_answer(&rt, open)
}

//! Tries the top call where one call of a stream fails, at each call in turn, on each prefix of a text, and on texts made by numbers.
//!
//! Comes in: cases on standard input. Goes out: the same lines, and after each case its answer. What holds in between: a line that begins with
//! one of these words begins a case. A number of bytes stands after the first three, and then the words of the command line, a blank between two.
//!
//! - `reads`: standard input gives at most so many bytes in a call, and read 1 fails, then in a further run read 2, and so on, until a run ends
//!   without a fault. In each run before, the status is 4, standard output is empty, standard error has the line of a read fault, and the
//!   source has left what the reads before didn't give.
//! - `writes`: standard output takes at most so many bytes in a call, and write 1 fails, then write 2, and so on. In each run before the last the
//!   status is 5, standard output holds what the writes before took, which is less than the whole of it, and standard error is empty.
//! - `errs`: standard error takes at most so many bytes in a call, and its writes fail so. In each run before the last the status is 5,
//!   standard output holds all that it holds where nothing fails, and standard error what its writes before took, which is less than the whole of it.
//! - `prefixes`: the text is each prefix of the text in turn, from no byte to all of them. In each run the status is 0, standard output holds
//!   `accepted` and a line feed, and standard error is empty; or the status is 1, standard output is empty, and standard error has the
//!   line of a refusal.
//! - `chance`: so many texts are made by the numbers from 0, of words in no order, of lines that may stand in a program, and of such lines with one
//!   byte changed. Each is run under each action that reads a text. In each run the status is 0, 1 or 3, all of the text is read, and what stands on
//!   standard error is nothing, the line of a refusal or the line of a fault; `check` and `map` accept what the others don't refuse, and
//!   `messages` and `run` end as `serial` does.
//!
//! These lines go on with a case:
//!
//! - `text`: the source, written as `case_texts` says; on further lines that begin with a bar it goes on.
//! - `fails`: the number of a read that fails in each run.
//!
//! Any other line ends it. The answer to one of the first three is what the run comes to in which nothing fails but that read: the status, how
//! many bytes the source has left, and what standard output and standard error hold. Then comes how many runs there were, and how many faults in
//! those before the last, where the last comes to the same as the run without a fault and those before it are as said above; or else the first
//! run that isn't so, with what it comes to. The answer to `prefixes` is how many runs there were, how many texts were accepted and how many
//! refused, or the first prefix that isn't answered so; that to `chance` how many texts there were, and whether each of the three ends was among
//! them, or the first text that isn't answered so. So a case with its answer, where `accepted` and a line feed are written in 3 calls, is:
//!
//! ```text
//! writes 4 check
//! text END|
//!   status 0, 0 bytes left
//!   out accepted|
//!   runs: 4, faults: 3, all as they must be
//! ```
#![tactic(auto)]

mod answer;
mod call;
mod chance;
mod faults;
mod prefixes;
mod show;

use crate::answer::answer_to;
use fault_texts::Case;
use std::io;
use std::io::{BufRead, BufReader};
use std::sync::Wait;
use std::thread::Threads;

/// Prints the answer to a case.
fn print_answer<R: Print + AllocGlobal + Threads + Wait + Sync>(
    rt: &R,
    case: Option<Case>,
) -> io::Result<()> {
    if let Some(case) = case {
        print!(rt; "{}", answer_to(rt, rt.alloc(), &case)?)?;
    }
    Ok(())
}

fn main(rt: HostRuntime) -> io::Result<()> {
    let alloc = rt.alloc();
    let mut open: Option<Case> = None;
    for line in BufReader::new(alloc, rt.reader())?.lines(alloc) {
        let line = line?;
        let goes_on = match &mut open {
            Some(case) => case.go_on(line.as_str())?,
            None => false,
        };
        if !goes_on {
            print_answer(&rt, open.take())?;
            open = Case::begin(alloc, line.as_str())?;
        }
        println!(rt; "{line}")?;
    }
    print_answer(&rt, open)
}

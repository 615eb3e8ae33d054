//! Tries calls of the lower crates that no program's text reaches.
//!
//! Comes in: cases on standard input. Goes out: the same lines, and after each case its answer. What holds in between: a line that begins with
//! one of these words is a case, and after the word stands its text, written as `case_texts` says.
//!
//! - `grid` and `index`: numbers; the number of nodes of the grid, and the numbers of the tuple.
//! - `names`: words; those that are names, each once.
//! - `word`: a spelling; its code in the tables of words between periods, of symbols and of intrinsic procedures, the sign that it is, the
//!   operators that the sign is between two operands and before one, each with its level and the levels that its operands have to have, and
//!   whether the word is reserved.
//! - `dot` and `symbol`: a code; the same of the sign with this code.
//! - `tokens`: a statement; where each of its tokens begins and ends.
//! - `expression`: a statement; how many tokens stand after the expression in front of it.
//! - `reader`, `writer` and `source`: bytes; what is read and written of them by std's readers and writers, and by a source over memory that
//!   fails once it is at its end. `broken` has none: a reader that fails. `gate` has none either.
#![tactic(auto)]

mod answer;
mod bases;
mod ports;
mod tables;
mod texts;

use crate::answer::GroundAnswers;
use case_texts::print_answers;
use std::io;

fn main(rt: HostRuntime) -> io::Result<()> {
    print_answers(&rt, &GroundAnswers)
}

//! Tries the reader on cases: texts whose answers are known.
//!
//! Comes in: cases on standard input. Goes out: the same lines, and after each case what `read_program` or `read_fixed` answers. What
//! holds in between: a line that begins with one of these words is a case, and after the word is its text.
//!
//! - `read`: the answer is that the text is read, or its refusal.
//! - `tree`: the answer is the tree of the text, or its refusal.
//! - `fronts`: each front of the text is read, from no byte to all; the answer is how many there are of each answer.
//! - `fixed`, `fixed_tree`: as `read` and `tree`, of a text in the fixed source form.
//! - `free`: the answer is the text in the free form that `free_text` makes of a text in the fixed form, or its refusal.
//!
//! After `alike` stands a number instead: so many texts in the fixed form are made by the numbers from 0. The answer is how many there were, and
//! whether some were read, some refused for their lines and some for what stands on them, where `read_fixed` has the same tree for each as
//! `read_program` for its free text, or the same refusal; or else the first text of which it hasn't.
//!
//! A text is written as `case_texts` says. A line that begins with a bar goes on with the text of the line before; other
//! lines are remarks.
#![tactic(auto)]

mod alike;
mod answer;
mod draft;
mod fronts;
mod show;

use crate::answer::ReaderAnswers;
use case_texts::print_answers;
use std::io;

fn main(rt: HostRuntime) -> io::Result<()> {
    print_answers(&rt, &ReaderAnswers)
}

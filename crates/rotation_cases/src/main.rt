//! Tries the nodes of programs in rotation where each of their local steps is refused memory once.
//!
//! Comes in: cases on standard input. Goes out: the same lines, and after each case its answer. What holds in between: a line that begins with `rotation` is a
//! case; after it stand a grid, its extents joined by `x`, and a text, written as `case_texts` says. On further lines that begin with a bar the text goes on.
//! Other lines are remarks.
//!
//! The nodes of the text's program on the grid make one step each in rotation (`run_rotation`). Then they do so once more, with nodes that are refused memory
//! at each local step once; as often as the call answers so it is made again. The answer is whether local steps were refused, and whether the nodes then
//! have printed, hold and sent what they did in the run before; or why the text is refused. It is `no answer` where there is no such grid, and where memory is
//! wanting.
#![tactic(auto)]

mod answer;
mod cores;
mod same;
mod scarce;

use crate::answer::RotationAnswers;
use case_texts::print_answers;
use std::io;

fn main(rt: HostRuntime) -> io::Result<()> {
    print_answers(&rt, &RotationAnswers)
}

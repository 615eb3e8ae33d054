//! Tries node code on nodes: code that is written by hand, whose outcome is known.
//!
//! Comes in: cases on standard input. Goes out: the same lines, and after each case what its code comes to on the first of its grids, and
//! whether the nodes of each grid come to the same, with one step each in rotation; where they don't in descending order of nodes, or with each node as long as it
//! moves, or send other letters then, that is said too. What holds in between: `case` begins a case and `run` ends it; these lines say what it is.
//!
//! - `text`: an HPF program, written as `case_texts` says. Its arrays, with their values and their mappings, are those of the code: the rows A,
//!   B and so on in the order of their declaration.
//! - `copies`: how many further rows there are, for copies; they have the next letters.
//! - `slots`: the values of the slots at the start.
//! - `grids`: the grids of nodes on which the code runs, as `4` or `2x2`; without such a line 1, 2, 3, 4 and 64 nodes.
//! - A line that begins with a number is the instruction with that place, written as `case_code` says. Places ascend.
//! - `show`, a grid, and words: letters for what each node holds of these rows, `slots` for the last slots of node 0, `letters` for
//!   each letter, with its phase, source, target, number and values.
//!
//! Other lines are remarks. A case has no answer where it isn't written so, its program is refused, its code doesn't fit the rows, or memory
//! is wanting but at a local step: that is made again, and the answer says how many were refused memory.
#![tactic(auto)]

mod answer;
mod driver;
mod fitting;
mod layouts;
mod opening;
mod outcome;
mod show;

use crate::answer::answer_to;
use std::io;
use std::io::{BufRead, BufReader};

fn main(rt: HostRuntime) -> io::Result<()> {
    let alloc = rt.alloc();
    let mut case = Vec::new(alloc);
    for line in BufReader::new(alloc, rt.reader())?.lines(alloc) {
        let line = line?;
        println!(rt; "{line}")?;
        if line.as_str() == "run" {
            print!(rt; "{}", answer_to(alloc, &case)?)?;
        } else {
            if let Some(("case", _)) = line.as_str().split_once(' ') {
                case = Vec::new(alloc);
            }
            case.push(line)?;
        }
    }
    Ok(())
}

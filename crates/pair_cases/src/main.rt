//! Tries the messages of pairs of nodes: what one node sends another for a statement, by the courses of its subscripts, and at a redistribution; and in which
//! rounds pairs exchange their letters.
//!
//! Comes in: cases on standard input. Goes out: the same lines, and after each line that asks its answer. What holds in between: `case` begins a case; these
//! lines say what it is.
//!
//! - `nodes`: how many nodes there are.
//! - `array`: an array with its mapping onto so many nodes, written as `case_mappings` says; a line each. They have the letters A, B and so on in their order.
//! - `over`: the extents of the space.
//! - `left`: what is assigned at its tuples: an array, and a course for each dimension, `f5` for the subscript 5 at each tuple, `m0:1:2` for one that
//!   moves along axis 0 from 1 by 2.
//! - `read`: what is read at them, written in the same way; a line each.
//! - `slots`, and a line that begins with a number: the values of the slots, and a statement in node code over them, `par` or `forall`, written as
//!   `case_code` says.
//! - `after`: an array as it lies after a redistribution, written as `array` writes it and in the same order; a line each. One that stays has the same line again.
//!
//! These lines ask, of what stands before them in the case:
//!
//! - `message`: what one node sends another, by the numbers of the sender and the taker, and by how often it is asked, where that isn't once. The answer is the
//!   elements of the message, and `empty` where there are none; where it is asked more often, how many of the answers are empty.
//! - `statement`: the same of the statement in node code, once.
//! - `pairs`: whether the message of each pair of nodes, of a node and itself too, is what a filter of all elements by the definitions gives: those that the
//!   taker needs and doesn't own, and whose least owner is the sender. The answer is how many pairs there are and how many elements their messages have, or
//!   the first pair that differs, with both lists. Each array has at most 1,024 elements, and the space 1,024 tuples.
//! - `remap`: the same of the redistribution, for which a case needs no statement: those that the taker owns after it and not before, and whose least owner
//!   before is the sender.
//! - `rounds`: the rounds of pairs of nodes, written as `0>1 2>0`, for which a case needs no array. The answer is how many rounds there are and which node is the
//!   busiest, and a line for each round; for the word `all`, which stands for all pairs of two nodes, no more than the first.
//!
//! So a case with its answers, where A(1:3) and A(4:6) are on two nodes and A(1:5) = A(2:6) is done:
//!
//! ```text
//! case shift
//! nodes 2
//! array 1 6; grid 2; block 3 lower 1 extent 6 over 0 linear 0 1 0
//! over 5
//! left A m0:1:1
//! read A m0:2:1
//! message 1 0
//!   A(4)
//! pairs
//!   4 pairs as the filter, 1 elements
//! after 1 6; grid 2; cyclic 1 lower 1 extent 6 over 0 linear 0 1 0
//! remap
//!   4 pairs as the filter, 2 elements
//! ```
//!
//! Other lines are remarks. There is no answer where a case isn't written so, the space is too large, a course goes along no axis of it, an array hasn't as many
//! elements after as before, there is no such node, a pair of `rounds` stands twice or is a node and itself, or memory is wanting.
#![tactic(auto)]

mod answer;
mod arrays;
mod bounds;
mod coded;
mod pairs;
mod rounds;
mod show;
mod sizes;
mod spaces;
mod statement;
mod told;
mod words;

use crate::answer::answer_to;
use std::io;
use std::io::{BufRead, BufReader};

fn main(rt: HostRuntime) -> io::Result<()> {
    let alloc = rt.alloc();
    let mut case = Vec::new(alloc);
    for line in BufReader::new(alloc, rt.reader())?.lines(alloc) {
        let line = line?;
        println!(rt; "{line}")?;
        let (word, rest) = line.as_str().split_once(' ').unwrap_or((line.as_str(), ""));
        if asks(word) {
            print!(rt; "{}", answer_to(alloc, &case, word, rest)?)?;
        } else {
            if word == "case" {
                case = Vec::new(alloc);
            }
            case.push(line)?;
        }
    }
    Ok(())
}

/// Whether a line that begins with this word asks something.
fn asks(word: &str) -> bool {
    matches!(word, "message" | "statement" | "pairs" | "remap" | "rounds")
}

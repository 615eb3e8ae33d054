//! Tries owners, mappings and local addresses on small arrays, and gap tables and congruences on numbers of any size.
//!
//! Comes in: cases on standard input. Goes out: the same lines, and after each case its answer. What holds in between: a line that begins with
//! one of these words is a case. Its parts stand between semicolons, and in each its numbers count, in their order; words among them are for
//! the reader.
//!
//! Lines, arrays and mappings are written as `case_mappings` says. These cases have a line and then positions or coordinates:
//!
//! - `owner`: the coordinate of the owner of each position.
//! - `rank`: how many lesser positions have the owner of each position.
//! - `count`: how many positions the processor at each coordinate owns.
//!
//! These have an array:
//!
//! - `owners` has an array and a mapping: the owners of each element, in array-element order.
//! - `piece` has a node in front of these: the elements that it owns, by their local addresses; and of each element of the array, in
//!   array-element order, its local address.
//! - `compose` has the alignment of a vector with a vector, and a mapping of the latter: the alignments of the composed mapping.
//!
//! - `table` has a line, and a section of it, by a node, its first position, its stride and its number of places: how many of the places,
//!   from 0, the node owns. Three lists of numbers follow, and in the answer what is asked of each: the n-th place; the first place
//!   above a number; and how many places are at most a number.
//! - `steps` has a line and such a section: in how many steps its table is built, and how many offsets the table has.
//! - `gcd` has two integers: their greatest common divisor, and what its sum of multiples of them comes to.
//! - `solve` has a factor, a right side and a modulus: the least solution of the congruence.
//! - `meet` has two progressions, each by its first member, its stride and its number of members: the progression of the members of both.
#![tactic(auto)]

mod answer;
mod composed;
mod integers;
mod owned;
mod positions;
mod sections;
mod show;
mod tables;

use crate::answer::OwnerAnswers;
use case_texts::print_answers;
use std::io;

fn main(rt: HostRuntime) -> io::Result<()> {
    print_answers(&rt, &OwnerAnswers)
}

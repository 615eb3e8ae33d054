//! An operator over whole strips: numbers one behind the other, at each of which it is taken.
//!
//! Comes in: an operator, the strip of its first operand, and that of the second one or a number which is the same at each place. Goes out:
//! its values, in the place of the first operand; or false, and then nothing is said of what stands there. False comes where it has no value
//! somewhere, as where it divides by zero.
//! What holds in between: each operator that has a value for all operands is a type (`OfTwo`), so that its loop has no test, and the compiler
//! can make vectors of it. Others go number by number. No memory is taken.
//!
//! *Proved:* An operator over a whole strip of numbers, one or two operands at each place, or the same second one at
//! all: where it is taken, the number at each place is the operator's value there: `take_of_one`, `take_of_two`,
//! `take_with_number`. False says nothing: that it is taken is never promised.
#![tactic(auto)]

mod kernels;
mod operators;

pub use kernels::{take_of_one, take_of_two, take_with_number};

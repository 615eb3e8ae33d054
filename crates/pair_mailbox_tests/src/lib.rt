//! One pair of nodes, through whose mailbox letters go.
//!
//! Comes in: values. Goes out: letters of the pair in their order, sent at the one end and taken at the other. What holds in
//! between: the ends are those of one queue, and the letters' numbers follow each other.
#![tactic(auto)]

mod one_pair;
#[cfg(test)]
mod tests;

pub use one_pair::{open_one_pair, send_value, take_number};

//! Three nodes that pass numbers round, on which the calls of the core are tried.
//!
//! Comes in: three numbers. Goes out: a core of three nodes, each with one of them. In the first phase each node
//! sends its number to the next and takes the number of the one before. In the four phases after it node 0 sends
//! to node 1 alone, and node 2 is idle. What holds in between: the nodes are phased, so every order of steps ends
//! with the same numbers.
#![tactic(auto)]

mod passer;
#[cfg(test)]
mod tests;
mod three;

pub use passer::Passer;
pub use three::three_nodes;

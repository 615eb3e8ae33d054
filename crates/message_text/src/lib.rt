//! The text of `messages`: what nodes send for the parts of array statements and of nests of INDEPENDENT loops, and for redistributions, as definitions.
//!
//! Comes in: the trail of a run (`statement_trail`), and who owns which element and sends it to whom (`machine_steps`). Goes out, in
//! `specs/`: the lines of a trail on so many nodes, where the declared names lie so at the start. There is no function here that runs.
//!
//! - `Parts`: what a part reads at each tuple of its space, who computes it, and what copies lie beside.
//! - `MessageText`: a line for each message of a part, by source and then by target, with the elements that it holds; and for each of a
//!   redistribution, by round and then by source.
//! - `Examples`: small programs, whose lines the check computes.
//!
//! *Proved:* Definitions alone: the lines of the messages that nodes send for the parts of a trail, those of nests
//! among them, and for its redistributions. Eleven small programs are computed by the check: `lines_of_examples`.
#![tactic(auto)]

mod examples;

pub use examples::lines_of_examples;

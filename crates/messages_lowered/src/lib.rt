//! The text of `messages` from what the machine with whole arrays passes.
//!
//! Comes in: the text of a trail (`message_text`), and what the machine passes over a program's code (`lowering`). Goes out: the law that the
//! text by the instructions that are passed, with their slots, is the text of the trail, over any well-formed statements and over every program that
//! breaks no rule. So who runs that machine can list the messages.
//!
//! What holds in between: of each instruction that is passed the part, by its slots, is the part of the entry that it is.
//!
//! *Proved:* What the machine with whole arrays passes over the code of a program has the lines of the program's trail,
//! for any number of nodes and any mappings: `texts_lowered`, and for every program that breaks no rule
//! `accepted_texts_lowered`.
#![tactic(auto)]

mod promises;

pub use promises::{accepted_texts_lowered, texts_lowered};

//! Each pair of nodes between which a redistribution moves something stands in one of its rounds.
//!
//! Comes in: who owns each element before a redistribution and after it (`machine_steps`), and that the colours of pairs are legal rounds
//! (`redistribute_rounds`). Goes out: three laws, the contracts of functions that do nothing; they speak of no table and of no list of messages. What
//! holds in between: where each element has an owner a node sends nothing to itself, so all pairs with a message are pairs of different nodes;
//! they are distinct, so in a round their sources differ, and so do their targets.
//!
//! *Proved:* By laws alone: where each element has an owner, each pair of nodes between which a redistribution moves
//! something stands in one of its rounds: `rounds_cover`. For any layouts, in the rounds of a redistribution each such
//! pair stands once, a node sends one letter and takes one at most, and no such rounds are fewer: `rounds_are_fewest`.
//! As nodes ask for their round, in each a node sends to one node at most, and takes from one at most:
//! `one_letter_a_round`.
#![tactic(auto)]

mod promises;

pub use promises::{one_letter_a_round, rounds_are_fewest, rounds_cover};

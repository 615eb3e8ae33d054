//! The laws of distributed runs: nodes do what the machine with whole arrays does.
//!
//! Comes in: the definitions of `machine_steps`, for any texts of instructions and any faults. Goes out: laws, each the contract of a
//! function that does nothing.
//!
//! - `runs`: nodes that agree with the machine run each instruction as it does; so they are phased where its run ends, and their last
//!   nodes agree with its last state. They begin as one list of openings, which agree with the machine.
//! - `coded`: the machine over other texts that mean the same does the same.
//! - `letter_laws`: all letters of a pair in a whole run, with their numbers, phases and values, are those that the machine's steps say;
//!   a message holds exactly the elements that its taker wants of its sender; and what a node receives gives it each value that it needs.
//! - `parted`: parallel statements one after the other are the parted order of a nest, and what the machine keeps is its least fault.
//! - `joining`: what the nodes join of their own values is what is joined of all values in their order.
//! - `trees`: the rounds of a tree are those of `reduction_tree`.
//! - `pieces`: who owns what, and what a node's piece is, by the definitions of mapped arrays.
//!
//! What holds in between: no law of runs looks into who owns what, so an element may have several owners. The simulation is one lemma an
//! instruction (`proofs/`): an instruction without a phase is a local step, a message phase is one exchange, a tree, a scan
//! and a redistribution are rounds of exchanges, and segments of a lockstep run are put together. Each lemma says too what its phases carry, and
//! what the nodes have for themselves after it, by the whole arrays. The numbers of letters come from the moves of each node alone.
//!
//! *Proved:* Nodes that agree with the machine with whole arrays run each instruction as it does; where its run ends
//! they are phased, and their last nodes agree with its last state: `nodes_step`, `nodes_pass`, `nodes_run`,
//! `openings_agree`, `openings_run`. The machine over other texts that mean the same does the same: `other_texts`. All
//! letters of a pair in a whole run are those of the phases that the machine's steps say, each with its phase, its
//! number and the values of the whole arrays, and there are no others, those of a scan in ceil(log2 N) phases on N nodes:
//! `letters_exact`; so are those of so many steps
//! from any nodes that agree with the machine: `phases_carried`. A message holds exactly the elements that its taker
//! needs and doesn't own and whose least owner sends, each once: `message_exact`. What a node receives gives it each
//! value that it needs: `message_read`. Parallel statements in a row are the parted order of a nest: `parts_in_a_row`.
#![tactic(auto)]

mod promises;

pub use promises::{
    least_of_parts, letters_exact, message_exact, message_read, nodes_pass, nodes_run, nodes_step,
    openings_agree, openings_run, other_texts, owners_by_mapping, parts_in_a_row, phases_carried,
    pieces_by_elements,
};

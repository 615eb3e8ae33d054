//! The mappings of a program's arrays: with which each array starts, and which of them each redistribution changes.
//!
//! Comes in: names, shapes and mappings. Goes out: lists of them, an entry for each array in the order of the declarations and an
//! entry for each REDISTRIBUTE in the order of the text, with its line. What holds in between: the lists are what they were made from, in the
//! same order; `specs/Maps.antt` says which mappings serve a program that runs on so many nodes, and `specs/Lines.antt` what a line moves.
//!
//! *Proved:* The arrays of a program with their mappings, and which are valid. The new mappings of a line are those of
//! all redistributions of that line, in order: `Redistributions::moves_at`; where the mappings of a program are valid,
//! so is each of these: `line_moves_are_valid`.
#![tactic(auto)]

mod maps;
mod promises;

pub use maps::{ArrayMap, ArrayMaps, Maps, NewMap, NewMaps, Redistribution, Redistributions};
pub use promises::line_moves_are_valid;

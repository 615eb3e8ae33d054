//! The rules of mapping directives over a whole program, and the mappings of its arrays (HPF 2.0, 3 and 8).
//!
//! Comes in: a program whose names are resolved, and a processor grid. Goes out: each array's mapping at the start and the new mappings of
//! each REDISTRIBUTE, with its line, or the first breach of the rules of mapping directives. What holds in between: alignments are composed
//! along their chain, in numbers that are exact or far past all limits; and a chain of which an ALIGN is refused by itself says nothing.
//!
//! *Proved:* A program is accepted exactly where it keeps the rules of mapping directives on a grid, else the first
//! breach; the mapping of each array at the start, and after each REDISTRIBUTE, which is known by its line, is that of
//! the definitions, and valid: `check_mapping`. There are as many mappings at the start as arrays: `starts_of_arrays`.
#![tactic(auto)]

mod chain_rules;
mod chains;
mod composed_alignments;
mod declared_rules;
mod dims;
mod direct_mappings;
mod dynamic_names;
mod mapped_object;
mod mapped_objects;
mod mapping_check;
mod program_maps;
mod promises;
mod redistribute_judge;
mod redistributes;
mod root_alignments;
mod subscripts;
mod wide_numbers;

pub use mapping_check::check_mapping;
pub use promises::starts_of_arrays;

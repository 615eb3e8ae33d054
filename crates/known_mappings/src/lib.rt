//! The mappings of programs that break no rule are known: no array is replicated because a mapping directive says nothing.
//!
//! Comes in: programs as abstract syntax, the rules of names, types and ranks of `name_table`, those of mapping directives of
//! `directive_check`, and the mappings that it defines. Goes out: two laws, the contracts of functions whose bodies call the law that they
//! rest on. There is no function here that runs.
//!
//! What holds in between:
//!
//! - An expression of a directive that has a type and a rank has a value, or isn't constant, where all that is declared is known.
//! - The dimensions of every array, template and processor arrangement are known and within the limits.
//! - A distribution that breaks no rule gives its objects a mapping, and an ALIGN that breaks none gives each alignee an alignment.
//! - Where no object is aligned with itself, alignments end within as many as there are names.
//! - No entry is left out: a mapping has one for each distributed dimension, an alignment one for each dimension of its target.
//!
//! *Proved:* By laws alone: the mappings of a program that breaks no rule are known. Each array starts as its own
//! DISTRIBUTE says, with an entry for each dimension that this distributes, or through known alignments with what they
//! end at, which have an entry for each dimension of that; only what no directive maps is replicated, and what is
//! aligned with such: `start_mappings_are_known`. Each array that a REDISTRIBUTE moves gets the mapping that it says:
//! `new_mappings_are_known`.
#![tactic(auto)]

mod promises;

pub use promises::{new_mappings_are_known, start_mappings_are_known};

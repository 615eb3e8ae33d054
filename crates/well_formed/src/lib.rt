//! Programs that break no rule are well-formed for lowering, so what is proved of the code of well-formed programs holds of each of
//! them.
//!
//! Comes in: programs as abstract syntax, the rules of names, types and ranks of `name_table` and those of bodies of `body_check`, the
//! resolved program of `array_meaning`, and the laws of `lowering`. Goes out: six laws, the contracts of functions whose bodies are
//! empty or call the law that they rest on. There is no function here that runs.
//!
//! What holds in between:
//!
//! - A name that is used where no rule of names is broken has a place among the declared ones.
//! - Each expression over such names is well-formed both as a scalar and as an array expression, whatever its type and rank.
//! - What stands in a FORALL that breaks no rule has no reduction, and its subscripts are literals, constants, scalars and indices under
//!   signs, `+`, `-` and `*`.
//! - An array whose dimensions are known has as many as its rank, and 7 at most; in a program that breaks no rule all are known. An
//!   expression that has a type and a rank has a subscript for each of them in every reference.
//! - Where an assignment by itself is a circular shift or a transpose, its right side has no type; both arrays have the same rank and the
//!   dimensions that are declared, within the limits. Any other right side has a type, and is no call of these two.
//!
//! *Proved:* A program that breaks no rule is one for which the laws of `lowering` hold, with its nests of INDEPENDENT
//! loops taken apart: `programs_are_well_formed`, `accepted_programs_lowered`, `accepted_trails_lowered`,
//! `accepted_code_is_valid`. It keeps the ranks of its arrays, none of which has more than 7 dimensions, so its code is
//! valid: `programs_keep_ranks`, `accepted_programs_have_valid_code`.
#![tactic(auto)]

mod promises;

pub use promises::{
    accepted_code_is_valid, accepted_programs_have_valid_code, accepted_programs_lowered,
    accepted_trails_lowered, programs_are_well_formed, programs_keep_ranks,
};

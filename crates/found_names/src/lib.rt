//! The names of programs that break no rule are found, and their scalar expressions have one value: the resolved program never has an
//! answer that stands for what can't be.
//!
//! Comes in: programs as abstract syntax, the rules of names, types and ranks of `name_table`, and the resolved program of `array_meaning`.
//! Goes out: three laws, the contracts of functions whose bodies are empty or call the law that they rest on. There is no function here that
//! runs.
//!
//! What holds in between:
//!
//! - A name that stands for an operand, a variable or a scalar in the symbol table is that among the entries, at its place.
//! - A constant expression that has a value has it as a term too, since no index of a FORALL is a constant.
//! - A reference with subscripts is an element where its rank is 0, and else a section.
//! - Operands that are together of rank 0 are each of rank 0; only under a reduction may they have another.
//!
//! *Proved:* By laws alone: in a program that breaks no rule each name of a statement is found, as what its place asks,
//! and each left side is a variable, so no assignment is left out: `names_are_found`. SIZE, LBOUND and UBOUND have a
//! value wherever they stand: `inquiries_have_values`. Where one value must stand no section stands but under a
//! reduction, and an index only in its FORALL, given that each array has a dimension; that this is so in each text that
//! is read no law says: `scalars_stand_alone`.
#![tactic(auto)]

mod promises;

pub use promises::{inquiries_have_values, names_are_found, scalars_stand_alone};

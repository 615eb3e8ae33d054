//! The values of scalar expressions and the places of elements, where they are known without memory and without a fault.
//!
//! Comes in: a state, an expression or subscripts whose names are resolved, and at a tuple of a FORALL the values of its indices. Goes out:
//! the value or the place, in two registers, or that it isn't known; then the caller evaluates by `term_values`, which finds the fault. What
//! holds in between: what is known is what the definitions give. That a value is known is never promised: it isn't where there is a fault, and
//! in the forms that are rare, as reductions, elements of more than two subscripts and operators of more than two operands.
//!
//! *Proved:* The value of a scalar expression and the place of an element, where they are known, are those of the
//! meaning, which then has no fault: `known_value`, `known_place`, and at a tuple of a FORALL `known_value_at`,
//! `known_place_at`. That they are known is never promised.
#![tactic(auto)]

mod elements;
mod expressions;
mod indices;
mod known_results;
mod operators;

pub use expressions::{known_place, known_place_at, known_value, known_value_at};
pub use known_results::{Known, KnownPlace, found, unknown};
pub use operators::{value_of_one, value_of_two};

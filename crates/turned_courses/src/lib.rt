//! That the first subscript of the source of a circular shift goes round a dimension. A law alone, and nothing stands on it.
//!
//! Comes in: the subscripts of the source of a circular shift as an assignment of elements (`statement_trail`, `program_code`). Goes out: that
//! the first of them is of the form by which such a reference is two by courses (`courses`).
//!
//! *Proved:* The first subscript of the source of a circular shift is one that goes round a dimension, of the extent of the target's first
//! one: `shifts_turn`.
#![tactic(auto)]

mod promises;

pub use promises::shifts_turn;

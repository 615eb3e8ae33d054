//! The declarations of a program, one name after the other.
//!
//! Comes in: the declarations of a tree. Goes out: the symbol table after them, and the first breach of the rules of names and
//! constants among them. What holds in between: each item is judged with the names before it and leaves a table after; an
//! array in a table is within the limits, and what a broken rule leaves open is unknown.
//!
//! *Proved:* The symbol table after the declarations, taken one name after the other, and the first breach of the rules
//! of names and constants among them: `declare`.
#![tactic(auto)]

mod constant_reasons;
mod declared_items;
mod declared_names;
mod declaring;
mod least_reason;
mod limits;

pub use declaring::{Declarations, declare};
pub use limits::{MAX_NAMES, MAX_TOTAL_ELEMENTS};

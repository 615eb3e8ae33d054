//! A nest of INDEPENDENT loops against its parts over copies.
//!
//! Comes in: the statements of a nest as those of the law of nests (`nest_items`), its entry (`array_meaning`), and that law (`nest_order`). Goes
//! out: what the statements read and write and what has to hold at the entry, as definitions in `specs/`, and laws, each the contract of a function
//! that does nothing. No program is here, and no code that runs.
//!
//! What holds in between:
//!
//! - `nests_are_parallel`: where no two iterations clash, no iteration writes a spot that another one touches, with copies of what each assigns.
//! - `nests_may_copy`: NEW variables are assigned before they are read, REDUCTION variables stand in reduction statements alone, and every value is of
//!   64 bits. For that each operator gives values of 64 bits.
//! - `nests_as_parts`: so the nest ends as its parts do, each at all iterations before the next. `Example` has a small nest that meets all premises.
//!
//! That the nest is entered stands among the premises: one that isn't ends with the fault of its entry, before its first iteration.
//!
//! Words of the field: to take a nest apart is *loop distribution*, or loop fission, and a copy for each iteration of a
//! scalar is *scalar expansion*, which makes it private to its iteration.
//!
//! *Proved:* A nest of INDEPENDENT loops that keeps the rules and is entered ends as its parts over copies do, with its
//! fault or with its arrays, scalars and indices: `nests_are_parallel`, `nests_may_copy`, `nests_as_parts`.
#![tactic(auto)]

mod promises;

pub use promises::{nests_are_parallel, nests_as_parts, nests_may_copy};

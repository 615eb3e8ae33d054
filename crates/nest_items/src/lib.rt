//! The statements of a nest of INDEPENDENT loops as those of the law of nests.
//!
//! Comes in: nests whose names are resolved, their entry and what `run` does with them (`array_meaning`), and the statements over storages
//! of `nest_order`. Goes out: what a nest's statements are there and what may stand in a nest, as definitions in `specs/`, and laws,
//! each the contract of a function that does nothing. No program is here, and no code that runs.
//!
//! What holds in between:
//!
//! - `StateStorage`, `NestItems`: a state over a storage of rows. What a text does to a storage is what the meaning does to that state, so
//!   expressions have no second meaning.
//! - `Naming`, `Standing`, `Paths`: what may stand in a nest, by what each name is to it (`nest_syntax`) and by rules over resolved statements.
//! - `Settled`, `NestEnds`: which state is left: the indices of loops are as the loops leave them, and all else as the storage has it.
//! - `NestForm`, `BlockForms` and `keeping_nests_stand`: the same rules without a state, of a nest and of all nests in a block, with what its texts are and
//!   how many loops it has at most. What keeps them stands in each state whose scalars are numbers of 64 bits.
//! - `nests_end`: a nest that keeps the rules and that is entered ends as plain loops over its iterations do.
//! - `EntryAlike`, among the proofs: whether a nest is entered depends on scalars and on the dimensions of arrays alone.
//!
//! *Proved:* A nest that keeps the rules and is entered ends as plain loops over its statements as items do:
//! `nests_end`. What keeps them by its form keeps them in each state: `keeping_nests_stand`.
#![tactic(auto)]

mod promises;

pub use promises::{keeping_nests_stand, nests_end};

//! An INDEPENDENT nest's code on the machine ends as the meaning's run of the nest does.
//!
//! Comes in: a nest in the meaning, which is entered and keeps the rules, against its parts over copies (`nest_parts`); the code of a nest on the
//! machine with whole arrays, over texts of any kind, against the same parts (`nest_machine`); and texts as forms of FORALL with their values
//! (`nest_texts`). Goes out, in `specs/`: what a nest's texts and blocks may name, their code, and what is asked at the entry; and
//! laws, each the contract of a function that does nothing. No program is here, and no code that runs.
//!
//! What holds in between, from the bottom up:
//!
//! - `NestNames`, `NestTexts`: how the names of a program stand on the machine for a nest, and its texts. Over the machine's rows a text does what
//!   the meaning says of it over the nest's rows with copies, faults included (`TextNames`, `TextValues`).
//! - `CodedBlocks`: the innermost block as a body of texts. At each iteration the statements that the machine makes of it are those of the
//!   meaning (`SameItems`), since inner loops have the same turns and indices (`LoopTurns`).
//! - `NestRuns`: what is asked at the entry, and how both end (`nests_end`). After the nest the machine's rows hold the arrays of the state
//!   that it leaves (`arrays_held`), and its slots the scalars but for indices (`scalars_held`).
//! - `InnerIndices`: what the code of the block leaves in the slots of inner indices is what the meaning says of it (`inner_indices`). A block
//!   leaves each scalar as it was or with one value, in whatever iteration (`IndexSettles`), so that is also what the whole nest leaves in them
//!   (`indices_held`).
//! - `places`: of the rows of a nest (`Places`, program_code) none lies where another does (`rows_apart`, `copies_apart`);
//!   each scalar with copies has its final (`finals_listed`).
//!
//! *Proved:* By laws alone. The code of a nest taken apart, over copies, as the machine with whole arrays runs it, ends
//! as the nest does, with its fault or with its arrays, scalars and inner indices: `nests_end`, `arrays_held`,
//! `scalars_held`, `inner_indices`, `indices_held`. In its places among the machine's rows, as numbers, nothing lies
//! where another does: `rows_apart`, `copies_apart`, `finals_listed`.
#![tactic(auto)]

mod promises;

pub use promises::{
    arrays_held, copies_apart, finals_listed, indices_held, inner_indices, nests_end, rows_apart,
    scalars_held,
};

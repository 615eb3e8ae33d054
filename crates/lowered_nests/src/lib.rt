//! The code of nests of INDEPENDENT loops does what the nests mean.
//!
//! Comes in: a nest in resolved form, with what it keeps by its form (`nest_items`); its node code (`program_code`); the law that the machine
//! with whole arrays ends over texts over copies as the meaning says (`nest_join`); and what it is for that machine to come over code to a place
//! (`lowered_expressions`). Goes out, in `proofs/`, for the laws of statements: over the code of a nest the machine goes on as the run of the nest
//! does, and passes the nest's trail. There is no function here that runs, and no node.
//!
//! What holds in between, from the bottom up:
//!
//! - `NamesIn`: the names of a nest on the machine, by its code.
//! - `PlainCode`, `CodedTexts`: that code is the one of which the law of nests speaks.
//! - `NestAnchors`: what a nest's copies lie beside is an element of a declared array, so that where they lie doesn't depend on the rows that the nest makes.
//! - `CodedBody`, `Begun`, `Entered`, `Starts`: all that the law of nests asks at the entry holds of a nest that keeps its form and is entered.
//! - `Passing`, `LoopPasses`, `NestPasses`, `NestTrails`: on its way through the statements the machine passes the parts of the nest, in their order; where it
//!   goes depends on slots alone.
//! - `StatementsEnds`, `StatementsRuns`: so its statements end as the run of the nest does. What a nest's code makes of slots and rows doesn't
//!   depend on how the rows lie (`SteadyRows`).
//! - `LoopBounds`, `LoopTrips`, `IndexCode`: the code round the statements. `EmptyNests`, `SettledNests`: what the meaning leaves in the indices
//!   of a nest, without an iteration and with one.
//! - `NestGoes`: all of it together.
//!
//! What is asked of a nest is its form (`nest_items`), that its names are declared, that it has statements, since one without is compiled as its loops
//! are, and that the numbers in the control of its outermost loop are of 64 bits; of the state at its entry, that its values are of 64 bits, and that the
//! check of the entry is passed.
//!
//! *Proved:* Nothing by contracts. In `proofs/`, as lemmas: over its code a nest with statements goes on the machine
//! with whole arrays as its loops do, where it keeps its form, its state at the entry is of 64 bits, and the check of
//! the entry is passed. On its way it passes the nest's parts, in their order.
#![tactic(auto)]

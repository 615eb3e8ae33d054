//! Accepted programs: those that keep all rules of the language on a grid of nodes.
//!
//! Comes in: the tree of a text that was read, and a processor grid. Goes out: the program with its declared names, its mappings and the
//! grid, or the first breach of the first stage that has one: names and constants, types and ranks (Fortran 95, 5 to 9), mapping directives
//! (HPF 2.0, 3 and 8), the bodies of FORALL and of INDEPENDENT loops (Fortran 95, 7.5.4; HPF 2.0, 5.1).
//!
//! What holds in between: an `AcceptedProgram` is the witness that the rules are kept. Who is given one needs no rule checked again: that its
//! names and mappings are those of its tree, and that each mapping is valid on its grid, is kept by the type.
//!
//! *Proved:* A tree is accepted on a grid exactly where it keeps all rules: of names, constants, types and ranks, of
//! mapping directives on the grid, and of bodies; else the answer is the first breach of the first stage that has one:
//! `accept_program`. An `AcceptedProgram` keeps that the rules are kept, that its names and mappings are those of its
//! tree, and that the mappings are valid on its grid.
#![tactic(auto)]

mod accepted;

pub use accepted::{AcceptedProgram, accept_program};

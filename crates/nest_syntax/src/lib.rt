//! What stands in the text of a nest of INDEPENDENT loops (HPF 2.0, 5.1).
//!
//! Comes in: expressions and statements with their names resolved (`array_meaning`). Goes out, as definitions in `specs/`: what both the code of a
//! nest and the laws of nests say of its text. There are no rows of a machine here, no law and no function.
//!
//! - `NestKinds`: what a name is to a nest, by its lists and by what it assigns; and the form of its reduction statements.
//! - `Assigning`: its assignments. `ClosedTerms`: the value of an expression without names, as a step has it.
//! - `NestTerms`: its expressions as FORALL's, where indices and copies that are read are indices.
//! - `Asked`: under which stored conditions something is evaluated. `Finals`: how a scalar gets its value after the nest.
//!
//! *Proved:* Definitions alone: what stands in the text of a nest of INDEPENDENT loops, as what each name is to it, its
//! assignments, and how its scalars get their values after it.
#![tactic(auto)]

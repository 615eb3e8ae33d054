//! Where the machine comes over code, and the code of expressions.
//!
//! Comes in: programs whose names are resolved, in `array_meaning`'s definitions, the code of expressions, in `program_code`'s, and what instructions
//! do on the machine with whole arrays, in `code_meaning`'s. Goes out, in `specs/`: which programs are well formed; and what the machine passes on its
//! way. In `proofs/`, for the laws of statements and of nests: that the machine comes from a place to another one with what a state is. There
//! is no function here that runs, and no node.
//!
//! What holds in between, from the bottom up:
//!
//! - An expression's code leaves an expression over the slots that has its value until one of these slots is set again. What may fault
//!   is evaluated by the code, in order, so what is left can't; what is evaluated once in an array expression is, and of the rest a form
//!   over the slots is left.
//! - `Reach`, `Goes`: a run over code comes to a place with the slots and rows of the state that a statement leaves; or it ends, finished or
//!   with the statement's fault.
//! - `Scatter`, `Indexed`: the value of an array expression by the elements that it reads, and FORALL's expressions at an index tuple.
//! - `Anchors`: what copies lie beside names what is declared, and in a WHERE no index stands in it.
//!
//! *Proved:* Nothing by contracts. In `proofs/`, as lemmas: over the code of an expression the machine with whole
//! arrays comes to what leaves its value.
#![tactic(auto)]

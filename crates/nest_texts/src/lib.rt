//! What the texts of INDEPENDENT nests and their instructions mean.
//!
//! Comes in: the texts of a nest and its code as a list of instructions (`program_code`), what node code means (`code_meaning`), the code of a nest
//! by what its instructions mean (`nest_machine`), and FORALL's forms with their laws (`lowered_expressions`). Goes out, in `specs/`: what assignments
//! and conditions of a nest come to at index tuples; how its inner loops count; its body as the machine's; and its expressions as FORALL's. And in
//! `proofs/`, as lemmas: inner loops count right (`Counting`); the instructions of a nest mean what its code is (`Codes`); and over slots and rows that
//! hold a state the form of an expression has the value that the expression has in the state of its iteration, faults included, and so have subscripts
//! on the left (`Values`).
//!
//! What holds in between: an expression of a nest is one of FORALL, at an index tuple that has the values of the nest's indices and then those
//! of the iteration's copies. So there is no evaluator but FORALL's. Subscripts name the nest's indices alone, so which elements are read doesn't
//! depend on copies.
//!
//! *Proved:* By lemmas alone, which `nest_join` cites. The inner loops of a nest count right, in 64 bits. The instructions
//! of a nest mean what its code is, where the bounds of its inner loops can't fault. Over slots and rows that hold the state
//! at a nest's entry the form of an expression has the value that the expression has in the state of its iteration, faults
//! included, and so have the subscripts of a left side.
#![tactic(auto)]

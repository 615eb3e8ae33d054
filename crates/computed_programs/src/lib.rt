//! Programs whose outcome by the definitions of `array_meaning` is computed by the check: what each prints, how it ends and its last arrays; and
//! trails of programs by those of `statement_trail`.
//!
//! Comes in: these definitions alone. Goes out: nothing that another crate cites. There is no function here: each program
//! is an equation in `proofs/`, between what the definitions give and what the rules of Fortran give, worked out by hand.
//!
//! What holds in between: each program is there for one sentence of the definitions, which its comment says, and is as small as it can be.
//! The programs of `array_meaning` itself stand beside its definitions.
//!
//! - `SpaceExamples`: how many tuples a section has, conformable sections, and limits.
//! - `OrderExamples`: what is evaluated before what, and which fault is the first.
//! - `OperatorExamples`: values of operators at the ends of 64 bits and of negative numbers.
//! - `AssignmentExamples`, `ForallExamples`: array assignment and WHERE; FORALL.
//! - `StatementExamples`: IF, DO, STOP, PRINT, circular shifts, and what names stand for.
//! - `TrailExamples`, `NestTrailExamples`: which parts are reached, and what the copies of each statement lie beside.
//!
//! *Proved:* Examples alone, and nothing stands on them: 128 programs more and 29 trails, each for one sentence of the
//! definitions of `array_meaning` and `statement_trail`, as what is evaluated first, where no limit is asked, or when a
//! mask is taken; computed by the check and compared in the same way.
#![tactic(auto)]

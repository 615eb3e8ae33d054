//! The trail of a run: the parts of array statements and of nests of INDEPENDENT loops, and the REDISTRIBUTEs, that it reaches, in order.
//!
//! Comes in: the sequential meaning of `array_meaning`, which doesn't know of parts. Goes out, in `specs/`: the trail of statements and of a
//! program, each part with its line, the scalars of that moment and what was evaluated once for it. There is no function here.
//!
//! What holds in between: a part is one computation over a space, as an assignment to a section, the values of a mask, a reduction. It is
//! reached where all that comes before it has no fault, whether or not it has one itself. A nest of INDEPENDENT loops that is entered has all its
//! parts (`NestParts`), an assignment or a condition at all its iterations, also where it then ends with a fault.
//! A circular shift or a transpose of a whole array is one part, as an assignment of elements (`TransformedElements`); a prefix sum is two, of
//! which the first copies its source and the second assigns the copy.
//!
//! Words of the field: by its entries a trail gives the *trace of communication* of array statements, reductions, nests
//! and redistributions: these are what nodes exchange elements of arrays for.
//!
//! *Proved:* Definitions alone: the parts of array statements and of nests of INDEPENDENT loops, and the REDISTRIBUTEs,
//! that a run reaches, in order, each with what was evaluated once for it (`serial_trail`).
#![tactic(auto)]

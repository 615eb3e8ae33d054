//! Circular shifts and transposes of whole arrays are assignments of elements, as in a FORALL over the bounds of the target (Fortran 95,
//! 13.14.26 and 13.14.111). Laws alone.
//!
//! Comes in: what a shift and a transpose of a whole array do (`array_meaning`), by places in array element order, and the subscripts of the
//! source at indices that go along the bounds of the target (`statement_trail`). Goes out: that both store the same.
//!
//! What holds in between, from the bottom up:
//!
//! - `Shifts`: a shift by k places in a dimension of n is one by MODULO(k, n), so each place comes from a sum below 2n, less n where it isn't
//!   below n. Within the limits of bounds no number wraps.
//! - `Places`: the indices at a tuple are the subscripts of the target's element at that place, and these name it.
//! - `Values`: the subscripts of the source have the values of those at the place that the transformation takes.
//! - `Elements`: so at each tuple the assignment stores what the transformation does.
//!
//! *Proved:* The assignment of elements that a circular shift or a transpose is has no fault, and leaves the state that the
//! transformation leaves: `transformed_elements`.
#![tactic(auto)]

mod promises;

pub use promises::transformed_elements;

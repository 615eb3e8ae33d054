//! Subscripts that move along one axis of a space each, and what follows of who owns what is named.
//!
//! Comes in: nothing. Goes out: laws, each the contract of a function that does nothing, over the definitions in `specs/`. A subscript of a
//! parallel statement is the same at each tuple, or goes by the tuple's place on one axis of the space, by equal steps: its course. It is an
//! *affine subscript* in one index. One that goes round a dimension, v above its lower bound where v is below n, and v - n above it elsewhere, is
//! two such, of which at each tuple one at most is in bounds. So what a reference names at a tuple comes from the tuple's places axis by axis, whether it is in bounds
//! and whether a node owns it are tests of each axis by itself, and on one axis what a node owns is the owned sequence of a section of a
//! line.
//!
//! *Proved:* By laws alone: a subscript that is the same at all tuples of a parallel statement, or goes by the tuple's
//! place on one axis of its space (`Course`, a definition). What a statement reads at a tuple is what its references
//! name there, whose subscripts are such: `subs_courses`, `reads_by_courses`, `names_along_axes`; so is a copy's
//! element with the tuple's number: `copy_places`, `copy_laid_out`. A reference whose first subscript goes round its first dimension, as that of a
//! circular shift, is two of them, and the other one names nothing: `turned_references`. Whether that is in bounds is a test of each axis by
//! itself, and where it is, so are whether a node owns it, computes the tuple for it, or is its least owner:
//! `in_bounds_by_axes`, `owned_by_courses`, `left_by_axes`, `least_by_axes`. The places of an axis at which a subscript
//! is in bounds are an interval, and those at which a node owns what is named are the places of a gap table:
//! `inside_between`, `axis_table`.
#![tactic(auto)]

mod promises;

pub use promises::{
    axis_table, copy_laid_out, copy_places, in_bounds_by_axes, inside_between, least_by_axes,
    left_by_axes, names_along_axes, owned_by_courses, reads_by_courses, subs_courses,
    turned_references,
};

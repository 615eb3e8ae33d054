//! At which places of the axes of a space a node owns what a reference names.
//!
//! Comes in: the table of a row, a node, and a reference to elements of the row, whose subscripts go by the places of tuples on the axes of a space. Goes out: whether
//! the row lies as the reference takes it; the places of each axis at which what is named is in bounds and the node's, all of them, or a `Holding`, of which one
//! axis at a time is asked: its candidates, which fall into classes by a period, and whether a place passes; and whether it is in bounds at all tuples.
//!
//! What holds in between: each dimension is asked by itself, and moves along one axis at most, so what passes at a tuple is what passes at
//! its place on each axis. Not all places are asked: where a dimension moves along an axis these are the places at which it is in bounds, and where an
//! entry of the mapping moves along the dimension, those of a gap table. These are taken as they are where one dimension alone leaves places out, and one
//! entry at most moves along it. So the time goes by the places that one dimension leaves the node, and by k under CYCLIC(k), and not by the length of the axis.
//!
//! *Proved:* The places of each axis at which what a reference names is in bounds and a node's, ascending; None only
//! where no tuple names such an element: `owned_places`. Where it is said that a reference is in bounds at all tuples,
//! or that a row lies as it takes it, that is so: `is_inside`, `is_laid_out`; so is whether it is in bounds at a place
//! of an axis: `is_inside_at`.
#![tactic(auto)]

mod candidates;
mod dims;
mod holding;
mod holdings;
mod inside;
mod laid;
mod owned;
mod passing;
mod spans;
mod tables;

pub use candidates::Candidates;
pub use holding::Holding;
pub use inside::{is_inside, is_inside_at};
pub use laid::is_laid_out;
pub use owned::owned_places;

//! Numbers of tuples, from a list of places for each axis.
//!
//! Comes in: the extents of a space, and a list of places for each of its axes, or two lists, of which the inner ones take some of the outer places.
//! Goes out: the numbers of the tuples with a place of each list, in tuple order; and of these tuples those that haven't a place of each inner
//! list too. What holds in between: tuples are made axis by axis, the last axis first, so that a step to the next axis is a product and a sum, and
//! nothing is divided. Two ascending lists are walked once, beside each other.
//!
//! *Proved:* The numbers of the tuples with a place of each list, one list an axis, in tuple order where the lists
//! ascend: `tuples_of`. Of these, in any order, just those that haven't a place of each of other lists too:
//! `tuples_beyond`. Of two ascending lists the places in both, and those in the first alone: `common_places`,
//! `places_beyond`.
#![tactic(auto)]

mod beyond;
mod places;
mod promises;
mod rows;
mod tuples;

pub use beyond::tuples_beyond;
pub use places::{common_places, places_beyond};
pub use promises::passing_below;
pub use tuples::tuples_of;

//! What copies lie beside, by the positions of a tuple, is what the text assigns there. Laws alone, and nothing stands on them.
//!
//! Comes in: the values of subscripts at a tuple (`array_meaning`), and the subscripts of an anchor by the positions of a tuple
//! (`code_meaning`), as the law of copies has them (`aligned_copies`). Goes out: that both are one.
//!
//! What holds in between: an index that takes the values of a sequence has at position x the value `first + (x - 1) * step`, so what is
//! linear in it is linear in the position. The numbers of linear forms wrap at 64 bits, and within the limits of a FORALL nothing does.
//!
//! - `Subscripts`: expressions that are linear in an index, and sections as anchors have them.
//!
//! *Proved:* A subscript of an anchor over indices comes at each position to the value of its expression at the values that the indices
//! have there: `subscripts_by_positions`. An anchor with triplets is at each position the element of its section: `triplets_by_positions`.
#![tactic(auto)]

mod promises;

pub use promises::{subscripts_by_positions, triplets_by_positions};

//! The rules of ALIGN (HPF 2.0, 3.4).
//!
//! Comes in: the setting of a program and its ALIGN directives one by one. Goes out: the least reason for which an ALIGN or one of its
//! alignees breaks a rule, and the alignment of each alignee. What holds in between: the subscripts and triplets of a target are judged by
//! their values, which don't depend on the alignee; numbers are wide until they are within the limits.
//!
//! *Proved:* What an ALIGN and each of its alignees say is right, or the least reason why not; the alignment, an entry
//! for each dimension of the target; and that an alignment without a breach leads every element inside the target:
//! `bad_alignment`, `bad_alignee`, `alignment_of`, `aligned_entries`.
#![tactic(auto)]

mod alignees;
mod alignment_values;
mod alignments;
mod entries;
mod inside;
mod limits;
mod pairs;
mod promises;
mod repetitions;
mod sources;
mod target_parts;

pub use alignees::{alignment_of, bad_alignee};
pub use alignment_values::{AlignDims, Alignment, Pair, TargetValue, TargetValues};
pub use alignments::bad_alignment;
pub use inside::{has_elements, is_inside};
pub use limits::{MAX_ALIGN_FACTOR, MAX_ALIGN_OFFSET};
pub use promises::aligned_entries;
pub use target_parts::target_values;

//! Which tuples of a part concern a node, as a value: its candidates.

use tuple_numbers::Tuples;

/// The tuples of a part that a node computes, and those at which it may exchange an element with another node. At all others it exchanges
/// nothing. Contracts see it by `AreCandidates`.
#[derive(Drop)]
pub struct Candidates {
    /// The numbers of the tuples that the node computes, from 0, ascending.
    pub computed: Tuples,
    /// Those of them at which it may take an element, in any order, with repetitions.
    pub taking: Vec<u32>,
    /// The numbers of the tuples at which it may send an element, in any order, with repetitions.
    pub sending: Vec<u32>,
}

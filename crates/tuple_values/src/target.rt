//! What is assigned at the tuples of a space.

use array_meaning::Selection;
use node_code::Sub;

/// What is assigned.
#[derive(Drop)]
pub(crate) enum Target<'a> {
    /// Nothing: the values are joined or printed.
    Nothing,
    /// The element of a copy with the tuple's number, by the copy's row.
    Copy(usize),
    /// The element of a section of an array, by the place of its name.
    Section(usize, Vec<Selection>),
    /// The element of an array whose subscripts are expressions of the indices of a FORALL or a nest.
    Indexed(usize, &'a [Sub]),
}

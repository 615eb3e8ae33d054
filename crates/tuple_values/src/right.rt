//! What is evaluated at the tuples of a space.

use node_code::{ArrayForm, Sub};

/// An array expression, or a section of an array by the place of its name.
#[derive(Drop)]
pub(crate) enum Right<'a> {
    Form(&'a ArrayForm),
    Section(usize, &'a [Sub]),
}

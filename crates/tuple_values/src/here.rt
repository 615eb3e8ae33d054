//! Where expressions are evaluated.

use expression_rules::Dims;
use std::alloc::Global;

/// A tuple of a statement, with the dimensions of the arrays and the slots.
#[derive(Clone, Copy)]
pub(crate) struct Here<'a> {
    pub(crate) alloc: Global,
    pub(crate) shapes: &'a [Dims],
    pub(crate) slots: &'a [i64],
    /// The entries that subscripts see as their axes.
    pub(crate) axes: &'a [i64],
    /// What expressions outside of subscripts see as theirs: these entries, and after them the values of the copies.
    pub(crate) seen: &'a [i64],
    /// The entries of the tuple, at which sections are taken.
    pub(crate) tuple: &'a [i64],
}

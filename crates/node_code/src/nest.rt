//! Parallel statements of nests of INDEPENDENT loops (HPF 2.0, 5.1).

use crate::anchor::FlatAnchor;
use crate::form::{ArrayForm, Sub};
use crate::parallel::When;

/// What is assigned in an iteration.
#[derive(Drop)]
pub enum NestLeft {
    /// An element of an array, by the place of its name, with its subscripts.
    Element(usize, Vec<Sub>),
    /// The iteration's copy of a scalar or of a condition, by the row of the copies.
    Copy(usize),
}

/// What a parallel statement of a nest is in the text.
#[derive(Clone, Copy, PartialEq, Eq)]
pub enum NestRole {
    /// An assignment.
    Assigns,
    /// The condition of an IF or ELSE IF, whose truth is stored.
    Tests,
    /// An ELSE, which is stored as a condition that holds where no earlier one does.
    SetsElse,
    /// The mark of an iteration that has assigned a scalar. In the text it is nothing.
    SetsMark,
}

/// A statement at all iterations of a nest.
#[derive(Drop)]
pub struct NestStatement {
    pub line: u32,
    /// The indices of the nest, the innermost loop's first, each by the three slots of its first value, last value and step.
    pub over: Vec<Sub>,
    /// The stored conditions under which it stands.
    pub whens: Vec<When>,
    /// The rows of the copies that it reads. In `right` the axes after those of the indices are their values, in this order.
    pub copies: Vec<usize>,
    /// The scalars whose copies these are, by their places: lists of messages call a copy by the name of its scalar.
    pub names: Vec<usize>,
    pub left: NestLeft,
    pub right: ArrayForm,
    pub role: NestRole,
    /// What the copies of the nest lie beside.
    pub beside: Option<FlatAnchor>,
}

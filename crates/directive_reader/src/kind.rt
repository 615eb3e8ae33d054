//! Kinds of directives.

/// What kind of directive a line is. Where the field is true, the names that it speaks of stand in a list after `::`.
#[derive(Clone, Copy, PartialEq, Eq)]
pub enum Kind {
    Processors,
    Template,
    Dynamic,
    Distribute(bool),
    Redistribute(bool),
    Align(bool),
    Independent,
}

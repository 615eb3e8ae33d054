//! Directives as they stand on their lines.

use syntax_tree::{Directive, DistSpec, NameList};

/// A directive (HPF 2.0, 3, 5.1 and 8.5).
#[derive(Drop)]
pub enum DirectiveLine {
    /// One that maps, or one that is passed over.
    Mapping(Directive),
    Redistribute(DistSpec),
    /// INDEPENDENT, with the names of its lists; a list that isn't there has none.
    Independent { new: NameList, reduction: NameList },
}

//! The limit of an expression.

/// The greatest depth of an expression: of tree nodes on a path from its root.
pub const MAX_DEPTH: usize = 200;

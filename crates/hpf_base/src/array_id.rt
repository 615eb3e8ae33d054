//! The arrays of a program, by number.

/// An array's number, from 0: its place among the arrays of its program, in the order of their declarations.
#[derive(Clone, Copy, PartialEq, Eq, PartialOrd, Ord)]
pub struct ArrayId(pub u32);

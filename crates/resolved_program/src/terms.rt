//! Expressions whose names are resolved.

use op_tables::Op;

/// An expression (Fortran 95, 7.1).
#[derive(Drop)]
#[cycle(term)]
pub enum Term {
    /// A constant, also a named one, or the value of SIZE, LBOUND or UBOUND; a logical value is 0 or 1.
    Number(i64),
    /// A scalar, by its place among the declared names.
    Scalar(usize),
    /// An index of a FORALL, by its place in the header.
    Index(usize),
    /// An array element, by the place of the array's name, with its subscripts, the first dimension first.
    Element(usize, Vec<Term>),
    /// An array section; a whole array is the section of all its elements.
    Section(usize, Vec<SectionSubscript>),
    /// An operator or an elemental procedure, with its operands in order.
    Apply(Op, Vec<Term>),
    /// A reduction of an array expression.
    Reduce(Op, Box<Term>),
}

/// What stands for a dimension in a section (6.2.2.3).
#[derive(Drop)]
#[cycle(term)]
pub enum SectionSubscript {
    Subscript(Term),
    /// The first value, the last one and the stride.
    Triplet(Term, Term, Term),
}

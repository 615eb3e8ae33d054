//! Statements whose names are resolved.

use crate::terms::{SectionSubscript, Term};
use expression_rules::Dims;

/// A program: its statements, in order.
#[derive(Drop)]
pub struct ResolvedProgram {
    pub body: Vec<Statement>,
}

/// A statement, and the number of the line on which it begins.
#[derive(Drop)]
#[cycle(statement)]
pub struct Statement {
    pub line: u32,
    pub what: Action,
}

/// What a statement does (Fortran 95, 7.5, 8.1, 9.4 and 13.14).
#[derive(Drop)]
#[cycle(statement)]
pub enum Action {
    AssignScalar(usize, Term),
    AssignElement(usize, Vec<Term>, Term),
    AssignSection(usize, Vec<SectionSubscript>, Term),
    /// A whole array, the whole array that it is made of, and how.
    Transform(WholeArray, WholeArray, Transformation),
    /// IF and its ELSE IFs in order, and the block of ELSE, which is empty where there is none.
    If(Vec<Arm>, Vec<Statement>),
    /// A loop and its body. The nest is that of INDEPENDENT loops of which this one is the outermost.
    Do(Option<Nest>, Loop, Vec<Statement>),
    /// The mask, the assignments, and those after ELSEWHERE.
    Where(Term, Vec<SectionAssignment>, Vec<SectionAssignment>),
    /// The indices, the mask, and the assignments.
    Forall(Vec<Control>, Option<Term>, Vec<ElementAssignment>),
    Print(Vec<Item>),
    Stop,
    Exit,
    Cycle,
    Continue,
    Redistribute,
}

/// An array that is named by itself, by the place of its name, with its dimensions.
#[derive(Drop)]
pub struct WholeArray {
    pub array: usize,
    pub dims: Dims,
}

/// What makes of a whole array a whole array: CSHIFT, by so many places along the first dimension, and TRANSPOSE (13.14.26 and 13.14.111), and
/// SUM_PREFIX (HPF 2.0, 7.4).
#[derive(Drop)]
pub enum Transformation {
    CircularShift(Term),
    Transposition,
    PrefixSum,
}

/// A condition with its block, and the number of its line.
#[derive(Drop)]
#[cycle(statement)]
pub struct Arm {
    pub line: u32,
    pub condition: Term,
    pub body: Vec<Statement>,
}

/// A nest of INDEPENDENT loops (HPF 2.0, 5.1).
#[derive(Drop)]
pub struct Nest {
    /// The line of the first directive.
    pub line: u32,
    /// How many loops it has beside the outermost; each of the others is the whole body of the one before.
    pub inner_loops: usize,
    /// The scalars of all NEW lists.
    pub new: Vec<usize>,
    /// The scalars of all REDUCTION lists.
    pub reduction: Vec<usize>,
}

/// The index of a DO, by the place of its name, and the values that it takes.
#[derive(Drop)]
pub struct Loop {
    pub index: usize,
    pub control: Control,
}

/// The values of an index (Fortran 95, 8.1.4.1.1 and 7.5.4.1).
#[derive(Drop)]
pub struct Control {
    pub first: Term,
    pub last: Term,
    pub step: Term,
}

/// An assignment of a WHERE, and the number of its line.
#[derive(Drop)]
pub struct SectionAssignment {
    pub line: u32,
    pub array: usize,
    pub subscripts: Vec<SectionSubscript>,
    pub right: Term,
}

/// An assignment of a FORALL, and the number of its line.
#[derive(Drop)]
pub struct ElementAssignment {
    pub line: u32,
    pub array: usize,
    pub subscripts: Vec<Term>,
    pub right: Term,
}

/// An item of a PRINT: a character constant, a scalar value, or the elements of a section.
#[derive(Drop)]
pub enum Item {
    Text(Vec<u8>),
    Value(Term),
    Elements(usize, Vec<SectionSubscript>),
}

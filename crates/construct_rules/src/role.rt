//! What lines are to the nest.

/// A construct, which several lines make (Fortran 95, 7.5.3, 7.5.4, 8.1).
#[derive(Clone, Copy, PartialEq, Eq)]
pub enum Construct {
    If,
    Do,
    Where,
    Forall,
}

/// Whether an INDEPENDENT has a NEW or a REDUCTION clause (HPF 2.0, 5.1).
#[derive(Clone, Copy, PartialEq, Eq)]
pub enum Clauses {
    Absent,
    Given,
}

/// What a line is to the lines round it.
#[derive(Clone, Copy, PartialEq, Eq)]
pub enum Role {
    Program,
    /// IMPLICIT NONE, INTEGER or PARAMETER.
    Declaration,
    /// A directive among the declarations: PROCESSORS, TEMPLATE, DYNAMIC, DISTRIBUTE or ALIGN.
    SpecificationDirective,
    /// A directive that is passed over.
    Passed,
    Redistribute,
    Independent(Clauses),
    /// The first line of a construct.
    Opens(Construct),
    ElseIf,
    Else,
    ElseWhere,
    /// The last line of a construct.
    Closes(Construct),
    Assign,
    /// WHERE or FORALL with one assignment.
    One(Construct),
    /// EXIT or CYCLE, alone or as the action of an IF.
    Jump,
    /// PRINT, STOP or CONTINUE, or an IF with an action that doesn't leave a loop.
    Plain,
    End,
}

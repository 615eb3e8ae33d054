//! Kinds of statements.

/// What kind of statement a line is, by the words that begin it. `ELSEIF` and its like are one word where the field is
/// true.
#[derive(Clone, Copy, PartialEq, Eq)]
pub enum Kind {
    Program,
    ImplicitNone,
    Integer,
    Parameter,
    Assign,
    IfThen,
    ElseIf(bool),
    Else,
    EndIf(bool),
    Do,
    EndDo(bool),
    Where,
    ElseWhere(bool),
    EndWhere(bool),
    Forall,
    EndForall(bool),
    Print,
    Stop,
    Exit,
    Cycle,
    Continue,
    End,
}

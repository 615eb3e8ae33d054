//! Statements as they stand on their lines.

use hpf_base::Name;
use syntax_tree::{ConstDef, Expr, Header, IntegerDecl, Item, Ref};

/// A statement: a whole one, or a part of a construct that has a line of its own (Fortran 95, 2.1, 5, 7.5, 8, 9.4 and
/// 11.1).
#[derive(Drop)]
pub enum Statement {
    /// PROGRAM and the name.
    Program(Name),
    ImplicitNone,
    Integer(IntegerDecl),
    /// PARAMETER and its constants.
    Parameter(Vec<ConstDef>),
    Action(Action),
    /// IF with one action.
    IfOne { cond: Expr, action: Action },
    /// IF and THEN.
    IfThen(Expr),
    ElseIf { cond: Expr, glued: bool },
    Else,
    EndIf { glued: bool },
    Do(DoHead),
    EndDo { glued: bool },
    /// WHERE that opens a construct.
    Where(Expr),
    ElseWhere,
    EndWhere { glued: bool },
    /// FORALL that opens a construct.
    Forall(ForallHead),
    EndForall { glued: bool },
    /// END alone, or with PROGRAM and a name after that.
    End { word: bool, name: Option<Name> },
}

/// A statement that is whole and may be the action of an IF (Fortran 95, R216).
#[derive(Drop)]
pub enum Action {
    Assign(Assignment),
    /// WHERE with one assignment.
    Where { mask: Expr, one: Assignment },
    /// FORALL with one assignment.
    Forall { head: ForallHead, one: Assignment },
    Print(Vec<Item>),
    Stop,
    Exit,
    Cycle,
    Continue,
}

/// `left = right`.
#[derive(Drop)]
pub struct Assignment {
    pub left: Ref,
    pub right: Expr,
}

/// DO with its index and the values that it takes.
#[derive(Drop)]
pub struct DoHead {
    pub index: Name,
    pub first: Expr,
    pub last: Expr,
    pub step: Option<Expr>,
}

/// FORALL with its indices and its mask.
#[derive(Drop)]
pub struct ForallHead {
    pub axes: Vec<Header>,
    pub mask: Option<Expr>,
}

//! Statements (Fortran 95, 7.4, 7.5, 8 and 9.4; HPF 2.0, 3.4 and 5).

use crate::directive::DistSpec;
use crate::expr::{Expr, Ref};
use crate::names::NameList;
use source_lines::{Bytes, Name};

/// A statement, and the number of the line on which it begins.
#[derive(Drop)]
#[cycle(statement)]
pub struct Stmt {
    pub line: u32,
    pub what: StatementKind,
}

/// What a statement is.
#[derive(Drop)]
#[cycle(statement)]
pub enum StatementKind {
    Assign {
        left: Ref,
        right: Expr,
    },
    /// IF with one action.
    IfOne {
        cond: Expr,
        body: Box<Stmt>,
    },
    /// The IF construct: its first arm and its ELSE IF arms in order, then the ELSE block.
    If {
        arms: Vec<Arm>,
        rest: Option<Vec<Stmt>>,
        /// END IF is one word.
        glued: bool,
    },
    Do(DoLoop),
    Where {
        mask: Expr,
        body: Vec<Stmt>,
        /// The ELSEWHERE block.
        rest: Option<Vec<Stmt>>,
        /// It is one statement with one assignment.
        one: bool,
        /// END WHERE is one word.
        glued: bool,
    },
    Forall {
        axes: Vec<Header>,
        mask: Option<Expr>,
        body: Vec<Stmt>,
        /// It is one statement with one assignment.
        one: bool,
        /// END FORALL is one word.
        glued: bool,
        /// INDEPENDENT stands before it.
        marked: bool,
    },
    Print(Vec<Item>),
    Stop,
    Exit,
    Cycle,
    Continue,
    Redistribute(DistSpec),
}

/// An arm of an IF construct, and the number of its line.
#[derive(Drop)]
#[cycle(statement)]
pub struct Arm {
    pub line: u32,
    pub cond: Expr,
    pub body: Vec<Stmt>,
    /// ELSE IF is one word.
    pub glued: bool,
}

/// A DO construct.
#[derive(Drop)]
#[cycle(statement)]
pub struct DoLoop {
    pub index: Name,
    pub first: Expr,
    pub last: Expr,
    pub step: Option<Expr>,
    /// The INDEPENDENT directive before it.
    pub mark: Option<Mark>,
    pub body: Vec<Stmt>,
    /// END DO is one word.
    pub glued: bool,
}

/// INDEPENDENT, the number of its line, and the names of its lists.
#[derive(Drop)]
pub struct Mark {
    pub line: u32,
    pub new: NameList,
    pub reduction: NameList,
}

/// An index of a FORALL with its triplet.
#[derive(Drop)]
pub struct Header {
    pub name: Name,
    pub first: Expr,
    pub last: Expr,
    pub step: Option<Expr>,
}

/// An item of a PRINT.
#[derive(Drop)]
pub enum Item {
    Value(Expr),
    Text(Bytes),
}

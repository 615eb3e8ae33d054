//! Drafts: what a front of a program's statements says.

use statement_reader::{DoHead, ForallHead};
use syntax_tree::{Arm, EndForm, Expr, Mark, Stmt};

/// The statements and parts of constructs up to a line.
#[derive(Drop)]
pub(crate) struct Draft {
    /// The constructs that are open, the outermost one first.
    pub(crate) opens: Vec<Open>,
    /// The statements of the innermost block so far.
    pub(crate) block: Vec<Stmt>,
    /// INDEPENDENT, where the statement that it stands before hasn't come.
    pub(crate) mark: Option<Mark>,
    pub(crate) end: Option<EndForm>,
}

/// A construct that is open, and the statements before it in the block round it.
#[derive(Drop)]
pub(crate) struct Open {
    pub(crate) before: Vec<Stmt>,
    pub(crate) what: Opened,
}

/// What the lines of an open construct said, but for those of its innermost block.
#[derive(Drop)]
pub(crate) enum Opened {
    If {
        line: u32,
        cond: Expr,
    },
    /// IF and ELSE IF, with the arms before the one that is open.
    ElseIf {
        first: u32,
        arms: Vec<Arm>,
        line: u32,
        cond: Expr,
        glued: bool,
    },
    /// IF after its ELSE.
    Else {
        first: u32,
        arms: Vec<Arm>,
    },
    Do {
        line: u32,
        head: DoHead,
        mark: Option<Mark>,
    },
    Where {
        line: u32,
        mask: Expr,
    },
    /// WHERE after its ELSEWHERE.
    ElseWhere {
        line: u32,
        mask: Expr,
        body: Vec<Stmt>,
    },
    Forall {
        line: u32,
        head: ForallHead,
        marked: bool,
    },
}

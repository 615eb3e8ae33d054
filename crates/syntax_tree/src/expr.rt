//! Expressions (Fortran 95, 7.1).

use op_tables::Op;
use source_lines::Name;

/// An expression.
#[derive(Drop)]
#[cycle(expression)]
pub enum Expr {
    /// An integer constant.
    Int(i64),
    /// `.TRUE.` or `.FALSE.`.
    Bool(bool),
    Ref(Ref),
    /// A sign or `.NOT.`, and its operand.
    Unary(Op, Box<Expr>),
    /// An operator between two operands.
    Binary(Op, Box<Expr>, Box<Expr>),
    /// A call of an intrinsic procedure, with its arguments in order.
    Call(Op, Vec<Expr>),
    /// An expression in parentheses.
    Paren(Box<Expr>),
}

/// A name, and the subscripts that stand after it, the first dimension first (Fortran 95, 6.2.2).
#[derive(Drop)]
#[cycle(expression)]
pub struct Ref {
    pub name: Name,
    pub subs: Option<Vec<Subscript>>,
}

/// A subscript: one expression, or a subscript triplet (Fortran 95, 6.2.2.3).
#[derive(Drop)]
#[cycle(expression)]
pub enum Subscript {
    One(Expr),
    Triplet {
        first: Option<Expr>,
        last: Option<Expr>,
        step: Option<Expr>,
    },
}

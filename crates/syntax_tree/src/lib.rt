//! The tree of a program, and the abstract syntax that it stands for.
//!
//! Comes in: nothing. Goes out: the types of programs, declarations, statements, directives and expressions; in
//! `specs/` the abstract syntax of all of these, of which every rule and every meaning speaks, and the lexemes that spell
//! an expression. What holds in between: every name and every choice of spelling that a tree keeps is a field of it, and a
//! tree is one program of the abstract syntax (`main_program`), in which choices of spelling that change nothing are gone.
//!
//! *Proved:* The types of trees, the abstract syntax of programs that a tree stands for (`main_program`), and what
//! spells an expression, as definitions. Tables of operators: `sign_of`, `binary`, `unary`, `intrinsic`, `level`,
//! `left_place`, `right_place`.
#![tactic(auto)]

mod codes;
mod decl;
mod directive;
mod expr;
mod names;
mod operators;
mod sign;
mod stmt;

pub use decl::{Bound, ConstDef, Decl, DeclKind, EndForm, Entity, IntegerDecl, Tree};
pub use directive::{AlignSpec, Directive, DistSpec, Format, Source, Target};
pub use expr::{Expr, Ref, Subscript};
pub use names::NameList;
pub use op_tables::{
    DivZero, Op, apply, is_inquiry, is_processor_count, is_reduction, is_transformational, takes,
};
pub use operators::{binary, intrinsic, left_place, level, right_place, unary};
pub use sign::{Sign, sign_of};
pub use stmt::{Arm, DoLoop, Header, Item, Mark, StatementKind, Stmt};

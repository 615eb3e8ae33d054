//! Programs and their declarations (Fortran 95, 5 and 11.1).

use crate::directive::Directive;
use crate::expr::Expr;
use crate::stmt::Stmt;
use source_lines::Name;

/// A program.
#[derive(Drop)]
pub struct Tree {
    /// The name after PROGRAM, where there is that statement.
    pub name: Option<Name>,
    pub decls: Vec<Decl>,
    pub body: Vec<Stmt>,
    pub end: EndForm,
}

/// The END of a program: whether PROGRAM stands after it, the name after that, and the number of its line.
#[derive(Drop)]
pub struct EndForm {
    pub word: bool,
    pub name: Option<Name>,
    pub line: u32,
}

/// A declaration, and the number of its line.
#[derive(Drop)]
pub struct Decl {
    pub line: u32,
    pub what: DeclKind,
}

/// What a declaration is.
#[derive(Drop)]
pub enum DeclKind {
    ImplicitNone,
    Integer(IntegerDecl),
    Parameter(Vec<ConstDef>),
    Directive(Directive),
}

/// INTEGER, with its attributes and entities.
#[derive(Drop)]
pub struct IntegerDecl {
    /// PARAMETER stands among the attributes.
    pub constant: bool,
    /// The bounds after DIMENSION.
    pub dims: Option<Vec<Bound>>,
    /// The entities stand after `::`.
    pub colons: bool,
    pub entities: Vec<Entity>,
}

/// A declared name, with its own bounds and its initial value.
#[derive(Drop)]
pub struct Entity {
    pub name: Name,
    pub dims: Option<Vec<Bound>>,
    pub start: Option<Expr>,
}

/// The bounds of a dimension; the lower one is 1 where it is left out.
#[derive(Drop)]
pub struct Bound {
    pub lower: Option<Expr>,
    pub upper: Expr,
}

/// A constant of a PARAMETER statement.
#[derive(Drop)]
pub struct ConstDef {
    pub name: Name,
    pub value: Expr,
}

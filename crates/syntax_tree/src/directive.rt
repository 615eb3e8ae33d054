//! Mapping directives (HPF 2.0, 3).

use crate::decl::Entity;
use crate::expr::{Expr, Subscript};
use crate::names::NameList;
use source_lines::Name;

/// A directive among the declarations.
#[derive(Drop)]
pub enum Directive {
    /// Arrangements of processors, each with its extents.
    Processors(Vec<Entity>),
    /// Templates, each with its bounds.
    Template(Vec<Entity>),
    Dynamic(NameList),
    Distribute(DistSpec),
    Align(AlignSpec),
    /// A directive that is passed over.
    Passed,
}

/// DISTRIBUTE or REDISTRIBUTE: how the named arrays or templates are dealt out.
#[derive(Drop)]
pub struct DistSpec {
    pub names: NameList,
    /// One a dimension, the first dimension first.
    pub formats: Vec<Format>,
    /// The arrangement after ONTO.
    pub onto: Option<Name>,
    /// The names stand after `::`.
    pub colons: bool,
}

/// The format of a dimension.
#[derive(Drop)]
pub enum Format {
    /// `*`.
    Star,
    Block(Option<Expr>),
    Cyclic(Option<Expr>),
    /// The sizes of the blocks, the first block first.
    GenBlock(Vec<Expr>),
}

/// ALIGN: how the named arrays lie on a target.
#[derive(Drop)]
pub struct AlignSpec {
    pub names: NameList,
    /// One a dimension of the alignees.
    pub source: Option<Vec<Source>>,
    pub target: Name,
    /// One a dimension of the target.
    pub subs: Option<Vec<Target>>,
    /// The names stand after `::`.
    pub colons: bool,
}

/// What stands for a dimension of the alignee.
#[derive(Drop)]
pub enum Source {
    Dummy(Name),
    Colon,
    Star,
}

/// What stands for a dimension of the target.
#[derive(Drop)]
pub enum Target {
    Sub(Subscript),
    Star,
}

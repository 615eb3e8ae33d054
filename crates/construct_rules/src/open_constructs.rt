//! Open constructs.

ghost use Rattle.std.specs.Prelude.{◌≡◌, ◌++◌, true, List, [], map, IfOk, is_none, length, option_to_list, reverse};
ghost use Rattle.construct_rules.specs.NestState.{in_do, in_where_or_forall, is_innermost, is_where_or_forall, same_construct, takes_else, with_else, without_innermost, Open};
ghost use Rattle.construct_rules.specs.OpenConstructs.{all_levels, opened, opens_in, HasFlags};

use crate::role::Construct;
use std::alloc::{AllocError, Global};
use std::marker::Model;

/// An open construct.
#[derive(Clone, Copy)]
pub(crate) struct Level {
    pub construct: Construct,
    /// Its ELSE or ELSEWHERE has stood.
    pub otherwise: bool,
    /// It is a WHERE or FORALL, or one is open round it.
    pub in_where_or_forall: bool,
    /// It is a DO, or one is open round it.
    pub in_do: bool,
}

/// The open constructs. Contracts see their list, the innermost one first.
#[derive(Drop)]
pub(crate) struct Opens {
    innermost: Option<Level>,
    /// Those round it, the outermost one first.
    outer: Vec<Level>,
}

impl Model for Opens {
    ghost Value = { List Open };

    ghost view = { λ o. opens_in (all_levels o.innermost o.outer.items) };

    ghost invariant = { λ o. HasFlags (all_levels o.innermost o.outer.items) × (is_none o.innermost ≡ true → o.outer.items ≡ []) };
}

/// Both are of one kind.
pub(crate) fn same_construct(a: Construct, b: Construct) -> bool
    ensures { result ≡ same_construct a b }
{
    match a {
        Construct::If => matches!(b, Construct::If),
        Construct::Do => matches!(b, Construct::Do),
        Construct::Where => matches!(b, Construct::Where),
        Construct::Forall => matches!(b, Construct::Forall),
    }
}

/// It is a WHERE or a FORALL.
pub(crate) fn is_where_or_forall(c: Construct) -> bool
    ensures { result ≡ is_where_or_forall c }
{
    match c {
        Construct::Where | Construct::Forall => true,
        Construct::If | Construct::Do => false,
    }
}

impl Opens {
    /// None is open.
    pub fn new(alloc: Global) -> Opens
        ensures { result ≡ [] }
    {
        Opens {
            innermost: None,
            outer: Vec::new(alloc),
        }
    }

    /// The innermost one is of this kind.
    pub(crate) fn is_innermost(&self, c: Construct) -> bool
        ensures { result ≡ is_innermost c self.now }
    {
        match self.innermost {
            Some(level) => same_construct(c, level.construct),
            None => false,
        }
    }

    /// The innermost one is of this kind, and its ELSE or ELSEWHERE hasn't stood.
    pub fn takes_else(&self, c: Construct) -> bool
        ensures { result ≡ takes_else c self.now }
    {
        match self.innermost {
            Some(level) => same_construct(c, level.construct) && !level.otherwise,
            None => false,
        }
    }

    /// A WHERE or FORALL construct is open.
    pub(crate) fn in_where_or_forall(&self) -> bool
        ensures { result ≡ in_where_or_forall self.now }
    {
        match self.innermost {
            Some(level) => level.in_where_or_forall,
            None => false,
        }
    }

    /// A DO is open.
    pub(crate) fn in_do(&self) -> bool
        ensures { result ≡ in_do self.now }
    {
        match self.innermost {
            Some(level) => level.in_do,
            None => false,
        }
    }

    /// How many are open.
    pub(crate) fn depth(&self) -> usize
        ensures { result ≡ length self.now }
    {
        match self.innermost {
            Some(_) => self.outer.len() + 1,
            None => 0,
        }
    }

    /// One more is open.
    pub fn open(&mut self, construct: Construct) -> Result<(), AllocError>
        ensures { IfOk result (λ _. self.new ≡ opened construct self.old) }
    {
        let level = Level {
            construct,
            otherwise: false,
            in_where_or_forall: is_where_or_forall(construct) || self.in_where_or_forall(),
            in_do: same_construct(Construct::Do, construct) || self.in_do(),
        };
        if let Some(round) = self.innermost {
            self.outer.push(round)?;
        }
        self.innermost = Some(level);
        Ok(())
    }

    /// The innermost one isn't open any more.
    pub fn close(&mut self)
        ensures { self.new ≡ without_innermost self.old }
    {
        self.innermost = self.outer.pop();
    }

    /// The ELSE or ELSEWHERE of the innermost one has stood.
    pub(crate) fn tell_else(&mut self)
        ensures { self.new ≡ with_else self.old }
    {
        if let Some(level) = self.innermost {
            self.innermost = Some(Level {
                otherwise: true,
                ..level
            });
        }
    }
}

//! What the names in a body stand for.

ghost use Rattle.std.specs.Prelude.{◌≡◌, option_copied};
ghost use Rattle.expression_rules.specs.Symbols.{is_among};
ghost use Rattle.body_forms.specs.Names.{is_fixed};

use expression_rules::is_among;
use hpf_base::Name;
use name_table::{Names, What};
use std::marker::Model;

/// The names that a body may use: the declared ones, its indices, and the scalars that it assigns.
#[derive(Drop)]
pub struct BodyNames<'a> {
    declared: &'a Names,
    indices: &'a [Name],
    assigned: &'a [Name],
}

impl<'a> Model for BodyNames<'a> {
    ghost use Rattle.body_forms.specs.Names.{BodyNames as NamesOfBody};

    ghost Value = { NamesOfBody };

    ghost view = { λ b. record { declared = b.declared.now; indices = b.indices.now; assigned = b.assigned.now } };
}

impl<'a> BodyNames<'a> {
    pub fn new(declared: &'a Names, indices: &'a [Name], assigned: &'a [Name]) -> BodyNames<'a>
        ensures { result ≡ record { declared = declared.now; indices = indices.now; assigned = assigned.now } }
    {
        BodyNames {
            declared,
            indices,
            assigned,
        }
    }

    /// It is an index of the body.
    pub fn is_index(&self, name: &Name) -> bool
        ensures { result ≡ is_among name.now self.now.indices }
    {
        is_among(name, self.indices)
    }

    /// It keeps its value in the body.
    pub(crate) fn is_fixed(&self, name: &Name) -> bool
        ensures { result ≡ is_fixed self.now name.now }
    {
        match self.declared.declared_as(name) {
            Some(What::Constant(_)) => true,
            Some(What::Scalar(_)) => !is_among(name, self.assigned),
            _ => false,
        }
    }
}

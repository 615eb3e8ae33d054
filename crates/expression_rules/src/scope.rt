//! The names that an expression may use.

ghost use Rattle.std.specs.Prelude.{◌≡◌, [], option_copied};
ghost use Rattle.expression_rules.specs.Symbols.{find, is_among, with_dummies};

use crate::symbols::{Symbol, SymbolTable};
use hpf_base::Name;
use std::marker::Model;

/// The names that an expression may use: those that are declared, and before them the align dummies of its directive, which
/// stand there for scalars and hide what is declared (HPF 2.0, 3.4). Contracts see the symbol table of all of them.
#[derive(Drop)]
pub struct Scope<'a> {
    dummies: &'a [Name],
    table: &'a SymbolTable,
    /// What each dummy stands for.
    dummy: Symbol,
}

impl<'a> Model for Scope<'a> {
    ghost use Rattle.expression_rules.specs.Symbols.{SymbolTable, with_dummies};

    ghost Value = { SymbolTable };

    ghost use Rattle.std.specs.Prelude.{◌≡◌};
    ghost use Rattle.expression_rules.specs.declared.symbols.Symbol.TheVariants.{Uninitialized};

    ghost view = { λ s. with_dummies s.table.now s.dummies.now };

    ghost invariant = { λ s. s.dummy ≡ Uninitialized };
}

impl<'a> Scope<'a> {
    /// The declared names alone. It takes no memory.
    pub fn new(table: &'a SymbolTable) -> Scope<'a>
        ensures { result ≡ table.now }
    {
        Scope {
            dummies: &[],
            table,
            dummy: Symbol::Uninitialized,
        }
    }

    /// The declared names after these dummies. It takes no memory.
    pub fn with_dummies(table: &'a SymbolTable, dummies: &'a [Name]) -> Scope<'a>
        ensures { result ≡ with_dummies table.now dummies.now }
    {
        Scope {
            dummies,
            table,
            dummy: Symbol::Uninitialized,
        }
    }

    /// What a name stands for; None exactly where it is neither declared nor a dummy. It takes no memory.
    #[tactic(auto, using(crate::proofs::Dummies::find_after))]
    pub fn find(&self, name: &Name) -> Option<&Symbol>
        ensures { option_copied result ≡ find name.now self.now }
    {
        if is_among(name, self.dummies) {
            Some(&self.dummy)
        } else {
            self.table.find(name)
        }
    }
}

/// Whether a name stands in a list. It takes no memory.
pub fn is_among(name: &Name, names: &[Name]) -> bool
    ensures { result ≡ is_among name.now names.now }
{
    let mut found = false;
    for other in names {
        found |= *name == *other;
    }
    found
}

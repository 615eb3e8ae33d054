//! The symbol table.

ghost use Rattle.std.specs.Prelude.{◌≡◌, [], None, bytes_eq, length, map, option_copied, OnErr, OnOk};
ghost use Rattle.std.specs.List.{IsDistinct};
ghost use Rattle.std.specs.Map.Iter.{ShowsInOrder, deref_pair};
ghost use Rattle.expression_rules.specs.Symbols.{Name as NameBytes, changed, find};

use crate::dims::Dims;
use hpf_base::Name;
use indexmap::IndexMap;
use indexmap::map::Iter;
use std::alloc::{AllocError, Global};
use std::marker::Model;

/// What a declared name stands for. A number, or the dimensions, are None where they are unknown, since a rule is broken.
#[derive(Drop)]
pub enum Symbol {
    /// A scalar variable without an initial value.
    Uninitialized,
    /// A scalar variable with its initial value.
    Initialized(Option<i64>),
    /// A named constant with its value.
    Constant(Option<i64>),
    /// An array: its rank, its dimensions, and the initial value of its elements, which is 0 where none is given.
    Array(usize, Option<Dims>, Option<i64>),
    /// A template of a rank.
    Template(usize),
    /// A processor arrangement of a rank.
    Arrangement(usize),
}

/// The declared names, in the order of their declarations, each with what it stands for. Contracts see this list.
#[derive(Drop)]
pub struct SymbolTable {
    symbols: IndexMap<Name, Symbol>,
}

impl Model for SymbolTable {
    ghost use Rattle.std.specs.Prelude.{List, ℕ};
    ghost use Rattle.expression_rules.specs.declared.symbols.Symbol.{Symbol};

    ghost Value = { List (List ℕ × Symbol) };

    ghost view = { λ t. t.symbols.entries };

    ghost use Rattle.std.specs.Prelude.{◌≡◌, [], None};
    ghost use Rattle.expression_rules.specs.Symbols.{find};

    ghost invariant = { λ t. find [] t.symbols.entries ≡ None };
}

impl SymbolTable {
    /// A table without names. It takes no memory.
    pub fn new(alloc: Global) -> SymbolTable
        ensures { result ≡ [] }
    {
        SymbolTable {
            symbols: IndexMap::new(alloc),
        }
    }

    /// What a name stands for; None exactly where it isn't declared. It takes no memory.
    pub fn find(&self, name: &Name) -> Option<&Symbol>
        ensures { option_copied result ≡ find name.now self.now }
    {
        self.symbols.get(name)
    }

    /// How many names are declared. It takes no memory.
    pub fn len(&self) -> usize
        ensures { result ≡ length self.now }
    {
        self.symbols.len()
    }

    /// The name stands for this from now on; a name that isn't declared comes last. After an `Err` the table is as it was.
    pub fn change(&mut self, name: Name, symbol: Symbol) -> Result<(), AllocError>
        ensures changed { OnOk result (self.new ≡ changed name symbol self.old) }
        ensures kept { OnErr result (self.new ≡ self.old) }
    {
        self.symbols.insert(name, symbol)?;
        Ok(())
    }

    /// The names in order, no two of them the same, each with what it stands for. It takes no memory.
    pub fn entries(&self) -> Iter<'_, Name, Symbol>
        ensures entries { result ≡ self.now }
        ensures distinct { IsDistinct bytes_eq (map (λ e. e.0) self.now) }
        ensures runs { ShowsInOrder (deref_pair {K = NameBytes} {X = Symbol}) }
    {
        self.symbols.iter()
    }

    /// A name without bytes, which no text spells, isn't declared. It does nothing.
    pub fn valid(&self)
        ensures { find [] self.now ≡ None }
    {
        let _ = &self.symbols;
    }
}

//! What a program declares.

ghost use Rattle.std.specs.Prelude.{◌≡◌, ◌++◌, ◌∷◌, [], bytes_eq, length, map, option_copied, position, slice_get, IfOk, OnOk};
ghost use Rattle.name_table.specs.Entries.{declared_as, entry, what_is, or_none, or_zero};
ghost use Rattle.name_table.specs.NewNames.{IsNew};

use expression_rules::{Dims, Symbol, SymbolTable};
use hpf_base::Name;
use indexmap::IndexMap;
use std::alloc::{AllocError, Global};
use std::marker::Model;

/// What a declared name is.
#[derive(Drop)]
pub enum What {
    /// A scalar variable with its initial value, which is 0 where none is given.
    Scalar(i64),
    /// A named constant with its value.
    Constant(i64),
    /// An array with its declared bounds and the initial value of its elements, which is 0 where none is given.
    Array(Dims, i64),
    Template,
    /// A processor arrangement.
    Arrangement,
}

/// A declared name.
#[derive(Drop)]
pub struct Entry {
    pub name: Name,
    pub what: What,
}

/// The declared names of a program, in the order of their declarations. Contracts see the list of their entries.
#[derive(Drop)]
pub struct Names {
    entries: IndexMap<Name, Entry>,
}

impl Model for Names {
    ghost use Rattle.std.specs.Prelude.{◌≡◌, List, map};
    ghost use Rattle.name_table.specs.declared.names.Entry.{Entry};

    ghost Value = { List Entry };

    ghost view = { λ n. map (λ e. e.1) n.entries.entries };

    ghost invariant = { λ n. map (λ e. e.0) n.entries.entries ≡ map (λ e. e.1.name) n.entries.entries };
}

impl Names {
    /// How many names there are. It takes no memory.
    pub fn len(&self) -> usize
        ensures { result ≡ length self.now }
    {
        self.entries.len()
    }

    /// The entry at a place, counted from 0; None exactly where there are no more than so many. It takes no memory.
    pub fn get(&self, place: usize) -> Option<&Entry>
        ensures { option_copied result ≡ slice_get self.now place }
    {
        match self.entries.get_index(place) {
            Some((_, entry)) => Some(entry),
            None => None,
        }
    }

    /// The place of a name, counted from 0; None exactly where it isn't declared. It takes no memory.
    pub fn find(&self, name: &Name) -> Option<usize>
        ensures { result ≡ position (λ e. bytes_eq name.now e.name) self.now }
    {
        self.entries.get_index_of(name)
    }

    /// What a name stands for; None exactly where it isn't declared. It takes no memory.
    pub fn declared_as(&self, name: &Name) -> Option<&What>
        ensures { option_copied result ≡ declared_as self.now name.now }
    {
        let place = self.find(name)?;
        let entry = self.get(place)?;
        Some(&entry.what)
    }

    /// No names.
    fn new(alloc: Global) -> Names
        ensures { result ≡ [] }
    {
        Names {
            entries: IndexMap::new(alloc),
        }
    }

    /// One name more, at the end.
    fn add(&mut self, entry: Entry) -> Result<(), AllocError>
        requires { IsNew entry.name self.old }
        ensures { OnOk result (self.new ≡ self.old ++ entry ∷ []) }
    {
        self.entries.insert(entry.name, entry)?;
        Ok(())
    }
}

/// The names of a symbol table. An `Err` is want of memory.
pub(crate) fn entries_of(alloc: Global, table: &SymbolTable) -> Result<Names, AllocError>
    ensures { IfOk result (λ ns. ns ≡ map entry table.now) }
{
    let mut names = Names::new(alloc);
    for (name, symbol) in table.entries() {
        let what = what_is(alloc, symbol)?;
        names.add(Entry { name: *name, what })?;
    }
    Ok(names)
}

/// What a symbol says of a program that keeps the rules.
fn what_is(alloc: Global, symbol: &Symbol) -> Result<What, AllocError>
    ensures { IfOk result (λ what. what ≡ what_is symbol.now) }
{
    match symbol {
        Symbol::Uninitialized => Ok(What::Scalar(0)),
        Symbol::Initialized(n) => Ok(What::Scalar(or_zero(*n))),
        Symbol::Constant(n) => Ok(What::Constant(or_zero(*n))),
        Symbol::Array(_, dims, n) => {
            let dims = or_none(alloc, dims)?;
            Ok(What::Array(dims, or_zero(*n)))
        }
        Symbol::Template(_) => Ok(What::Template),
        Symbol::Arrangement(_) => Ok(What::Arrangement),
    }
}

/// A number, or 0 where it isn't known.
fn or_zero(n: Option<i64>) -> i64
    ensures { result ≡ or_zero n }
{
    match n {
        Some(n) => n,
        None => 0,
    }
}

/// Dimensions, or none where they aren't known.
fn or_none(alloc: Global, dims: &Option<Dims>) -> Result<Dims, AllocError>
    ensures { IfOk result (λ ds. ds ≡ or_none dims.now) }
{
    match dims {
        Some(dims) => dims.copy(alloc),
        None => Ok(Dims::new(Vec::new(alloc))),
    }
}

//! The names that are declared so far.

ghost use Rattle.std.specs.Prelude.{◌≡◌, ◌≤◌, ◌+◌, [], if◌then◌else◌, option_copied, OnOk};
ghost use Rattle.declarations.specs.declared.limits.TheConstants.{MAX_TOTAL_ELEMENTS};
ghost use Rattle.expression_rules.specs.declared.symbols.Symbol.TheVariants.{Constant};
ghost use Rattle.expression_rules.specs.Symbols.{added, all_elements, changed, elements_of, find, is_declared, is_uninitialized, satisfies};

use expression_rules::{Symbol, SymbolTable, size};
use hpf_base::Name;
use std::alloc::{AllocError, Global};
use std::marker::Model;

/// The names that are declared so far, with the number of elements of all their arrays. Contracts see the symbol table.
#[derive(Drop)]
pub(crate) struct DeclaredNames {
    table: SymbolTable,
    elements: u64,
}

impl Model for DeclaredNames {
    ghost use Rattle.std.specs.Prelude.{◌≡◌, ◌≤◌, List, ℕ};
    ghost use Rattle.declarations.specs.declared.limits.TheConstants.{MAX_TOTAL_ELEMENTS};
    ghost use Rattle.expression_rules.specs.Symbols.{all_elements};
    ghost use Rattle.expression_rules.specs.declared.symbols.Symbol.{Symbol};

    ghost Value = { List (List ℕ × Symbol) };

    ghost view = { λ d. d.table };

    ghost invariant = { λ d. (d.elements ≡ all_elements d.table) × (d.elements ≤ MAX_TOTAL_ELEMENTS) };
}

impl DeclaredNames {
    /// No names. It takes no memory.
    pub(crate) fn new(alloc: Global) -> DeclaredNames
        ensures { result ≡ [] }
    {
        DeclaredNames {
            table: SymbolTable::new(alloc),
            elements: 0,
        }
    }

    /// The symbol table.
    pub(crate) fn table(&self) -> &SymbolTable
        ensures { result.now ≡ self.now }
    {
        &self.table
    }

    /// The symbol table alone.
    pub(crate) fn into_table(self) -> SymbolTable
        ensures { result ≡ self }
    {
        self.table
    }

    /// How many elements all arrays have together.
    pub(crate) fn elements(&self) -> u64
        ensures value { result ≡ all_elements self.now }
        ensures few { result ≤ MAX_TOTAL_ELEMENTS }
    {
        self.elements
    }

    /// One name more, unless it is declared.
    pub(crate) fn add(&mut self, name: Name, symbol: Symbol) -> Result<(), AllocError>
        requires { all_elements self.old ≤ MAX_TOTAL_ELEMENTS → all_elements self.old + elements_of symbol ≤ MAX_TOTAL_ELEMENTS }
        ensures { OnOk result (self.new ≡ added self.old name symbol) }
    {
        if is_declared(&self.table, &name) {
            return Ok(());
        }
        let elements = elements_of(&symbol);
        self.table.change(name, symbol)?;
        self.elements += elements;
        Ok(())
    }

    /// A scalar variable without an initial value is from now on a constant of this value; any other name stays what it is.
    pub(crate) fn define(&mut self, name: Name, value: Option<i64>) -> Result<(), AllocError>
        ensures { OnOk result (self.new ≡ (if satisfies is_uninitialized (find name self.old) then changed name (Constant value) self.old else self.old)) }
    {
        if !is_uninitialized(self.table.find(&name)) {
            return Ok(());
        }
        self.table.change(name, Symbol::Constant(value))?;
        Ok(())
    }
}

/// How many elements an array has whose dimensions are known; 0 of anything else.
fn elements_of(symbol: &Symbol) -> u64
    ensures { result ≡ elements_of symbol.now }
{
    match symbol {
        Symbol::Array(_, Some(dims), _) => size(dims.as_slice()),
        _ => 0,
    }
}

/// The name is declared.
pub(crate) fn is_declared(table: &SymbolTable, name: &Name) -> bool
    ensures { result ≡ is_declared name.now table.now }
{
    matches!(table.find(name), Some(_))
}

/// A scalar variable without an initial value.
pub(crate) fn is_uninitialized(what: Option<&Symbol>) -> bool
    ensures { result ≡ satisfies is_uninitialized (option_copied what.entry) }
{
    matches!(what, Some(Symbol::Uninitialized))
}

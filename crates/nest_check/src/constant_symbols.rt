//! The declared constants and arrays as a symbol table, for the values of constant expressions. An `Err` is want of memory.

ghost use Rattle.std.specs.Prelude.{◌≡◌, slice_get, IfOk, OnOk};
ghost use Rattle.expression_rules.specs.Inner.{present};
ghost use Rattle.nest_check.specs.NestNames.{constant_symbols, with_constant, with_constants};

use expression_rules::{Symbol, SymbolTable};
use hpf_base::Name;
use name_table::{Names, What};
use std::alloc::{AllocError, Global};

/// The constants and arrays of a program.
pub(crate) fn constant_symbols(alloc: Global, names: &Names) -> Result<SymbolTable, AllocError>
    ensures { IfOk result (λ t. t ≡ constant_symbols names.now) }
{
    let mut table = SymbolTable::new(alloc);
    for place in 0..names.len() {
        add_place(alloc, &mut table, names, place)?;
    }
    Ok(table)
}

/// Adds the name at a place.
fn add_place(
    alloc: Global,
    table: &mut SymbolTable,
    names: &Names,
    place: usize,
) -> Result<(), AllocError>
    ensures { OnOk result (table.new ≡ with_constants table.old (present (slice_get names.now place))) }
{
    match names.get(place) {
        Some(entry) => add_constant(alloc, table, entry.name, &entry.what),
        None => Ok(()),
    }
}

/// Adds a name where it is a constant or an array.
fn add_constant(
    alloc: Global,
    table: &mut SymbolTable,
    name: Name,
    what: &What,
) -> Result<(), AllocError>
    ensures { OnOk result (table.new ≡ with_constant table.old name what.now) }
{
    match what {
        What::Constant(n) => table.change(name, Symbol::Constant(Some(*n))),
        What::Array(dims, n) => {
            let rank = dims.as_slice().len();
            let copy = dims.copy(alloc)?;
            table.change(name, Symbol::Array(rank, Some(copy), Some(*n)))
        }
        _ => Ok(()),
    }
}

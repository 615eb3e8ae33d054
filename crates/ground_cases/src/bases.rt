//! Grids, index tuples and lists of names.

use case_texts::write_text;
use hpf_base::{Grid, Index, Name};
use std::alloc::{AllocError, Global};
use std::fmt::Write;
use syntax_tree::NameList;

/// Writes how many nodes the grid with these extents has.
pub fn write_grid(alloc: Global, out: &mut String, written: &str) -> Result<(), AllocError> {
    let extents = extents_of(alloc, written)?;
    match Grid::new(alloc, &extents) {
        Some(grid) => writeln!(out, "  {} nodes", grid.node_count()),
        None => out.push_str("  none\n"),
    }
}

fn extents_of(alloc: Global, written: &str) -> Result<Vec<u32>, AllocError> {
    let mut extents = Vec::new(alloc);
    for word in written.split(' ') {
        if let Ok(extent) = word.parse::<u32>() {
            extents.push(extent)?;
        }
    }
    Ok(extents)
}

/// Writes the tuple of these numbers.
pub fn write_index(alloc: Global, out: &mut String, written: &str) -> Result<(), AllocError> {
    let numbers = numbers_of(alloc, written)?;
    match Index::new(alloc, &numbers) {
        Some(index) => write_numbers(out, index.numbers()),
        None => out.push_str("  none\n"),
    }
}

fn numbers_of(alloc: Global, written: &str) -> Result<Vec<i64>, AllocError> {
    let mut numbers = Vec::new(alloc);
    for word in written.split(' ') {
        if let Ok(number) = word.parse::<i64>() {
            numbers.push(number)?;
        }
    }
    Ok(numbers)
}

fn write_numbers(out: &mut String, numbers: &[i64]) -> Result<(), AllocError> {
    out.push_str(" ")?;
    for number in numbers {
        write!(out, " {number}")?;
    }
    out.push_str("\n")
}

/// Writes how many names the words are, and each of them once.
pub fn write_names(alloc: Global, out: &mut String, written: &str) -> Result<(), AllocError> {
    let names = names_of(alloc, written)?;
    write_held(out, names.as_slice())
}

/// The names among the words, each once.
fn names_of(alloc: Global, written: &str) -> Result<NameList, AllocError> {
    let mut held: Vec<Name> = Vec::new(alloc);
    for word in written.split(' ') {
        if let Some(name) = Name::new(word.as_bytes()) {
            if !held.as_slice().contains(&name) {
                held.push(name)?;
            }
        }
    }
    Ok(NameList::new(held))
}

fn write_held(out: &mut String, names: &[Name]) -> Result<(), AllocError> {
    write!(out, "  {}:", names.len())?;
    for name in names {
        out.push(' ')?;
        write_text(out, name.bytes())?;
    }
    out.push_str("\n")
}

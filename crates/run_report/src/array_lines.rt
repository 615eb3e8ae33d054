//! The text of a program's last arrays.

ghost use Rattle.std.specs.Prelude.{◌≡◌, ◌++◌, map, slice_get, slice_index_or, [], IfOk, OnOk};
ghost use Rattle.run_report.specs.ArraysText.{array_line, arrays_text, elements_text, entry_line};

use crate::tuple_text::add_number;
use hpf_base::{Name, OutOfMemory};
use name_table::{Names, What};
use std::alloc::{AllocError, Global};

/// The text of a program's last arrays: for each, in the order of the declarations, a line with its name, an equals sign and its elements in
/// array-element order, each after a blank, as `A = 0 2 6`. Each array stands at the place of its name among the declared names.
pub fn arrays_text(
    alloc: Global,
    names: &Names,
    arrays: &[Vec<i64>],
) -> Result<Vec<u8>, OutOfMemory>
    ensures { IfOk result (λ text. text.items ≡ arrays_text names.now (map (λ a. a.items) arrays.now)) }
{
    let mut text = Vec::new(alloc);
    for place in 0..names.len() {
        add_entry(&mut text, names, arrays, place)?;
    }
    Ok(text)
}

/// Adds the line of the array whose name has the place, where it is one.
fn add_entry(
    text: &mut Vec<u8>,
    names: &Names,
    arrays: &[Vec<i64>],
    place: usize,
) -> Result<(), AllocError>
    ensures { OnOk result (text.new.items ≡ text.old.items ++ entry_line (slice_get names.now place) (slice_index_or (map (λ a. a.items) arrays.now) place [])) }
{
    match names.get(place) {
        Some(entry) => add_array(text, &entry.name, &entry.what, elements_at(arrays, place)),
        None => Ok(()),
    }
}

/// The elements at a place; none where there is no array.
fn elements_at(arrays: &[Vec<i64>], place: usize) -> &[i64]
    ensures { result.now ≡ slice_index_or (map (λ a. a.items) arrays.now) place [] }
{
    match arrays.get(place) {
        Some(array) => array.as_slice(),
        None => &[],
    }
}

/// Adds an array's line.
fn add_array(
    text: &mut Vec<u8>,
    name: &Name,
    what: &What,
    elements: &[i64],
) -> Result<(), AllocError>
    ensures { OnOk result (text.new.items ≡ text.old.items ++ array_line name.now what.now elements.now) }
{
    match what {
        What::Array(_, _) => {
            text.extend_from_slice(name.bytes())?;
            text.extend_from_slice(b" =")?;
            add_elements(text, elements)?;
            text.extend_from_slice(b"\n")
        }
        _ => Ok(()),
    }
}

/// Adds numbers, each after a blank.
fn add_elements(text: &mut Vec<u8>, elements: &[i64]) -> Result<(), AllocError>
    ensures { OnOk result (text.new.items ≡ text.old.items ++ elements_text elements.now) }
{
    for element in elements {
        text.push(b' ')?;
        add_number(text, *element)?;
    }
    Ok(())
}

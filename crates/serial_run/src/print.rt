//! PRINT (Fortran 95, 9.4).

ghost use Rattle.std.specs.Fmt.{signed_decimal};
ghost use Rattle.std.specs.Prelude.{◌≡◌, ◌++◌, ◌∷◌, [], drop, IfErr, IfOk, map, Ok, OnOk};
ghost use Rattle.array_meaning.specs.Execution.{all_item_bytes, decimals, item_bytes, print, run};
ghost use Rattle.array_meaning.specs.Statements.{Print};
ghost use Rattle.resolved_program.specs.Resolved.{item, subscripts_of};
ghost use Rattle.term_values.specs.States.{state_of};
ghost use Rattle.term_values.specs.Stops.{IsStop};
ghost use Rattle.term_values.specs.declared.stops.Stop.TheVariants.{Memory};
ghost use Rattle.serial_run.specs.Completions.{IsRun, IsStopped};
ghost use Rattle.serial_run.specs.Printing.{Adds, section_elements};

use crate::completion::{Completion, ended};
use itoa::Buffer;
use resolved_program::{Item, SectionSubscript};
use std::alloc::AllocError;
use term_values::{ArrayValue, Elemental, State, Stop, array_value, selections, value};

/// Runs a PRINT.
#[inline(never)]
pub(crate) fn run_print(
    s: &mut State,
    line: u32,
    items: &Vec<Item>,
) -> Result<Completion, AllocError>
    ensures { IfOk result (IsRun (run (Print (map item items.now.items)) line (state_of s.old)) (state_of s.new)) }
{
    let step = print(s, items);
    ended(line, step)
}

/// Prints a line: evaluates all items first.
fn print(s: &mut State, items: &Vec<Item>) -> Result<(), Stop>
    ensures value { OnOk result (print (map item items.now.items) (state_of s.old) ≡ Ok (state_of s.new)) }
    ensures stopped { IfErr result (IsStopped (print (map item items.now.items) (state_of s.old)) (state_of s.old) (state_of s.new)) }
{
    let bytes = all_item_bytes(s, items)?;
    add_line(s, &bytes)?;
    Ok(())
}

/// Puts a line after what was printed, without the first blank.
fn add_line(s: &mut State, bytes: &[u8]) -> Result<(), Stop>
    ensures value { OnOk result (state_of s.new ≡ record (state_of s.old) { printed = (state_of s.old).printed ++ (drop 1 bytes.now ++ 10 ∷ []) }) }
    ensures stopped { IfErr result (λ e. e ≡ Memory) }
{
    if !bytes.is_empty() {
        s.printed.extend_from_slice(&bytes[1..])?;
    }
    s.printed.push(b'\n')?;
    Ok(())
}

/// The bytes of items, a blank before each text and each number.
fn all_item_bytes(s: &State, items: &Vec<Item>) -> Result<Vec<u8>, Stop>
    ensures value { IfOk result (λ bytes. all_item_bytes (state_of s.now) (map item items.now.items) ≡ Ok bytes.items) }
    ensures stopped { IfErr result (IsStop (all_item_bytes (state_of s.now) (map item items.now.items))) }
{
    let mut bytes = Vec::new(*s.scalars.allocator());
    for item in items {
        add_item(s, item, &mut bytes)?;
    }
    Ok(bytes)
}

/// Puts the bytes of an item after others.
fn add_item(s: &State, i: &Item, bytes: &mut Vec<u8>) -> Result<(), Stop>
    ensures value { OnOk result (Adds (item_bytes (state_of s.now) (item i.now)) bytes.old.items bytes.new.items) }
    ensures stopped { IfErr result (IsStop (item_bytes (state_of s.now) (item i.now))) }
{
    match i {
        Item::Text(text) => {
            bytes.push(b' ')?;
            bytes.extend_from_slice(text)?;
            Ok(())
        }
        Item::Value(t) => {
            let v = value(s, &[], t)?;
            add_number(bytes, v)
        }
        Item::Elements(array, subscripts) => {
            let v = section_value(s, *array, subscripts)?;
            add_numbers(bytes, &v.elements)
        }
    }
}

/// The elements of a section.
fn section_value(
    s: &State,
    array: usize,
    subscripts: &Vec<SectionSubscript>,
) -> Result<ArrayValue, Stop>
    ensures value { IfOk result (λ v. section_elements (state_of s.now) array (subscripts_of subscripts.now.items) ≡ Ok v.elements.items) }
    ensures stopped { IfErr result (IsStop (section_elements (state_of s.now) array (subscripts_of subscripts.now.items))) }
{
    let ds = selections(s, &[], subscripts)?;
    let x = Elemental::Selected(array, ds);
    let v = array_value(s, &x)?;
    Ok(v)
}

/// Puts numbers after bytes, a blank before each.
fn add_numbers(bytes: &mut Vec<u8>, values: &[i64]) -> Result<(), Stop>
    ensures value { OnOk result (bytes.new.items ≡ bytes.old.items ++ decimals values.now) }
    ensures stopped { IfErr result (λ e. e ≡ Memory) }
{
    for v in values {
        add_number(bytes, *v)?;
    }
    Ok(())
}

/// Puts a blank and a number after bytes.
fn add_number(bytes: &mut Vec<u8>, v: i64) -> Result<(), Stop>
    ensures value { OnOk result (bytes.new.items ≡ bytes.old.items ++ 32 ∷ signed_decimal v) }
    ensures stopped { IfErr result (λ e. e ≡ Memory) }
{
    let mut buffer = Buffer::new();
    let text = buffer.format(v);
    bytes.push(b' ')?;
    bytes.extend_from_slice(text.as_bytes())?;
    Ok(())
}

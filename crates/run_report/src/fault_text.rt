//! The line of a fault.

ghost use Rattle.std.specs.Prelude.{◌≡◌, ◌++◌, codes, option_map, slice_get, IfOk, OnOk};
ghost use Rattle.run_report.specs.FaultLine.{fault_line, kind_name, name_text, object_text, place_text, subscripts_text};
ghost use Rattle.run_report.specs.TupleText.{tuple_text};
ghost use Rattle.term_values.specs.Stops.{cause, interference, location, object};

use crate::tuple_text::add_tuple;
use array_meaning::FaultKind;
use hpf_base::OutOfMemory;
use itoa::Buffer;
use name_table::Names;
use std::alloc::{AllocError, Global};
use term_values::{Cause, Interference, Object, Place};

/// The line that a fault is reported by, with a line feed: the number of the statement's line, the kind of the fault, and where it comes,
/// as in `hpf: line 6: fault DivZero at (3)`, and in `hpf: line 4: fault Interfere (2) (3) on A(2)` where two iterations interfere. The
/// names are those of the program. An `Err` is want of memory.
pub fn fault_line(
    alloc: Global,
    names: &Names,
    line: u32,
    fault: &Cause,
) -> Result<Vec<u8>, OutOfMemory>
    ensures { IfOk result (λ text. text.items ≡ fault_line names.now (record { line = line; kind = (cause fault.now).kind; at = (cause fault.now).at })) }
{
    let mut number = Buffer::new();
    let mut text = Vec::from_slice(alloc, b"hpf: line ")?;
    text.extend_from_slice(number.format(line).as_bytes())?;
    text.extend_from_slice(b": fault ")?;
    text.extend_from_slice(kind_name(fault.kind))?;
    add_place(&mut text, names, &fault.at)?;
    text.extend_from_slice(b"\n")?;
    Ok(text)
}

/// The name of a kind of fault.
fn kind_name(kind: FaultKind) -> &'static [u8]
    ensures { result.now ≡ kind_name kind }
{
    match kind {
        FaultKind::Bounds => b"Bounds",
        FaultKind::DivZero => b"DivZero",
        FaultKind::Shape => b"Shape",
        FaultKind::ZeroStride => b"ZeroStride",
        FaultKind::NotOneToOne => b"NotOneToOne",
        FaultKind::SpaceLimit => b"SpaceLimit",
        FaultKind::Interfere => b"Interfere",
    }
}

/// Adds where a fault comes: nothing, at a tuple, or between two iterations.
fn add_place(text: &mut Vec<u8>, names: &Names, at: &Place) -> Result<(), AllocError>
    ensures { OnOk result (text.new.items ≡ text.old.items ++ place_text names.now (location at.now)) }
{
    match at {
        Place::Nowhere => Ok(()),
        Place::AtTuple(tuple) => add_at(text, tuple),
        Place::Between(pair) => add_between(text, names, pair),
    }
}

/// Adds the tuple at which a fault comes.
fn add_at(text: &mut Vec<u8>, tuple: &[i64]) -> Result<(), AllocError>
    ensures { OnOk result (text.new.items ≡ text.old.items ++ (codes " at " ++ tuple_text tuple.now)) }
{
    text.extend_from_slice(b" at ")?;
    add_tuple(text, tuple)
}

/// Adds the two iterations that interfere, and in which object.
fn add_between(text: &mut Vec<u8>, names: &Names, pair: &Interference) -> Result<(), AllocError>
    ensures { OnOk result (text.new.items ≡ text.old.items ++ place_text names.now (interference pair.now)) }
{
    text.extend_from_slice(b" ")?;
    add_tuple(text, &pair.earlier)?;
    text.extend_from_slice(b" ")?;
    add_tuple(text, &pair.later)?;
    text.extend_from_slice(b" on ")?;
    add_object(text, names, &pair.object)
}

/// Adds a scalar by its name, or an element by that of its array and its subscripts.
fn add_object(text: &mut Vec<u8>, names: &Names, accessed: &Object) -> Result<(), AllocError>
    ensures { OnOk result (text.new.items ≡ text.old.items ++ object_text names.now (object accessed.now)) }
{
    add_name(text, names, accessed.name)?;
    add_subscripts(text, &accessed.subscripts)
}

/// Adds the name at a place, where there is one.
fn add_name(text: &mut Vec<u8>, names: &Names, place: usize) -> Result<(), AllocError>
    ensures { OnOk result (text.new.items ≡ text.old.items ++ name_text (slice_get names.now place)) }
{
    match names.get(place) {
        Some(entry) => text.extend_from_slice(entry.name.bytes()),
        None => Ok(()),
    }
}

/// Adds the subscripts of an element, which a scalar hasn't.
fn add_subscripts(text: &mut Vec<u8>, subscripts: &Option<Vec<i64>>) -> Result<(), AllocError>
    ensures { OnOk result (text.new.items ≡ text.old.items ++ subscripts_text (option_map (λ s. s.items) subscripts.now)) }
{
    match subscripts {
        Some(subscripts) => add_tuple(text, subscripts),
        None => Ok(()),
    }
}

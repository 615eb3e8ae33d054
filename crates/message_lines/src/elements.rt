//! The text of elements: `A(2,3)`.

ghost use Rattle.std.specs.Prelude.{◌≡◌, ◌<◌, ◌++◌, [], codes, map, slice_index_or, OnOk};
ghost use Rattle.hpf_base.specs.ElementOrder.{extents_of, product};
ghost use Rattle.hpf_base.specs.Shape.{IsShape};
ghost use Rattle.storage.specs.Spots.{spot_of};
ghost use Rattle.machine_steps.specs.Layout.{element_index, sizes};
ghost use Rattle.message_text.specs.MessageText.{row_name, scalar_of, spot_text};
ghost use Rattle.run_report.specs.TupleText.{tuple_text};
ghost use Rattle.message_lines.specs.Settings.{setting_of};

use crate::rows::Rows;
use hpf_base::Shape;
use local_address::nth_element;
use name_table::Names;
use owner_tables::Spot;
use run_report::add_tuple;
use std::alloc::{AllocError, Global};

/// Adds an element: the name of its row with the subscripts.
pub(crate) fn add_spot(
    alloc: Global,
    rows: &Rows<'_>,
    spot: Spot,
    text: &mut Vec<u8>,
) -> Result<(), AllocError>
    requires { spot.at < slice_index_or (sizes rows.now.owners.layouts) spot.row 0 }
    ensures { OnOk result (text.new.items ≡ text.old.items ++ spot_text (setting_of rows.now) rows.now.owners.layouts (spot_of spot)) }
{
    add_row_name(rows, spot.row, text)?;
    match rows.owners.table(spot.row) {
        Some(table) => add_subscripts(alloc, table.shape(), spot.at, text),
        None => Ok(()),
    }
}

/// Adds the name of a row: that of a declared name; of the scalar whose copies it has, with `@`; or that of another copy.
fn add_row_name(rows: &Rows<'_>, row: usize, text: &mut Vec<u8>) -> Result<(), AllocError>
    ensures { OnOk result (text.new.items ≡ text.old.items ++ row_name (setting_of rows.now) row) }
{
    match scalar_of(rows.copies, rows.copied, row) {
        Some(k) => add_copy_name(rows.names, k, text),
        None => {
            text.extend_from_slice(name_or(rows.names, row, b"?@"))?;
            Ok(())
        }
    }
}

/// The scalar whose copies a row has, by rows with their scalars.
fn scalar_of(copies: &[usize], copied: &[usize], row: usize) -> Option<usize>
    ensures { result ≡ scalar_of copies.now copied.now row }
{
    match copies {
        [] => None,
        [copy, others @ ..] => match copied {
            [] => None,
            [scalar, rest @ ..] => {
                if *copy == row {
                    Some(*scalar)
                } else {
                    scalar_of(others, rest, row)
                }
            }
        },
    }
}

/// Adds the name of a copy of a scalar, by the scalar's place.
fn add_copy_name(names: &Names, k: usize, text: &mut Vec<u8>) -> Result<(), AllocError>
    ensures { OnOk result (text.new.items ≡ text.old.items ++ slice_index_or (map (λ e. e.name) names.now) k [] ++ codes "@") }
{
    text.extend_from_slice(name_or(names, k, b""))?;
    text.push(b'@')?;
    Ok(())
}

/// A declared name, or other bytes where there is none at this place.
fn name_or<'a>(names: &'a Names, row: usize, other: &'a [u8]) -> &'a [u8]
    ensures { result.now ≡ slice_index_or (map (λ e. e.name) names.now) row other.now }
{
    match names.get(row) {
        Some(entry) => entry.name.bytes(),
        None => other,
    }
}

/// Adds the subscripts of the element at a place, from 0, of a row of this shape.
fn add_subscripts(
    alloc: Global,
    shape: &Shape,
    at: usize,
    text: &mut Vec<u8>,
) -> Result<(), AllocError>
    requires shape { IsShape shape.now }
    requires at { at < product (extents_of shape.now) }
    ensures { OnOk result (text.new.items ≡ text.old.items ++ tuple_text (element_index shape.now at)) }
{
    let index = nth_element(alloc, shape, at as u64);
    add_tuple(text, index.numbers())
}

//! The line of a message.

ghost use Rattle.std.specs.Prelude.{◌≡◌, ◌<◌, ◌++◌, All, IfOk, OnOk, codes, decimal, map, slice_index_or};
ghost use Rattle.storage.specs.Spots.{spot_of};
ghost use Rattle.machine_steps.specs.Layout.{sizes};
ghost use Rattle.message_text.specs.MessageText.{line_head, message_line, spots_text};
ghost use Rattle.message_lines.specs.Settings.{setting_of};

use crate::elements::add_spot;
use crate::rows::Rows;
use itoa::Buffer;
use owner_tables::Spot;
use std::alloc::{AllocError, Global};

/// Adds the line of a message of these elements from a node to another, after the words that it begins with. A message without elements has
/// no line.
pub(crate) fn add_message(
    alloc: Global,
    rows: &Rows<'_>,
    head: &[u8],
    from: u32,
    to: u32,
    spots: &[Spot],
    text: &mut Vec<u8>,
) -> Result<(), AllocError>
    requires { All (λ spot. spot.at < slice_index_or (sizes rows.now.owners.layouts) spot.row 0) spots.now }
    ensures { OnOk result (text.new.items ≡ text.old.items
        ++ message_line head.now from to (setting_of rows.now) rows.now.owners.layouts (map spot_of spots.now)) }
{
    if let [_, ..] = spots {
        add_ends(head, from, to, text)?;
        add_spots(alloc, rows, spots, text)?;
        text.push(b'\n')?;
    }
    Ok(())
}

/// Adds what stands before the elements.
fn add_ends(head: &[u8], from: u32, to: u32, text: &mut Vec<u8>) -> Result<(), AllocError>
    ensures { OnOk result (text.new.items ≡ text.old.items ++ head.now ++ decimal from ++ codes " -> " ++ decimal to ++ codes ":") }
{
    let mut number = Buffer::new();
    text.extend_from_slice(head)?;
    text.extend_from_slice(number.format(from).as_bytes())?;
    text.extend_from_slice(b" -> ")?;
    text.extend_from_slice(number.format(to).as_bytes())?;
    text.push(b':')?;
    Ok(())
}

/// Adds elements, each after a blank.
fn add_spots(
    alloc: Global,
    rows: &Rows<'_>,
    spots: &[Spot],
    text: &mut Vec<u8>,
) -> Result<(), AllocError>
    requires { All (λ spot. spot.at < slice_index_or (sizes rows.now.owners.layouts) spot.row 0) spots.now }
    ensures { OnOk result (text.new.items ≡ text.old.items ++ spots_text (setting_of rows.now) rows.now.owners.layouts (map spot_of spots.now)) }
{
    for spot in spots {
        text.push(b' ')?;
        add_spot(alloc, rows, *spot, text)?;
    }
    Ok(())
}

/// What the messages of a line begin with: `line 3: `.
pub(crate) fn line_head(alloc: Global, line: u32) -> Result<Vec<u8>, AllocError>
    ensures { IfOk result (λ head. head.items ≡ line_head line) }
{
    let mut number = Buffer::new();
    let mut head = Vec::from_slice(alloc, b"line ")?;
    head.extend_from_slice(number.format(line).as_bytes())?;
    head.extend_from_slice(b": ")?;
    Ok(head)
}

/// What those of a round of a redistribution begin with: `line 3: round 1: `.
pub(crate) fn round_head(alloc: Global, line: u32, round: usize) -> Result<Vec<u8>, AllocError>
    ensures { IfOk result (λ head. head.items ≡ line_head line ++ codes "round " ++ decimal round ++ codes ": ") }
{
    let mut number = Buffer::new();
    let mut head = line_head(alloc, line)?;
    head.extend_from_slice(b"round ")?;
    head.extend_from_slice(number.format(round).as_bytes())?;
    head.extend_from_slice(b": ")?;
    Ok(head)
}

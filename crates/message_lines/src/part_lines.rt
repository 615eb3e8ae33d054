//! The lines of a part.

ghost use Rattle.std.specs.Prelude.{◌≡◌, ◌<◌, ◌++◌, OnOk};
ghost use Rattle.std.specs.List.{flat_map, range_with_len};
ghost use Rattle.message_text.specs.MessageText.{part_lines};
ghost use Rattle.part_steps.specs.Exchanged.{IsExchange};
ghost use Rattle.part_steps.specs.Parts.{part_of};
ghost use Rattle.part_steps.specs.Views.{part_view};
ghost use Rattle.tuple_values.specs.Views.{statement as statement_of};
ghost use Rattle.message_lines.specs.RowLines.{source_lines};
ghost use Rattle.message_lines.specs.RowParts.{part_over};
ghost use Rattle.message_lines.specs.Settings.{setting_of};

use crate::message_line::{add_message, line_head};
use crate::rows::Rows;
use comm_sets::Exchange;
use hpf_base::OutOfMemory;
use part_steps::{Part, Who, exchange_of};
use std::alloc::{AllocError, Global};
use tuple_values::ParallelStatement;

/// Adds the lines of the part of a line, by source and then by target: the part of a statement over these rows.
pub(crate) fn add_part(
    alloc: Global,
    rows: &Rows<'_>,
    statement: &ParallelStatement<'_>,
    who: Who,
    line: u32,
    text: &mut Vec<u8>,
) -> Result<(), OutOfMemory>
    ensures { OnOk result (text.new.items ≡ text.old.items
        ++ part_lines (setting_of rows.now) rows.now.owners.layouts line (part_of (part_over rows.now who (statement_of statement.now)))) }
{
    let head = line_head(alloc, line)?;
    let part = Part::new(statement, &rows.owners, who);
    add_sources(alloc, rows, &part, &head, text)
}

/// Adds the lines of what each node sends in a part over these rows, each after the words that it begins with.
fn add_sources(
    alloc: Global,
    rows: &Rows<'_>,
    part: &Part<'_>,
    head: &[u8],
    text: &mut Vec<u8>,
) -> Result<(), OutOfMemory>
    requires { part.now.owners.now ≡ rows.now.owners }
    ensures { OnOk result (text.new.items ≡ text.old.items
        ++ flat_map (source_lines rows.now (part_of (part_view part.now)) head.now) (range_with_len 0 rows.now.owners.nodes)) }
{
    for from in 0..rows.owners.nodes() {
        add_source(alloc, rows, part, head, from, text)?;
    }
    Ok(())
}

/// Adds those of what one node sends, by target.
fn add_source(
    alloc: Global,
    rows: &Rows<'_>,
    part: &Part<'_>,
    head: &[u8],
    from: u32,
    text: &mut Vec<u8>,
) -> Result<(), OutOfMemory>
    requires over { part.now.owners.now ≡ rows.now.owners }
    requires from { from < rows.now.owners.nodes }
    ensures { OnOk result (text.new.items ≡ text.old.items ++ source_lines rows.now (part_of (part_view part.now)) head.now from) }
{
    let exchange = exchange_of(alloc, part, from)?;
    add_sent(alloc, rows, part, &exchange, head, from, text)?;
    Ok(())
}

/// Adds those of what one node sends by what it exchanges.
fn add_sent(
    alloc: Global,
    rows: &Rows<'_>,
    part: &Part<'_>,
    exchange: &Exchange,
    head: &[u8],
    from: u32,
    text: &mut Vec<u8>,
) -> Result<(), AllocError>
    requires over { part.now.owners.now ≡ rows.now.owners }
    requires exchange { IsExchange (part_view part.now) from exchange.now }
    ensures { OnOk result (text.new.items ≡ text.old.items ++ source_lines rows.now (part_of (part_view part.now)) head.now from) }
{
    let _ = part;
    for to in 0..rows.owners.nodes() {
        let spots = exchange.outgoing.with(to);
        add_message(alloc, rows, head, from, to, spots, text)?;
    }
    Ok(())
}

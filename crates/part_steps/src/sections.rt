//! The values of a section on a node.

ghost use Rattle.std.specs.Prelude.{◌≡◌, ◌<◌, ◌++◌, IfOk, OnOk};
ghost use Rattle.machine_steps.specs.Machine.{value_or_none};
ghost use Rattle.machine_steps.specs.Message.{first_read};
ghost use Rattle.tuple_values.specs.Spots.{read_of, reads_of};
ghost use Rattle.tuple_values.specs.Statements.{tuple_reads};
ghost use Rattle.part_steps.specs.After.{after, elements_below, value_of, tuples};
ghost use Rattle.part_steps.specs.Exchanged.{IsExchange};
ghost use Rattle.part_steps.specs.Gathered.{after_of};
ghost use Rattle.part_steps.specs.Views.{part_view};

use crate::gathered::Gathered;
use crate::part::Part;
use comm_sets::{Exchange, Spot};
use hpf_base::OutOfMemory;
use letters::Body;
use owner_tables::Row;
use std::alloc::Global;

/// The values of the elements that the tuples of a part read, of each tuple the first, in order, on the node with this number, by its
/// pieces of all rows, the values that it received from each node, and what it exchanged. What is no element is left out. An
/// element out of bounds has the value 0.
pub fn section_values(
    alloc: Global,
    part: &Part<'_>,
    id: u32,
    pieces: &[Row],
    received: &[Body],
    exchange: &Exchange,
) -> Result<Vec<i64>, OutOfMemory>
    requires id { id < part.now.owners.now.nodes }
    requires exchange { IsExchange (part_view part.now) id exchange.now }
    ensures { IfOk result (λ vs. let b = after (part_view part.now) id pieces.now received.now in vs.items ≡ elements_below b (tuples b)) }
{
    let gathered = Gathered::new(part, id, pieces, received, exchange);
    let mut values = Vec::with_capacity(alloc, part.statement.count())?;
    let mut reads = Vec::new(alloc);
    for tuple in 0..part.statement.count() {
        reads.clear();
        part.statement.read(tuple, &mut reads)?;
        push_first(&gathered, reads.as_slice(), &mut values)?;
    }
    Ok(values)
}

/// Puts the value of the first of these elements after the others, where there is one.
fn push_first(
    gathered: &Gathered<'_>,
    reads: &[Option<Spot>],
    values: &mut Vec<i64>,
) -> Result<(), OutOfMemory>
    ensures { OnOk result (values.new.items ≡ values.old.items ++ value_or_none (value_of (after_of gathered.now)) (first_read (reads_of reads.now))) }
{
    match reads {
        [Some(spot), ..] => {
            values.push(gathered.get(*spot))?;
            Ok(())
        }
        _ => Ok(()),
    }
}

//! The message of a pair of nodes.

ghost use Rattle.std.specs.Prelude.{◌≡◌, ◌<◌, ◌≤◌, ◌^◌, IfOk, IfSome, map, option_map};
ghost use Rattle.hpf_base.specs.ElementOrder.{product};
ghost use Rattle.storage.specs.Spots.{spot_of};
ghost use Rattle.machine_steps.specs.Message.{message};
ghost use Rattle.comm_sets.specs.Exchanges.{AreExchanged};
ghost use Rattle.course_forms.specs.Views.{named_of, names_of};
ghost use Rattle.tuple_values.specs.NamedElements.{AreReferences};
ghost use Rattle.tuple_values.specs.Views.{statement as statement_of};
ghost use Rattle.statement_messages.specs.Assigning.{assigning};

use comm_sets::Exchange;
use hpf_base::OutOfMemory;
use owner_tables::Owners;
use part_steps::{Part, Who, exchange_of};
use std::alloc::Global;
use storage::Spot;
use tuple_values::{ParallelStatement, References};

/// The elements of the message from one node to another for the assignments of a parallel statement, whose tuples the owners of what is assigned compute:
/// those that the taker reads at a tuple that it computes and doesn't own, and whose least owner is the sender; row by row, each in array-element
/// order, and each once.
pub fn message(
    alloc: Global,
    owners: &Owners,
    statement: &ParallelStatement<'_>,
    from: u32,
    to: u32,
) -> Result<Vec<Spot>, OutOfMemory>
    requires from { from < owners.now.nodes }
    requires to { to < owners.now.nodes }
    ensures { IfOk result (λ spots. map spot_of spots.items ≡ message owners.now.nodes owners.now.layouts (assigning owners.now (statement_of statement.now)) from to) }
{
    match by_axes(alloc, owners, statement, from, to)? {
        Some(spots) => Ok(spots),
        None => by_tuples(alloc, owners, statement, from, to),
    }
}

/// The same by what the statement names; None where that isn't told, or nothing is assigned.
fn by_axes(
    alloc: Global,
    owners: &Owners,
    statement: &ParallelStatement<'_>,
    from: u32,
    to: u32,
) -> Result<Option<Vec<Spot>>, OutOfMemory>
    requires from { from < owners.now.nodes }
    requires to { to < owners.now.nodes }
    ensures { IfOk result (λ found. IfSome found (λ spots.
        map spot_of spots.items ≡ message owners.now.nodes owners.now.layouts (assigning owners.now (statement_of statement.now)) from to)) }
{
    if statement.count() > 1 << 32 {
        return Ok(None);
    }
    match statement.references()? {
        Some(references) => by_references(alloc, owners, statement, &references, from, to),
        None => Ok(None),
    }
}

/// The same by these references.
fn by_references(
    alloc: Global,
    owners: &Owners,
    statement: &ParallelStatement<'_>,
    references: &References,
    from: u32,
    to: u32,
) -> Result<Option<Vec<Spot>>, OutOfMemory>
    requires from { from < owners.now.nodes }
    requires to { to < owners.now.nodes }
    requires references { AreReferences (statement_of statement.now) references.now.extents.items (option_map named_of references.now.left) (names_of references.now.reads.items) }
    requires few { product references.now.extents.items ≤ 2 ^ 32 }
    ensures { IfOk result (λ found. IfSome found (λ spots.
        map spot_of spots.items ≡ message owners.now.nodes owners.now.layouts (assigning owners.now (statement_of statement.now)) from to)) }
{
    let _ = statement;
    let Some(left) = &references.left else {
        return Ok(None);
    };
    let extents = references.extents.as_slice();
    let reads = references.reads.as_slice();
    let spots = pair_messages::message(alloc, owners, extents, left, reads, from, to)?;
    Ok(Some(spots))
}

/// The same by a pass over tuples.
fn by_tuples(
    alloc: Global,
    owners: &Owners,
    statement: &ParallelStatement<'_>,
    from: u32,
    to: u32,
) -> Result<Vec<Spot>, OutOfMemory>
    requires from { from < owners.now.nodes }
    requires to { to < owners.now.nodes }
    ensures { IfOk result (λ spots. map spot_of spots.items ≡ message owners.now.nodes owners.now.layouts (assigning owners.now (statement_of statement.now)) from to) }
{
    let part = Part::new(statement, owners, Who::Left);
    let exchange = exchange_of(alloc, &part, from)?;
    message_among(alloc, owners, statement, from, to, &exchange)
}

/// The same among all messages that the sender exchanges.
fn message_among(
    alloc: Global,
    owners: &Owners,
    statement: &ParallelStatement<'_>,
    from: u32,
    to: u32,
    exchange: &Exchange,
) -> Result<Vec<Spot>, OutOfMemory>
    requires to { to < owners.now.nodes }
    requires exchange { AreExchanged owners.now.nodes owners.now.layouts (assigning owners.now (statement_of statement.now)) from exchange.now }
    ensures { IfOk result (λ spots. map spot_of spots.items ≡ message owners.now.nodes owners.now.layouts (assigning owners.now (statement_of statement.now)) from to) }
{
    let _ = statement;
    let _ = from;
    let message = exchange.outgoing.with(to);
    let spots = message.to_vec(alloc)?;
    Ok(spots)
}

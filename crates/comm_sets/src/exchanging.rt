//! One pass over tuples of a part.

ghost use Rattle.std.specs.Prelude.{◌≡◌, ◌<◌, IfOk};
ghost use Rattle.comm_sets.specs.Exchanges.{AreExchanged};

use crate::exchanged::Exchange;
use crate::messages::Messages;
use crate::reads::Reads;
use crate::receiving::receive_tuple;
use crate::sending::send_reads;
use crate::visiting::by_candidates;
use hpf_base::OutOfMemory;
use owner_tables::Owners;
use std::alloc::Global;
use tuple_numbers::Tuples;

/// What the node exchanges, from one pass over tuples: over those at which it exchanges something where the part knows them, and else over
/// all. A message holds the elements that the target needs, that it doesn't own, and whose least owner is the source, each once, row by row,
/// each in array-element order. A node needs every element that is read at a tuple that it computes. Where there is one node no read is
/// evaluated. Where there are several nodes, want of memory is the answer, too, if the node computes a tuple whose number is past 2^32 - 1.
pub fn exchange<P: Reads>(
    alloc: Global,
    owners: &Owners,
    part: &P,
    id: u32,
) -> Result<Exchange, OutOfMemory>
    requires owners { P.owners part.now ≡ owners.now }
    requires id { id < owners.now.nodes }
    ensures { IfOk result (AreExchanged owners.now.nodes owners.now.layouts (P.part part.now) id) }
{
    if owners.nodes() == 1 {
        return alone(alloc, owners, part, id);
    }
    match part.candidates(alloc, id)? {
        Some(candidates) => by_candidates(alloc, owners, part, id, candidates),
        None => among_nodes(alloc, owners, part, id),
    }
}

/// The same of the only node, which owns each element, so that nothing is sent. No read is evaluated.
fn alone<P: Reads>(
    alloc: Global,
    owners: &Owners,
    part: &P,
    id: u32,
) -> Result<Exchange, OutOfMemory>
    requires owners { P.owners part.now ≡ owners.now }
    requires one { owners.now.nodes ≡ 1 }
    requires id { id < owners.now.nodes }
    ensures { IfOk result (AreExchanged owners.now.nodes owners.now.layouts (P.part part.now) id) }
{
    owners.are_dealt();
    part.alone();
    let outgoing = Messages::none(alloc, owners.nodes())?;
    let incoming = Messages::none(alloc, owners.nodes())?;
    Ok(Exchange {
        outgoing,
        incoming,
        computed: Tuples::below(alloc, part.tuples()),
    })
}

/// The same of a node among several, from a pass over all tuples.
fn among_nodes<P: Reads>(
    alloc: Global,
    owners: &Owners,
    part: &P,
    id: u32,
) -> Result<Exchange, OutOfMemory>
    requires owners { P.owners part.now ≡ owners.now }
    requires id { id < owners.now.nodes }
    ensures { IfOk result (AreExchanged owners.now.nodes owners.now.layouts (P.part part.now) id) }
{
    let mut outgoing = Messages::none(alloc, owners.nodes())?;
    let mut incoming = Messages::none(alloc, owners.nodes())?;
    let mut computed = Vec::new(alloc);
    let mut reads = Vec::new(alloc);
    for tuple in 0..part.tuples() {
        reads.clear();
        part.read(tuple, &mut reads)?;
        let computing = part.computing(tuple, reads.as_slice())?;
        send_reads(&mut outgoing, owners, id, computing, reads.as_slice())?;
        receive_tuple(
            &mut incoming,
            &mut computed,
            owners,
            id,
            computing,
            tuple,
            reads.as_slice(),
        )?;
    }
    outgoing.arrange();
    incoming.arrange();
    Ok(Exchange {
        outgoing,
        incoming,
        computed: Tuples::listed(alloc, computed),
    })
}

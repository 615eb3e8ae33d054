//! A pass over the tuples at which a node exchanges something, where they are known.

ghost use Rattle.std.specs.Prelude.{◌≡◌, ◌<◌, All, IfOk, map, true};
ghost use Rattle.std.specs.List.{range_with_len};
ghost use Rattle.machine_steps.specs.Message.{message};
ghost use Rattle.comm_sets.specs.Exchanges.{AreExchanged};
ghost use Rattle.message_elements.specs.Candidates.{AreCandidates, IsVisited, sends_at, takes_at};

use crate::exchanged::Exchange;
use crate::messages::Messages;
use crate::reads::Reads;
use crate::receiving::receive_reads;
use crate::sending::send_reads;
use hpf_base::OutOfMemory;
use message_elements::Candidates;
use owner_tables::Owners;
use std::alloc::Global;

/// What a node exchanges, found at these tuples alone.
pub(crate) fn by_candidates<P: Reads>(
    alloc: Global,
    owners: &Owners,
    part: &P,
    id: u32,
    candidates: Candidates,
) -> Result<Exchange, OutOfMemory>
    requires owners { P.owners part.now ≡ owners.now }
    requires id { id < owners.now.nodes }
    requires candidates { AreCandidates owners.now.nodes owners.now.layouts (P.part part.now) id candidates }
    ensures { IfOk result (AreExchanged owners.now.nodes owners.now.layouts (P.part part.now) id) }
{
    let outgoing = sent_at(alloc, owners, part, id, candidates.sending.as_slice())?;
    let incoming = taken_at(alloc, owners, part, id, candidates.taking.as_slice())?;
    Ok(Exchange {
        outgoing,
        incoming,
        computed: candidates.computed,
    })
}

/// The messages from the node to each node, found at tuples that have all at which it sends something.
fn sent_at<P: Reads>(
    alloc: Global,
    owners: &Owners,
    part: &P,
    id: u32,
    tuples: &[u32],
) -> Result<Messages, OutOfMemory>
    requires owners { P.owners part.now ≡ owners.now }
    requires tuples { IsVisited owners.now.nodes (P.part part.now).tuples (sends_at owners.now.nodes owners.now.layouts (P.part part.now) id) tuples.now }
    ensures { IfOk result (λ messages. messages ≡ map (λ to. message owners.now.nodes owners.now.layouts (P.part part.now) id to) (range_with_len 0 owners.now.nodes)) }
{
    let mut messages = Messages::none(alloc, owners.nodes())?;
    let mut reads = Vec::new(alloc);
    for tuple in tuples {
        reads.clear();
        part.read(*tuple as usize, &mut reads)?;
        let computing = part.computing(*tuple as usize, reads.as_slice())?;
        send_reads(&mut messages, owners, id, computing, reads.as_slice())?;
    }
    messages.arrange();
    Ok(messages)
}

/// The messages to the node from each node, found at tuples that it computes, which have all at which it takes something.
fn taken_at<P: Reads>(
    alloc: Global,
    owners: &Owners,
    part: &P,
    id: u32,
    tuples: &[u32],
) -> Result<Messages, OutOfMemory>
    requires id { id < owners.now.nodes }
    requires own { All (λ t. (P.part part.now).computes id t ≡ true) tuples.now }
    requires tuples { IsVisited owners.now.nodes (P.part part.now).tuples (takes_at owners.now.nodes owners.now.layouts (P.part part.now) id) tuples.now }
    ensures { IfOk result (λ messages. messages ≡ map (λ from. message owners.now.nodes owners.now.layouts (P.part part.now) from id) (range_with_len 0 owners.now.nodes)) }
{
    let mut messages = Messages::none(alloc, owners.nodes())?;
    let mut reads = Vec::new(alloc);
    for tuple in tuples {
        reads.clear();
        part.read(*tuple as usize, &mut reads)?;
        receive_reads(&mut messages, owners, id, reads.as_slice())?;
    }
    messages.arrange();
    Ok(messages)
}

//! The letters of a node in a round of a redistribution.

ghost use Rattle.std.specs.Prelude.{◌≡◌, ◌<◌, ◌++◌, ◌∷◌, [], All, IfOk, OnOk, filter, map, slice_index_or, true};
ghost use Rattle.std.specs.List.{list_any};
ghost use Rattle.machine_steps.specs.Layout.{owns_spot};
ghost use Rattle.machine_steps.specs.Node.{local_read, parcel};
ghost use Rattle.storage.specs.Spots.{spot_of};
ghost use Rattle.machine_steps.specs.Rounds.{is_pair};
ghost use Rattle.remap_steps.specs.Redistributions.{all_rounds, message_between, round_inbox, round_outbox, sends_in};

use crate::redistribution::Redistribution;
use comm_sets::{Pair, Spot};
use hpf_base::OutOfMemory;
use letters::{Body, Parcel};
use owner_tables::{Row, local_value};
use std::alloc::Global;
use std::collections::VecDeque;

impl Redistribution {
    /// What the node sends in a round, counted from 0, by its pieces of all rows: to one node at most, the values of the elements that this
    /// one owns after and not before, and whose least owner before is the node, row by row, each in array-element order.
    pub fn outbox(
        &self,
        alloc: Global,
        round: usize,
        pieces: &[Row],
    ) -> Result<VecDeque<Parcel>, OutOfMemory>
        ensures parcels { IfOk result (λ o. o.items ≡ round_outbox self.now round pieces.now) }
        ensures targets { IfOk result (λ o. All (λ parcel. parcel.to < self.now.nodes) o.items) }
    {
        let mut outbox = VecDeque::new(alloc);
        for target in 0..self.before.nodes() {
            self.push_parcel(alloc, round, pieces, target, &mut outbox)?;
        }
        Ok(outbox)
    }

    /// Puts what the node sends to the target after the others, if it sends to it.
    fn push_parcel(
        &self,
        alloc: Global,
        round: usize,
        pieces: &[Row],
        target: u32,
        outbox: &mut VecDeque<Parcel>,
    ) -> Result<(), OutOfMemory>
        requires { target < self.now.nodes }
        ensures { OnOk result (outbox.new.items ≡ outbox.old.items
            ++ map (parcel (λ to. map (local_read self.now.old self.now.id pieces.now) (message_between self.now self.now.id to)))
            (filter (sends_in self.now round self.now.id) (target ∷ []))) }
    {
        if self.is_in_round(round, self.id, target) {
            self.before.are_dealt();
            let body = self.body(alloc, pieces, self.outgoing.with(target))?;
            outbox.push_back(Parcel { to: target, body })?;
        }
        Ok(())
    }

    /// The values of elements that the node owns before, in order.
    fn body(&self, alloc: Global, pieces: &[Row], spots: &[Spot]) -> Result<Body, OutOfMemory>
        requires { All (λ spot. owns_spot self.now.old self.now.id (spot_of spot) ≡ true) spots.now }
        ensures { IfOk result (λ body. body ≡ map (local_read self.now.old self.now.id pieces.now) (map spot_of spots.now)) }
    {
        let mut values = Vec::with_capacity(alloc, spots.len())?;
        for spot in spots {
            self.push_value(pieces, *spot, &mut values)?;
        }
        Ok(Body::from(values))
    }

    /// Puts the value of an element that the node owns before after the others.
    fn push_value(
        &self,
        pieces: &[Row],
        spot: Spot,
        values: &mut Vec<i64>,
    ) -> Result<(), OutOfMemory>
        requires { owns_spot self.now.old self.now.id (spot_of spot) ≡ true }
        ensures { OnOk result (values.new.items ≡ values.old.items ++ local_read self.now.old self.now.id pieces.now (spot_of spot) ∷ []) }
    {
        values.push(local_value(&self.before, self.id, pieces, spot))?;
        Ok(())
    }

    /// The nodes from which the node takes in a round, counted from 0: one at most.
    pub fn inbox(&self, alloc: Global, round: usize) -> Result<VecDeque<u32>, OutOfMemory>
        ensures sources { IfOk result (λ i. i.items ≡ round_inbox self.now round) }
        ensures below { IfOk result (λ i. All (λ source. source < self.now.nodes) i.items) }
    {
        let mut inbox = VecDeque::new(alloc);
        for source in 0..self.before.nodes() {
            self.push_source(round, source, &mut inbox)?;
        }
        Ok(inbox)
    }

    /// Puts the source after the others, if it sends to the node.
    fn push_source(
        &self,
        round: usize,
        source: u32,
        inbox: &mut VecDeque<u32>,
    ) -> Result<(), OutOfMemory>
        ensures { OnOk result (inbox.new.items ≡ inbox.old.items ++ filter (λ from. sends_in self.now round from self.now.id) (source ∷ [])) }
    {
        if self.is_in_round(round, source, self.id) {
            inbox.push_back(source)?;
        }
        Ok(())
    }

    /// Whether a node sends to another in the round.
    fn is_in_round(&self, round: usize, from: u32, to: u32) -> bool
        ensures { result ≡ sends_in self.now round from to }
    {
        if round < self.rounds.len() {
            is_among(self.rounds.pairs(round), from, to)
        } else {
            false
        }
    }
}

/// Whether the pair of the two is one of these.
fn is_among(pairs: &[Pair], from: u32, to: u32) -> bool
    ensures { result ≡ list_any (is_pair from to) pairs.now }
{
    pairs
        .iter()
        .any(|pair| pair.from.0 == from && pair.to.0 == to)
}

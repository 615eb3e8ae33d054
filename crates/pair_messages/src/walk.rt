//! What one node sends another, tuple by tuple.

ghost use Rattle.std.specs.Prelude.{◌≡◌, ◌<◌, ◌≤◌, ◌^◌, ◌&&◌, IfOk, Some, map};
ghost use Rattle.hpf_base.specs.ElementOrder.{product};
ghost use Rattle.storage.specs.Storage.{is_same_spot};
ghost use Rattle.storage.specs.Spots.{spot_of};
ghost use Rattle.machine_steps.specs.Layout.{in_bounds};
ghost use Rattle.machine_steps.specs.Message.{computes_left};
ghost use Rattle.message_elements.specs.Elements.{is_sent};
ghost use Rattle.course_forms.specs.Views.{named_of, names_of};
ghost use Rattle.pair_messages.specs.Counts.{saturated};
ghost use Rattle.pair_messages.specs.Sent.{AreAdded, AreSent, computes_named, is_named_by, is_named_of};

use crate::elements::spot_at;
use crate::pair::Pair;
use crate::sharing::sends_element;
use course_forms::Reference;
use hpf_base::OutOfMemory;
use message_elements::note;
use std::alloc::Global;
use storage::Spot;

impl<'a> Pair<'a> {
    /// What is sent of what these references name, in any order, whatever the rows are like.
    pub(crate) fn walked(
        &self,
        alloc: Global,
        reads: &[Reference],
    ) -> Result<Vec<Spot>, OutOfMemory>
        ensures { IfOk result (λ spots. AreSent self.now.owners.now.nodes self.now.owners.now.layouts self.now.extents.now (names_of reads.now)
            (computes_named self.now.takers.now.layouts self.now.extents.now (named_of self.now.left.now) self.now.to) self.now.from self.now.to (map spot_of spots.items)) }
    {
        let mut spots = Vec::new(alloc);
        for tuple in 0..self.tuples() {
            self.add_tuple(&mut spots, reads, tuple as u32)?;
        }
        Ok(spots)
    }

    /// The number of tuples.
    fn tuples(&self) -> u64
        ensures value { result ≡ product self.now.extents.now }
        ensures few { result ≤ 2 ^ 32 }
    {
        count_of(self.extents)
    }

    /// Adds what is sent for one tuple.
    fn add_tuple(
        &self,
        spots: &mut Vec<Spot>,
        reads: &[Reference],
        tuple: u32,
    ) -> Result<(), OutOfMemory>
        requires { tuple < product self.now.extents.now }
        ensures { IfOk result (λ _. AreAdded (λ s. (computes_named self.now.takers.now.layouts self.now.extents.now (named_of self.now.left.now) self.now.to tuple
            && is_named_of self.now.extents.now (names_of reads.now) tuple s) && is_sent self.now.owners.now.nodes self.now.owners.now.layouts self.now.from self.now.to s)
            (map spot_of spots.old.items) (map spot_of spots.new.items)) }
    {
        if !self.computes(tuple) {
            return Ok(());
        }
        for read in reads {
            self.add_read(spots, read, tuple)?;
        }
        Ok(())
    }

    /// Whether the taker computes a tuple.
    fn computes(&self, tuple: u32) -> bool
        requires { tuple < product self.now.extents.now }
        ensures { result ≡ computes_named self.now.takers.now.layouts self.now.extents.now (named_of self.now.left.now) self.now.to tuple }
    {
        match spot_at(self.extents, self.left, tuple) {
            Some(spot) => self.assigns(spot),
            None => self.to == 0,
        }
    }

    /// Whether it computes what is assigned to an element.
    fn assigns(&self, spot: Spot) -> bool
        ensures { result ≡ computes_left self.now.takers.now.layouts self.now.to (in_bounds self.now.takers.now.layouts (Some (spot_of spot))) }
    {
        if self.takers.is_in_bounds(spot) {
            self.takers.owns(self.to, spot)
        } else {
            self.to == 0
        }
    }

    /// Adds what a reference names at a tuple, if it is sent.
    fn add_read(
        &self,
        spots: &mut Vec<Spot>,
        read: &Reference,
        tuple: u32,
    ) -> Result<(), OutOfMemory>
        requires { tuple < product self.now.extents.now }
        ensures { IfOk result (λ _. AreAdded (λ s. is_named_by self.now.extents.now (named_of read.now) tuple s
            && is_sent self.now.owners.now.nodes self.now.owners.now.layouts self.now.from self.now.to s) (map spot_of spots.old.items) (map spot_of spots.new.items)) }
    {
        match spot_at(self.extents, read, tuple) {
            Some(spot) => self.add_element(spots, spot),
            None => Ok(()),
        }
    }

    /// Adds an element, if it is sent.
    fn add_element(&self, spots: &mut Vec<Spot>, spot: Spot) -> Result<(), OutOfMemory>
        ensures { IfOk result (λ _. AreAdded (λ s. is_same_spot (spot_of spot) s
            && is_sent self.now.owners.now.nodes self.now.owners.now.layouts self.now.from self.now.to s) (map spot_of spots.old.items) (map spot_of spots.new.items)) }
    {
        if !sends_element(self.owners, self.from, self.to, spot) {
            return Ok(());
        }
        note(spots, spot)?;
        Ok(())
    }
}

/// The product of extents; the greatest number of 64 bits where it is more.
#[tactic(auto, using(crate::proofs::Counts::count_next, crate::proofs::Counts::count_all))]
pub(crate) fn count_of(extents: &[u64]) -> u64
    ensures { result ≡ saturated (product extents.now) }
{
    let mut count: u64 = 1;
    for extent in extents {
        count = count.saturating_mul(*extent);
    }
    count
}

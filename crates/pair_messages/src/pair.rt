//! A pair of nodes at the tuples of a space.

ghost use Rattle.std.specs.Prelude.{◌≡◌, ℕ, ◌<◌, ◌≤◌, ◌==◌, ◌&&◌, ◌^◌, not, Some, All, IfOk, length, map, slice_get, true};
ghost use Rattle.std.specs.List.{list_any};
ghost use Rattle.hpf_base.specs.ElementOrder.{product};
ghost use Rattle.storage.specs.Storage.{Spot as SpotSpec};
ghost use Rattle.storage.specs.Spots.{spot_of};
ghost use Rattle.machine_steps.specs.Layout.{AreOwned, Layout, first, owned_by, size_of};
ghost use Rattle.message_elements.specs.Elements.{is_among};
ghost use Rattle.courses.specs.References.{IsAlongAxes};
ghost use Rattle.course_forms.specs.Views.{named_of, names_of};
ghost use Rattle.visited_tuples.specs.Owned.{Lies, owns_named};
ghost use Rattle.pair_messages.specs.Sent.{AreAdded, is_sent_of};

use crate::elements::add_named;
use crate::sharing::{leads, shares};
use axis_walks::{passing_below, tuples_of};
use course_forms::Reference;
use hpf_base::OutOfMemory;
use owned_places::is_laid_out;
use owner_tables::Owners;
use std::alloc::Global;
use storage::Spot;

/// Two nodes, of which the one may send something to the other: how the rows lie, the extents of a space of tuples, and what is assigned there. The
/// taker computes the tuples at which it owns what is assigned; for that the rows may lie otherwise.
#[derive(Drop)]
pub(crate) struct Pair<'a> {
    pub(crate) owners: &'a Owners,
    pub(crate) takers: &'a Owners,
    pub(crate) extents: &'a [u64],
    pub(crate) left: &'a Reference,
    pub(crate) from: u32,
    pub(crate) to: u32,
    ghost source: { from < owners.now.nodes },
    ghost target: { to < owners.now.nodes },
    ghost taker: { to < takers.now.nodes },
    ghost tuples: { product extents.now ≤ 2 ^ 32 },
}

/// Whether the row lies as the reference takes it.
pub(crate) fn lies(owners: &Owners, extents: &[u64], reference: &Reference) -> bool
    requires { IsAlongAxes (length extents.now) (named_of reference.now) }
    ensures { result ≡ true → Lies extents.now owners.now.layouts (named_of reference.now) }
{
    match owners.table(reference.row) {
        Some(table) => is_laid_out(table, reference),
        None => false,
    }
}

/// Whether the rows of all lie so.
pub(crate) fn all_lie(owners: &Owners, extents: &[u64], references: &[Reference]) -> bool
    requires { All (IsAlongAxes (length extents.now)) (names_of references.now) }
    ensures { result ≡ true → All (Lies extents.now owners.now.layouts) (names_of references.now) }
{
    for reference in references {
        if !lies(owners, extents, reference) {
            return false;
        }
    }
    true
}

impl<'a> Pair<'a> {
    /// What is sent of what these references name, in any order.
    pub(crate) fn sent(&self, alloc: Global, reads: &[Reference]) -> Result<Vec<Spot>, OutOfMemory>
        requires few { All (λ n. n ≤ 2 ^ 32) self.now.extents.now }
        requires left { Lies self.now.extents.now self.now.takers.now.layouts (named_of self.now.left.now) }
        requires lie { All (Lies self.now.extents.now self.now.owners.now.layouts) (names_of reads.now) }
        requires dealt { AreOwned self.now.owners.now.nodes self.now.owners.now.layouts }
        ensures { IfOk result (λ spots. (s : SpotSpec) → is_among (map spot_of spots.items) s
            ≡ list_any (λ r. is_sent_of self.now.owners.now.nodes self.now.owners.now.layouts self.now.extents.now
            (owns_named self.now.takers.now.layouts self.now.to (named_of self.now.left.now)) self.now.from self.now.to r s) (names_of reads.now)) }
    {
        let mut spots = Vec::new(alloc);
        for read in reads {
            self.add_sent(alloc, &mut spots, read)?;
        }
        Ok(spots)
    }

    /// Adds what is sent of what a reference names.
    pub(crate) fn add_sent(
        &self,
        alloc: Global,
        spots: &mut Vec<Spot>,
        read: &Reference,
    ) -> Result<(), OutOfMemory>
        requires few { All (λ n. n ≤ 2 ^ 32) self.now.extents.now }
        requires left { Lies self.now.extents.now self.now.takers.now.layouts (named_of self.now.left.now) }
        requires lies { Lies self.now.extents.now self.now.owners.now.layouts (named_of read.now) }
        requires dealt { AreOwned self.now.owners.now.nodes self.now.owners.now.layouts }
        ensures { IfOk result (λ _. AreAdded (is_sent_of self.now.owners.now.nodes self.now.owners.now.layouts self.now.extents.now
            (owns_named self.now.takers.now.layouts self.now.to (named_of self.now.left.now)) self.now.from self.now.to (named_of read.now))
            (map spot_of spots.old.items) (map spot_of spots.new.items)) }
    {
        if !self.sends(read.row) {
            return Ok(());
        }
        let Some(places) = self.places(alloc, read)? else {
            return Ok(());
        };
        passing_below();
        let tuples = tuples_of(alloc, self.extents, &places)?;
        add_named(spots, self.extents, read, &tuples)?;
        Ok(())
    }

    /// Whether the one node sends the other what it owns of a row: it has the least number of those that own it, and the other isn't one of them. False
    /// where there is no such row.
    fn sends(&self, row: usize) -> bool
        ensures { (layout : Layout) → slice_get self.now.owners.now.layouts row ≡ Some layout
            → (at : ℕ) → at < size_of layout → owned_by layout self.now.from at ≡ true
            → result ≡ ((first (λ other. owned_by layout other at) 0 self.now.owners.now.nodes == self.now.from) && not (owned_by layout self.now.to at)) }
    {
        match self.owners.table(row) {
            Some(table) => leads(table, self.from) && !shares(table, self.from, self.to),
            None => false,
        }
    }
}

//! The tuples at which a node may send something.

ghost use Rattle.std.specs.Prelude.{◌≡◌, ℕ, ◌<◌, ◌==◌, Bool, All, IfOk, IsTrue, Some, map, option_map, slice_get, true};
ghost use Rattle.std.specs.List.{list_any, range_with_len};
ghost use Rattle.machine_steps.specs.Layout.{Layout, owned_by, size_of};
ghost use Rattle.course_forms.specs.Views.{named_of, names_of};
ghost use Rattle.visited_tuples.specs.Own.{IsOwn};
ghost use Rattle.visited_tuples.specs.Owned.{Lies};
ghost use Rattle.visited_tuples.specs.Visited.{IsSending, IsSendingOf};

use crate::own::Own;
use crate::sharing::own_as_well;
use crate::visitor::Visitor;
use axis_walks::{passing_below, tuples_beyond};
use course_forms::Reference;
use hpf_base::OutOfMemory;
use owner_tables::OwnerTable;
use std::alloc::Global;

impl<'a> Visitor<'a> {
    /// The tuples at which the node may send something that is read.
    pub(crate) fn sending(
        &self,
        alloc: Global,
        reads: &[Reference],
        own: &Own,
    ) -> Result<Vec<u32>, OutOfMemory>
        requires lie { All (Lies self.now.extents.now self.now.owners.now.layouts) (names_of reads.now) }
        requires own { (who : (node tuple : ℕ) → Bool) × IsOwn who self.now.owners.now.nodes self.now.extents.now self.now.id
            (option_map (λ lists. map (λ v. v.items) lists.items) own.now.lists) own.now.beside.items }
        ensures { (computes : (node tuple : ℕ) → Bool)
            → IsOwn computes self.now.owners.now.nodes self.now.extents.now self.now.id (option_map (λ lists. map (λ v. v.items) lists.items) own.now.lists) own.now.beside.items
            → IfOk result (λ tuples. IsSending computes self.now.owners.now.nodes self.now.owners.now.layouts self.now.extents.now (names_of reads.now) self.now.id tuples.items) }
    {
        let everyone = all_nodes(alloc, self.owners.nodes())?;
        let mut tuples = Vec::new(alloc);
        for read in reads {
            let of_read = self.sending_of(alloc, read, own, &everyone)?;
            tuples.extend_from_slice(&of_read)?;
        }
        each_once(&mut tuples);
        Ok(tuples)
    }

    /// Those at which it may send what the reference names: it owns that and is its least owner, and some of those that compute lack it.
    fn sending_of(
        &self,
        alloc: Global,
        reference: &Reference,
        own: &Own,
        everyone: &[u32],
    ) -> Result<Vec<u32>, OutOfMemory>
        requires lies { Lies self.now.extents.now self.now.owners.now.layouts (named_of reference.now) }
        requires own { (who : (node tuple : ℕ) → Bool) × IsOwn who self.now.owners.now.nodes self.now.extents.now self.now.id
            (option_map (λ lists. map (λ v. v.items) lists.items) own.now.lists) own.now.beside.items }
        requires everyone { everyone.now ≡ range_with_len 0 self.now.owners.now.nodes }
        ensures { (computes : (node tuple : ℕ) → Bool)
            → IsOwn computes self.now.owners.now.nodes self.now.extents.now self.now.id (option_map (λ lists. map (λ v. v.items) lists.items) own.now.lists) own.now.beside.items
            → IfOk result (λ tuples. IsSendingOf computes self.now.owners.now.nodes self.now.owners.now.layouts self.now.extents.now (named_of reference.now) self.now.id tuples.items) }
    {
        self.owners.are_dealt();
        if !self.leads(reference.row) {
            return Ok(Vec::new(alloc));
        }
        if self.all_own(reference.row, everyone) {
            return Ok(Vec::new(alloc));
        }
        let owned = self.places(alloc, reference)?;
        if let Some(places) = &owned
            && let Some(lists) = &own.lists
            && self.all_own(reference.row, &own.beside)
        {
            passing_below();
            let beyond = tuples_beyond(alloc, self.extents, places, lists)?;
            return Ok(beyond);
        }
        let all = self.tuples(alloc, &owned)?;
        Ok(all)
    }

    /// Whether each of these nodes owns what the node owns of a row; false where there is no such row.
    fn all_own(&self, row: usize, others: &[u32]) -> bool
        ensures { IsTrue result → (layout : Layout) → slice_get self.now.owners.now.layouts row ≡ Some layout
            → (at : ℕ) → at < size_of layout → owned_by layout self.now.id at ≡ true
            → (other : ℕ) → other < self.now.owners.now.nodes → list_any (λ n. n == other) others.now ≡ true → owned_by layout other at ≡ true }
    {
        match self.owners.table(row) {
            Some(table) => own_as_well(table, self.id, others),
            None => false,
        }
    }
}

/// Puts numbers in order, and drops repetitions.
fn each_once(numbers: &mut Vec<u32>)
    ensures { (n : ℕ) → list_any (λ v. v == n) numbers.new.items ≡ list_any (λ v. v == n) numbers.old.items }
{
    numbers.sort_unstable();
    numbers.dedup();
}

/// So many nodes.
fn all_nodes(alloc: Global, nodes: u32) -> Result<Vec<u32>, OutOfMemory>
    ensures { IfOk result (λ all. all.items ≡ range_with_len 0 nodes) }
{
    let mut all = Vec::new(alloc);
    for node in 0..nodes {
        all.push(node)?;
    }
    Ok(all)
}

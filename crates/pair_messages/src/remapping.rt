//! What one node sends another at a redistribution (HPF 2.0, 8.3).

ghost use Rattle.std.specs.Prelude.{◌≡◌, ◌<◌, ◌≤◌, ◌^◌, ◌&&◌, IfOk, map, nat_eq};
ghost use Rattle.hpf_base.specs.ElementOrder.{product};
ghost use Rattle.expression_rules.specs.Dims.{extent};
ghost use Rattle.storage.specs.Storage.{Spot as SpotSpec, is_same_spot};
ghost use Rattle.storage.specs.Spots.{spot_of};
ghost use Rattle.machine_steps.specs.Layout.{AreOwned, sizes};
ghost use Rattle.machine_steps.specs.Message.{remap_message};
ghost use Rattle.message_elements.specs.Elements.{is_among};
ghost use Rattle.course_forms.specs.Views.{named_of};
ghost use Rattle.pair_messages.specs.Moved.{is_moved, named_row};
ghost use Rattle.pair_messages.specs.Sent.{AreAdded};

use crate::messages::are_few;
use crate::pair::{Pair, lies};
use crate::rows::{extents_of, row_reference};
use crate::sharing::sends_element;
use course_forms::Reference;
use hpf_base::OutOfMemory;
use message_elements::{arrange_list, note};
use owner_tables::Owners;
use std::alloc::Global;
use storage::Spot;

/// The elements of the message from one node to another at a redistribution: those that the taker owns after it and not before, and whose least owner before
/// is the sender, row by row, each in array-element order, and each once. The rows are of the same sizes before and after. In a row that has the same dimensions
/// before and after they are found axis by axis, and else among the elements that the sender owns before.
pub fn remap_message(
    alloc: Global,
    before: &Owners,
    after: &Owners,
    from: u32,
    to: u32,
) -> Result<Vec<Spot>, OutOfMemory>
    requires nodes { before.now.nodes ≡ after.now.nodes }
    requires sizes { sizes before.now.layouts ≡ sizes after.now.layouts }
    requires from { from < before.now.nodes }
    requires to { to < before.now.nodes }
    ensures { IfOk result (λ spots. map spot_of spots.items ≡ remap_message before.now.nodes before.now.layouts after.now.layouts from to) }
{
    let ends = Ends {
        before,
        after,
        from,
        to,
    };
    let mut spots = ends.moved(alloc)?;
    arrange_list(&mut spots);
    Ok(spots)
}

/// A redistribution and two nodes, of which the one may send something to the other.
#[derive(Drop)]
pub(crate) struct Ends<'a> {
    before: &'a Owners,
    after: &'a Owners,
    from: u32,
    to: u32,
    ghost sizes: { sizes before.now.layouts ≡ sizes after.now.layouts },
    ghost source: { from < before.now.nodes },
    ghost target: { to < before.now.nodes },
    ghost later: { to < after.now.nodes },
}

impl<'a> Ends<'a> {
    /// What is sent, in any order.
    fn moved(&self, alloc: Global) -> Result<Vec<Spot>, OutOfMemory>
        ensures { IfOk result (λ spots. (s : SpotSpec) → is_among (map spot_of spots.items) s
            ≡ is_moved self.now.before.now.nodes self.now.before.now.layouts self.now.after.now.layouts self.now.from self.now.to s) }
    {
        let mut spots = Vec::new(alloc);
        self.before.are_dealt();
        for row in 0..self.before.rows() {
            self.add_row(alloc, &mut spots, row)?;
        }
        Ok(spots)
    }

    /// Adds what is sent of a row.
    fn add_row(&self, alloc: Global, spots: &mut Vec<Spot>, row: usize) -> Result<(), OutOfMemory>
        requires { AreOwned self.now.before.now.nodes self.now.before.now.layouts }
        ensures { IfOk result (λ _. AreAdded (λ s. nat_eq row s.row
            && is_moved self.now.before.now.nodes self.now.before.now.layouts self.now.after.now.layouts self.now.from self.now.to s)
            (map spot_of spots.old.items) (map spot_of spots.new.items)) }
    {
        let Some(table) = self.before.table(row) else {
            return self.walk_row(spots, row);
        };
        let Some(own) = row_reference(alloc, table.shape(), row)? else {
            return self.walk_row(spots, row);
        };
        self.add_own(alloc, spots, row, &own)
    }

    /// The same, by a reference to the elements of the row.
    fn add_own(
        &self,
        alloc: Global,
        spots: &mut Vec<Spot>,
        row: usize,
        own: &Reference,
    ) -> Result<(), OutOfMemory>
        requires dealt { AreOwned self.now.before.now.nodes self.now.before.now.layouts }
        requires own { named_of own.now ≡ named_row own.now.dims row }
        ensures { IfOk result (λ _. AreAdded (λ s. nat_eq row s.row
            && is_moved self.now.before.now.nodes self.now.before.now.layouts self.now.after.now.layouts self.now.from self.now.to s)
            (map spot_of spots.old.items) (map spot_of spots.new.items)) }
    {
        let extents = extents_of(alloc, &own.dims)?;
        self.add_places(alloc, spots, &extents, row, own)
    }

    /// The same, over a space of the extents of the row.
    fn add_places(
        &self,
        alloc: Global,
        spots: &mut Vec<Spot>,
        extents: &[u64],
        row: usize,
        own: &Reference,
    ) -> Result<(), OutOfMemory>
        requires dealt { AreOwned self.now.before.now.nodes self.now.before.now.layouts }
        requires own { named_of own.now ≡ named_row own.now.dims row }
        requires extents { extents.now ≡ map extent own.now.dims }
        requires tuples { product extents.now ≤ 2 ^ 32 }
        ensures { IfOk result (λ _. AreAdded (λ s. nat_eq row s.row
            && is_moved self.now.before.now.nodes self.now.before.now.layouts self.now.after.now.layouts self.now.from self.now.to s)
            (map spot_of spots.old.items) (map spot_of spots.new.items)) }
    {
        if !are_few(extents) {
            return self.walk_row(spots, row);
        }
        if !lies(self.before, extents, own) || !lies(self.after, extents, own) {
            return self.walk_row(spots, row);
        }
        let pair = Pair {
            owners: self.before,
            takers: self.after,
            extents,
            left: own,
            from: self.from,
            to: self.to,
        };
        pair.add_sent(alloc, spots, own)?;
        Ok(())
    }

    /// The same, by the elements of the row that the sender owns before.
    fn walk_row(&self, spots: &mut Vec<Spot>, row: usize) -> Result<(), OutOfMemory>
        requires { AreOwned self.now.before.now.nodes self.now.before.now.layouts }
        ensures { IfOk result (λ _. AreAdded (λ s. nat_eq row s.row
            && is_moved self.now.before.now.nodes self.now.before.now.layouts self.now.after.now.layouts self.now.from self.now.to s)
            (map spot_of spots.old.items) (map spot_of spots.new.items)) }
    {
        let positions = self.before.positions(self.from, row)?;
        for at in &positions {
            let at = *at as usize;
            self.add_element(spots, Spot { row, at })?;
        }
        Ok(())
    }

    /// Adds an element, if it is sent.
    fn add_element(&self, spots: &mut Vec<Spot>, spot: Spot) -> Result<(), OutOfMemory>
        ensures { IfOk result (λ _. AreAdded (λ s. is_same_spot (spot_of spot) s
            && is_moved self.now.before.now.nodes self.now.before.now.layouts self.now.after.now.layouts self.now.from self.now.to s)
            (map spot_of spots.old.items) (map spot_of spots.new.items)) }
    {
        if !self.moves(spot) {
            return Ok(());
        }
        note(spots, spot)?;
        Ok(())
    }

    /// Whether an element is sent.
    fn moves(&self, spot: Spot) -> bool
        ensures { result ≡ is_moved self.now.before.now.nodes self.now.before.now.layouts self.now.after.now.layouts self.now.from self.now.to (spot_of spot) }
    {
        if !sends_element(self.before, self.from, self.to, spot) {
            return false;
        }
        self.after.owns(self.to, spot)
    }
}

//! The pieces of a node after a redistribution.

ghost use Rattle.std.specs.Prelude.{◌≡◌, ◌<◌, ◌++◌, ◌∷◌, [], IfOk, IfSome, OnOk, filter, length, map, slice_index_or};
ghost use Rattle.std.specs.List.{range_with_len};
ghost use Rattle.machine_steps.specs.Layout.{owned_in, sizes};
ghost use Rattle.storage.specs.Spots.{spot_of};
ghost use Rattle.remap_steps.specs.Redistributions.{message_between, messages_to, moved_pieces, moved_row, value_after};

use crate::redistribution::Redistribution;
use comm_sets::{Messages, Spot, is_unchanged, remap_incoming, value_in};
use hpf_base::OutOfMemory;
use letters::Body;
use owner_tables::{Row, local_value};
use std::alloc::Global;

impl Redistribution {
    /// The node's pieces of all rows after the last round, by its pieces before and the values that it received from each node in all
    /// rounds: of each row the elements that it owns after, in array-element order. A row that lies as before is copied.
    pub fn moved_pieces(
        &self,
        alloc: Global,
        pieces: &[Row],
        received: &[Body],
    ) -> Result<Vec<Row>, OutOfMemory>
        ensures { IfOk result (λ rows. rows.items ≡ moved_pieces self.now pieces.now received.now) }
    {
        let incoming = remap_incoming(alloc, &self.before, &self.after, self.id)?;
        let mut rows = Vec::new(alloc);
        for row in 0..self.before.rows() {
            rows.push(self.moved_row(alloc, pieces, received, &incoming, row)?)?;
        }
        Ok(rows)
    }

    /// Its piece of one row.
    fn moved_row(
        &self,
        alloc: Global,
        pieces: &[Row],
        received: &[Body],
        incoming: &Messages,
        row: usize,
    ) -> Result<Row, OutOfMemory>
        requires incoming { incoming.now ≡ messages_to self.now }
        requires row { row < length self.now.old }
        ensures { IfOk result (λ piece. piece ≡ moved_row self.now pieces.now received.now row) }
    {
        match self.kept_row(pieces, received, row) {
            Some(piece) => copied(alloc, piece),
            None => self.made_row(alloc, pieces, received, incoming, row),
        }
    }

    /// Its piece of a row before, where that is also its piece after.
    fn kept_row<'a>(&self, pieces: &'a [Row], received: &[Body], row: usize) -> Option<&'a [i64]>
        ensures { IfSome result (λ piece. piece.now ≡ moved_row self.now pieces.now received.now row) }
    {
        let _ = received;
        let piece = values_of(pieces, row);
        if piece.len() == self.before.owned(self.id, row)
            && is_unchanged(&self.before, &self.after, row)
        {
            Some(piece)
        } else {
            None
        }
    }

    /// Its piece of a row, by the elements that it owns after.
    fn made_row(
        &self,
        alloc: Global,
        pieces: &[Row],
        received: &[Body],
        incoming: &Messages,
        row: usize,
    ) -> Result<Row, OutOfMemory>
        requires incoming { incoming.now ≡ messages_to self.now }
        requires row { row < length self.now.old }
        ensures { IfOk result (λ piece. piece ≡ moved_row self.now pieces.now received.now row) }
    {
        let positions = self.after.positions(self.id, row)?;
        let mut values = Vec::with_capacity(alloc, positions.len())?;
        for at in &positions {
            let at = *at as usize;
            values.push(self.value_after(pieces, received, incoming, Spot { row, at })?)?;
        }
        Ok(Row::of(values))
    }

    /// The value of an element: the node's own, or received.
    fn value_after(
        &self,
        pieces: &[Row],
        received: &[Body],
        incoming: &Messages,
        spot: Spot,
    ) -> Result<i64, OutOfMemory>
        requires incoming { incoming.now ≡ messages_to self.now }
        requires spot { spot.at < slice_index_or (sizes self.now.old) spot.row 0 }
        ensures { IfOk result (λ value. value ≡ value_after self.now pieces.now received.now (spot_of spot)) }
    {
        if self.before.owns(self.id, spot) {
            return Ok(local_value(&self.before, self.id, pieces, spot));
        }
        let source = self.before.least_owner(spot);
        Ok(value_in(incoming.with(source), values_from(received, source), spot))
    }
}

/// The values of a row; none where there is no such row.
fn values_of(pieces: &[Row], row: usize) -> &[i64]
    ensures { result.now ≡ slice_index_or pieces.now row [] }
{
    match pieces.get(row) {
        Some(piece) => piece.as_slice(),
        None => &[],
    }
}

/// A row with the same values.
fn copied(alloc: Global, piece: &[i64]) -> Result<Row, OutOfMemory>
    ensures { IfOk result (λ row. row ≡ piece.now) }
{
    let mut values = Vec::with_capacity(alloc, piece.len())?;
    values.extend_from_slice(piece)?;
    Ok(Row::of(values))
}

/// The values received from a node; none where there is no such node.
fn values_from(received: &[Body], node: u32) -> &[i64]
    ensures { result.now ≡ slice_index_or received.now node [] }
{
    match received.get(node as usize) {
        Some(body) => body.as_slice(),
        None => &[],
    }
}

//! A node's pieces of all rows.

ghost use Rattle.std.specs.Prelude.{◌≡◌, ◌<◌, length, pos, slice_index_or, true};
ghost use Rattle.storage.specs.Storage.{row_of, write};
ghost use Rattle.machine_steps.specs.Layout.{owns_spot, sizes};
ghost use Rattle.machine_steps.specs.Node.{local_read, local_write};
ghost use Rattle.storage.specs.Spots.{spot_of};

use crate::node::Node;
use owner_tables::{Row, Spot};

impl Node {
    /// The node's piece of a row, in array-element order; nothing where there is no such row.
    pub fn piece(&self, row: usize) -> &[i64]
        ensures { result.now ≡ row_of self.now.pieces row }
    {
        match self.pieces.get(row) {
            Some(piece) => piece.as_slice(),
            None => &[],
        }
    }

    /// The value of an element that the node owns.
    pub(crate) fn read_local(&self, spot: Spot) -> i64
        requires at { spot.at < slice_index_or (sizes self.now.layouts) spot.row 0 }
        requires owner { owns_spot self.now.layouts self.now.id (spot_of spot) ≡ true }
        ensures { result ≡ local_read self.now.layouts self.now.id self.now.pieces (spot_of spot) }
    {
        let address = self.owners.address(self.id, spot);
        value_at(self.piece(spot.row), address)
    }

    /// Stores a value in an element, if the node owns it. It takes no memory.
    pub(crate) fn write_local(&mut self, spot: Spot, value: &i64)
        ensures { self.new ≡ record self.old { pieces = local_write self.old.layouts self.old.id (spot_of spot) value.now self.old.pieces } }
    {
        if let Some(address) = self.owners.held(self.id, spot) {
            write(&mut self.pieces, spot.row, address, value);
        }
    }
}

/// The number at a place; 0 where there is none.
pub(crate) fn value_at(values: &[i64], at: usize) -> i64
    ensures { result ≡ slice_index_or values.now at (pos 0) }
{
    if at < values.len() { values[at] } else { 0 }
}

/// Puts a value at a place of a row, if there is such a place.
fn write(pieces: &mut Vec<Row>, row: usize, at: usize, value: &i64)
    ensures rows { pieces.new.items ≡ write pieces.old.items (record { row = row; at = at }) value.now }
    ensures count { length pieces.new.items ≡ length pieces.old.items }
{
    if row < pieces.len() {
        pieces[row].set(at, value);
    }
}

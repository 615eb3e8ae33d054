//! The elements of whole arrays and copies.

ghost use Rattle.std.specs.Prelude.{◌≡◌};
ghost use Rattle.storage.specs.Storage.{read, row_of, write};
ghost use Rattle.storage.specs.Spots.{spot_of};

use hpf_base::OutOfMemory;
use owner_tables::{Row, Spot};
use std::alloc::Global;
use tuple_values::Elements;

/// All arrays and copies, as where values of elements come from.
#[derive(Clone, Copy)]
pub(crate) struct WholeRows<'a> {
    pub(crate) rows: &'a [Row],
}

impl<'a> Elements for WholeRows<'a> {
    ghost use Rattle.storage.specs.Storage.{read};

    ghost get = { λ w. read w.rows.now };

    fn value(&self, spot: Spot) -> i64 {
        read(self.rows, spot)
    }

    fn line(
        &self,
        _alloc: Global,
        _first: Spot,
        _step: usize,
        _count: usize,
    ) -> Result<Option<Vec<i64>>, OutOfMemory> {
        Ok(None)
    }
}

/// The elements of an array or a copy; none where there is no such row.
pub(crate) fn row_of(rows: &[Row], row: usize) -> &[i64]
    ensures { result.now ≡ row_of rows.now row }
{
    if row < rows.len() {
        rows[row].as_slice()
    } else {
        &[]
    }
}

/// The value of an element; 0 where there is none.
pub(crate) fn read(rows: &[Row], spot: Spot) -> i64
    ensures { result ≡ read rows.now (spot_of spot) }
{
    if spot.row < rows.len() {
        rows[spot.row].get(spot.at)
    } else {
        0
    }
}

/// Stores a value in an element, if there is such an element.
pub(crate) fn write(rows: &mut Vec<Row>, spot: Spot, value: &i64)
    ensures { rows.new.items ≡ write rows.old.items (spot_of spot) value.now }
{
    if spot.row < rows.len() {
        rows[spot.row].set(spot.at, value);
    }
}

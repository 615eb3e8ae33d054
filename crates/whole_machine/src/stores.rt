//! What is stored once all values are taken.

ghost use Rattle.std.specs.Prelude.{◌≡◌, [], ℤ, List, OnOk};
ghost use Rattle.storage.specs.Storage.{write};
ghost use Rattle.storage.specs.Spots.{spot_of};
ghost use Rattle.whole_machine.specs.Stores.{stored};

use crate::rows::write;
use hpf_base::OutOfMemory;
use owner_tables::{Row, Spot};
use std::alloc::Global;

/// A value for an element.
#[derive(Clone, Copy)]
pub(crate) struct Store {
    pub(crate) spot: Spot,
    pub(crate) value: i64,
}

/// Values for elements, in order. Contracts see what is `stored`.
#[derive(Drop)]
pub(crate) struct Stores {
    pub(crate) list: Vec<Store>,
}

impl Stores {
    /// Nothing is stored.
    pub(crate) fn new(alloc: Global) -> Stores
        ensures { result.list.items ≡ [] }
    {
        Stores {
            list: Vec::new(alloc),
        }
    }

    /// Adds a value for an element.
    pub(crate) fn add(&mut self, spot: Spot, value: &i64) -> Result<(), OutOfMemory>
        ensures { OnOk result ((rows : List (List ℤ)) → stored self.new rows ≡ write (stored self.old rows) (spot_of spot) value.now) }
    {
        self.list.push(Store {
            spot,
            value: *value,
        })?;
        Ok(())
    }

    /// Stores the values. It takes no memory.
    pub(crate) fn apply(&self, rows: &mut Vec<Row>)
        ensures { rows.new.items ≡ stored self.now rows.old.items }
    {
        for store in &self.list {
            write(rows, store.spot, &store.value);
        }
    }
}

//! What is stored in a node's pieces.

ghost use Rattle.std.specs.Prelude.{◌≡◌, ◌+◌, ◌-◌, ◌*◌, ◌^◌, ◌<◌, [], ℤ, List, length, pos, slice_index_or, OnOk};
ghost use Rattle.machine_steps.specs.Node.{local_write};
ghost use Rattle.storage.specs.Spots.{spot_of};
ghost use Rattle.storage.specs.Storage.{write};
ghost use Rattle.part_steps.specs.Stores.{each_stored, line_stored, put, stored};
ghost use Rattle.part_steps.specs.Strips.{written};

use crate::lines::spot_in;
use comm_sets::{Owners, Spot};
use hpf_base::OutOfMemory;
use owner_tables::Row;
use std::alloc::Global;
use std::mem;
use tuple_values::ElementLine;

/// A value for a place of the node's pieces.
#[derive(Clone, Copy)]
pub struct Store {
    pub spot: Spot,
    pub value: i64,
}

/// Values with a place each, in order; or values for places of one row from one on, each so far after the one before.
#[derive(Drop)]
pub enum Stored {
    Each(Vec<Store>),
    Line(Spot, usize, Vec<i64>),
}

/// Values for places of the node's pieces, in order. Contracts see what is `stored`.
#[derive(Drop)]
pub struct Stores {
    pub(crate) list: Vec<Stored>,
    /// Those stored after all of the list, with a place each: in a list of their own they take no more memory than place and value do.
    pub(crate) singles: Vec<Store>,
}

impl Stores {
    /// Nothing is stored.
    pub(crate) fn new(alloc: Global) -> Stores
        ensures { (pieces : List (List ℤ)) → stored result pieces ≡ pieces }
    {
        Stores {
            list: Vec::new(alloc),
            singles: Vec::new(alloc),
        }
    }

    /// Adds a value for an element, if there is such an element and the node owns it.
    pub(crate) fn add(
        &mut self,
        owners: &Owners,
        id: u32,
        spot: Spot,
        value: &i64,
    ) -> Result<(), OutOfMemory>
        requires { id < owners.now.nodes }
        ensures { OnOk result ((pieces : List (List ℤ)) → stored self.new pieces ≡ local_write owners.now.layouts id (spot_of spot) value.now (stored self.old pieces)) }
    {
        match owners.held(id, spot) {
            Some(at) => {
                let spot = Spot { row: spot.row, at };
                self.singles.push(Store {
                    spot,
                    value: *value,
                })?;
                Ok(())
            }
            None => Ok(()),
        }
    }

    /// Adds a value for each element of a line, if there is such an element and the node owns it.
    pub(crate) fn add_line(
        &mut self,
        owners: &Owners,
        id: u32,
        line: ElementLine,
        values: Vec<i64>,
    ) -> Result<(), OutOfMemory>
        requires id { id < owners.now.nodes }
        requires near { line.first.at + (length values.items - 1) * line.step < 2 ^ 64 }
        ensures { OnOk result ((pieces : List (List ℤ)) → stored self.new pieces ≡ written owners.now.layouts id line 0 values.items (stored self.old pieces)) }
    {
        let held = owners.held_line(id, line.first, line.step, values.len());
        if held.count < values.len() {
            return self.add_each(owners, id, line, &values);
        }
        let first = Spot {
            row: line.first.row,
            at: held.first,
        };
        self.list_singles()?;
        self.list.push(Stored::Line(first, held.step, values))?;
        Ok(())
    }

    /// Moves the values with a place each to the end of the list, so that what is added to the list is stored after them.
    fn list_singles(&mut self) -> Result<(), OutOfMemory>
        ensures none { OnOk result (self.new.singles.items ≡ []) }
        ensures same { OnOk result ((pieces : List (List ℤ)) → stored self.new pieces ≡ stored self.old pieces) }
    {
        if self.singles.is_empty() {
            return Ok(());
        }
        let alloc = *self.singles.allocator();
        let singles = mem::replace(&mut self.singles, Vec::new(alloc));
        self.list.push(Stored::Each(singles))?;
        Ok(())
    }

    /// Adds them one by one.
    fn add_each(
        &mut self,
        owners: &Owners,
        id: u32,
        line: ElementLine,
        values: &[i64],
    ) -> Result<(), OutOfMemory>
        requires id { id < owners.now.nodes }
        requires near { line.first.at + (length values.now - 1) * line.step < 2 ^ 64 }
        ensures { OnOk result ((pieces : List (List ℤ)) → stored self.new pieces ≡ written owners.now.layouts id line 0 values.now (stored self.old pieces)) }
    {
        for index in 0..values.len() {
            self.add(owners, id, spot_in(line, index), value_in(values, index))?;
        }
        Ok(())
    }

    /// Stores the values. It takes no memory.
    pub fn apply(&self, pieces: &mut Vec<Row>)
        ensures { pieces.new.items ≡ stored self.now pieces.old.items }
    {
        for store in &self.list {
            put(pieces, store);
        }
        put_each(pieces, &self.singles);
    }
}

/// The value with a number.
fn value_in(values: &[i64], index: usize) -> &i64
    requires { index < length values.now }
    ensures { result.now ≡ slice_index_or values.now index (pos 0) }
{
    &values[index]
}

/// Stores a value or values, where there are such places.
fn put(pieces: &mut Vec<Row>, store: &Stored)
    ensures { pieces.new.items ≡ put store.now pieces.old.items }
{
    match store {
        Stored::Each(stores) => put_each(pieces, stores),
        Stored::Line(first, step, values) => put_line(pieces, *first, *step, values),
    }
}

/// Stores values with a place each in order, where there are such places.
fn put_each(pieces: &mut Vec<Row>, stores: &[Store])
    ensures { pieces.new.items ≡ each_stored stores.now pieces.old.items }
{
    for store in stores {
        put_one(pieces, store.spot, &store.value);
    }
}

/// Stores a value, if there is such a place.
fn put_one(pieces: &mut Vec<Row>, spot: Spot, value: &i64)
    ensures { pieces.new.items ≡ write pieces.old.items (spot_of spot) value.now }
{
    if spot.row < pieces.len() {
        pieces[spot.row].set(spot.at, value);
    }
}

/// Stores values, as far as there are such places.
fn put_line(pieces: &mut Vec<Row>, first: Spot, step: usize, values: &[i64])
    ensures { pieces.new.items ≡ line_stored first.row first.at step values.now pieces.old.items }
{
    if first.row < pieces.len() {
        pieces[first.row].set_line(first.at, step, values);
    }
}

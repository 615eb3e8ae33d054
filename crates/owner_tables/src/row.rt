//! A node's piece of a row.

ghost use Rattle.std.specs.Prelude.{◌≡◌, pos, length, slice_index_or, slice_set, IfOk, replicate, ℤ};
ghost use Rattle.owner_tables.specs.Lines.{with_line};

use hpf_base::OutOfMemory;
use std::alloc::Global;
use std::marker::Model;

/// The values of a row that lie on one node. Contracts see their list.
#[derive(Drop)]
pub struct Row {
    values: Vec<i64>,
}

impl Model for Row {
    ghost use Rattle.std.specs.Prelude.{List, ℤ};

    ghost Value = { List ℤ };

    ghost view = { λ r. r.values.items };
}

impl Row {
    /// These values, as they lie. It takes no memory.
    pub fn of(values: Vec<i64>) -> Row
        ensures { result ≡ values.items }
    {
        Row { values }
    }

    /// So many times one value.
    pub fn of_one(alloc: Global, value: i64, count: usize) -> Result<Row, OutOfMemory>
        ensures { IfOk result (λ row. row ≡ replicate count value) }
    {
        Ok(Row {
            values: vec![in alloc; value; count]?,
        })
    }

    /// The value at a place, or 0 where there is none.
    pub fn get(&self, at: usize) -> i64
        ensures { result ≡ slice_index_or self.now at (pos 0) }
    {
        if at < self.values.len() {
            self.values[at]
        } else {
            0
        }
    }

    /// Puts a value at a place, if there is such a place. It takes no memory.
    pub fn set(&mut self, at: usize, value: &i64)
        ensures { self.new ≡ slice_set self.old at value.now }
    {
        if at < self.values.len() {
            self.values[at] = *value;
        }
    }

    /// Puts values in order, the first at a place and each other `step` places after the one before, where there are such places. It takes no
    /// memory.
    pub fn set_line(&mut self, at: usize, step: usize, values: &[i64])
        ensures { self.new ≡ with_line self.old at step values.now }
    {
        if step == 1 {
            put_run(self.values.as_mut_slice(), at, values);
        } else {
            put_apart(self.values.as_mut_slice(), at, step, values);
        }
    }

    /// The values.
    pub fn as_slice(&self) -> &[i64]
        ensures { result.now ≡ self.now }
    {
        self.values.as_slice()
    }
}

/// Puts values into a row in order, the first at a place and each other at the next, where there are such places.
fn put_run(row: &mut [i64], at: usize, values: &[i64])
    ensures { row.new ≡ with_line row.old at 1 values.now }
{
    if at < row.len() {
        let count = values.len().min(row.len() - at);
        row[at..at + count].copy_from_slice(&values[..count]);
    }
}

/// The same, each other `step` places after the one before.
fn put_apart(row: &mut [i64], at: usize, step: usize, values: &[i64])
    ensures { row.new ≡ with_line row.old at step values.now }
{
    let mut place = at;
    for value in values {
        if place >= row.len() {
            return;
        }
        row[place] = *value;
        place = place.saturating_add(step);
    }
}

//! Instructions that fold a copy or take its last value.

ghost use Rattle.std.specs.Prelude.{◌≡◌, ◌<◌, ◌^◌, Some, if◌then◌else◌, length};
ghost use Rattle.std.specs.List.{fold, slice_get};
ghost use Rattle.op_tables.specs.Joins.{join, unit};
ghost use Rattle.storage.specs.Storage.{read, row_of};
ghost use Rattle.machine_steps.specs.Instr.{FoldCopy, LastCopy};
ghost use Rattle.machine_steps.specs.Machine.{is_one, last_of, last_passing, lie_alike, step_by};
ghost use Rattle.machine_steps.specs.SameLayouts.{is_same_layout};
ghost use Rattle.code_meaning.specs.Parallel.{fold_of};

use crate::machine::WholeMachine;
use crate::rows::{read, row_of};
use op_tables::Join;
use owner_tables::{Owners, Row, Spot};
use slot_values::slot;

impl WholeMachine {
    /// A slot is joined with the elements of a copy, joined. It takes no memory.
    pub(crate) fn fold_copy(&mut self, copy: usize, op: Join, x: usize)
        requires in_code { self.old.control.at < 2 ^ 63 }
        ensures { self.new ≡ step_by (FoldCopy copy (fold_of op) x) self.old }
    {
        let before = slot(self.slots(), x);
        let value = [op.join(before, join_all(row_of(self.rows(), copy), op))];
        self.set_slot(x, &value[0]);
    }

    /// A slot gets the element of a copy at the last position where the copy `set` is 1, if there is one and the two lie alike. It takes no
    /// memory.
    pub(crate) fn last_copy(&mut self, copy: usize, set: usize, x: usize)
        requires in_code { self.old.control.at < 2 ^ 63 }
        ensures { self.new ≡ step_by (LastCopy copy set is_same_layout x) self.old }
    {
        match last_of(self.owners(), self.rows(), copy, set) {
            Some(value) => self.set_slot(x, &value),
            None => self.go_on(),
        }
    }
}

/// Values joined so far.
#[derive(Drop)]
struct Joined {
    value: i64,
}

impl Joined {
    /// Joins one value more.
    fn add(&mut self, op: Join, value: i64)
        ensures { self.new.value ≡ join op self.old.value value }
    {
        self.value = op.join(self.value, value);
    }
}

/// The elements of a copy, joined in their order, beginning with the unit.
fn join_all(values: &[i64], op: Join) -> i64
    ensures { result ≡ fold (join op) (unit op) values.now }
{
    let mut so_far = Joined { value: op.unit() };
    for value in values {
        so_far.add(op, *value);
    }
    so_far.value
}

/// The value of a copy at the last position where the copy `set` is 1, if there is one and the two lie alike.
fn last_of(owners: &Owners, rows: &[Row], copy: usize, set: usize) -> Option<i64>
    ensures { result ≡ last_of is_same_layout owners.now.layouts rows.now copy set }
{
    if lie_alike(owners, copy, set) {
        last_set(rows, copy, set)
    } else {
        None
    }
}

/// Whether both copies are there and lie alike.
fn lie_alike(owners: &Owners, copy: usize, set: usize) -> bool
    ensures { result ≡ lie_alike is_same_layout (slice_get owners.now.layouts copy) (slice_get owners.now.layouts set) }
{
    match owners.table(copy) {
        Some(one) => match owners.table(set) {
            Some(other) => one.lies_as(other),
            None => false,
        },
        None => false,
    }
}

/// The value of a copy at the last position where the copy `set` is 1, if there is one.
fn last_set(rows: &[Row], copy: usize, set: usize) -> Option<i64>
    ensures { result ≡ last_passing (λ at. is_one (read rows.now (record { row = set; at = at }))) (λ at. read rows.now (record { row = copy; at = at })) (length (row_of rows.now copy)) }
{
    let mut last = None;
    for at in 0..row_of(rows, copy).len() {
        last = later(last, rows, copy, set, at);
    }
    last
}

/// The value of a copy at a position, if the copy `set` is 1 there, and else the last one before.
fn later(before: Option<i64>, rows: &[Row], copy: usize, set: usize, at: usize) -> Option<i64>
    ensures { result ≡ (if is_one (read rows.now (record { row = set; at = at })) then Some (read rows.now (record { row = copy; at = at })) else before) }
{
    if read(rows, Spot { row: set, at }) == 1 {
        Some(read(rows, Spot { row: copy, at }))
    } else {
        before
    }
}

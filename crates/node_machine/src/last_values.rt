//! Instructions that take the last value of a copy.

ghost use Rattle.std.specs.Prelude.{◌≡◌, ◌<◌, ◌^◌, None, Some, IfOk, OnOk, OnErr, if◌then◌else◌, slice_index_or, true};
ghost use Rattle.std.specs.List.{slice_get};
ghost use Rattle.machine_steps.specs.Instr.{LastCopy};
ghost use Rattle.machine_steps.specs.Layout.{sizes};
ghost use Rattle.machine_steps.specs.Machine.{last_control, lie_alike};
ghost use Rattle.machine_steps.specs.Node.{last_ended, own_last, positioned_values, tree_next};
ghost use Rattle.machine_steps.specs.SameLayouts.{is_same_layout};
ghost use Rattle.tree_steps.specs.Positions.{positions};
ghost use Rattle.node_machine.specs.Folds.{element_at, is_set_at, last_set, latest};
ghost use Rattle.node_machine.specs.Steps.{begun, done, instr_here};

use crate::node::Node;
use hpf_base::OutOfMemory;
use owner_tables::{Owners, Row, Spot, local_value};
use tree_steps::{Joining, Positioned, last_value, positioned_numbers};

/// Two copies, of which the first has values and the second tells where they are set, and the slot that gets the last value.
#[derive(Clone, Copy)]
pub(crate) struct LastValue {
    pub(crate) copy: usize,
    pub(crate) set: usize,
    pub(crate) slot: usize,
}

impl Node {
    /// The search for the last value at the node's place begins. For want of memory nothing changes.
    pub(crate) fn begin_last(&mut self, last: LastValue) -> Result<(), OutOfMemory>
        requires is { instr_here self.old ≡ LastCopy last.copy last.set is_same_layout last.slot }
        requires in_code { self.old.control.at < 2 ^ 63 }
        ensures ok { OnOk result (self.new ≡ begun self.old) }
        ensures err { OnErr result (self.new ≡ self.old) }
    {
        let numbers = self.own_last(last)?;
        self.last_round(0, numbers, last.slot)
    }

    /// The search for the last value at the node's place goes on after a round. For want of memory nothing changes.
    pub(crate) fn finish_last(&mut self, last: LastValue) -> Result<(), OutOfMemory>
        requires is { instr_here self.old ≡ LastCopy last.copy last.set is_same_layout last.slot }
        requires in_code { self.old.control.at < 2 ^ 63 }
        ensures ok { OnOk result (self.new ≡ done self.old) }
        ensures err { OnErr result (self.new ≡ self.old) }
    {
        let numbers = self.absorbed(Joining::Later)?;
        let round = self.next_round()?;
        self.last_round(round, numbers, last.slot)
    }

    /// The numbers of the last value that is set, of those whose least owner the node is.
    fn own_last(&self, last: LastValue) -> Result<Vec<i64>, OutOfMemory>
        ensures { IfOk result (λ v. v.items ≡ positioned_values (own_last self.now.nodes last.copy last.set is_same_layout self.now)) }
    {
        let value = own_last(&self.owners, self.id, &self.pieces, last.copy, last.set);
        positioned_numbers(self.alloc, value)
    }

    /// The next round of the search for a last value, or its end, in which the node has these numbers. For want of memory nothing changes.
    fn last_round(&mut self, round: u32, folded: Vec<i64>, slot: usize) -> Result<(), OutOfMemory>
        requires in_code { self.old.control.at < 2 ^ 63 }
        ensures ok { OnOk result (self.new ≡ tree_next self.old.nodes (last_ended self.old.nodes slot) (record self.old { round = round; folded = folded.items })) }
        ensures err { OnErr result (self.new ≡ self.old) }
    {
        if self.is_past(round) {
            self.end_last(round, &folded, slot);
            Ok(())
        } else {
            self.open_round(round, folded)
        }
    }

    /// The end of the search: the slot gets the value, if there is one. It takes no memory.
    fn end_last(&mut self, round: u32, folded: &[i64], slot: usize)
        requires in_code { self.old.control.at < 2 ^ 63 }
        ensures { self.new ≡ last_ended self.old.nodes slot (record self.old { round = round; folded = folded.now }) }
    {
        let _ = round;
        self.set_last(last_value(folded), slot);
        self.reset();
    }

    /// A slot gets a value, where there is one, and the run goes on with the next instruction. It takes no memory.
    fn set_last(&mut self, value: Option<i64>, slot: usize)
        requires in_code { self.old.control.at < 2 ^ 63 }
        ensures { self.new ≡ record self.old { control = last_control value slot self.old.control; substep = 0 } }
    {
        match value {
            Some(value) => self.set_slot(slot, &value),
            None => self.go_on(),
        }
    }
}

/// The last value so far, with its position.
#[derive(Drop)]
struct OwnLast {
    value: Option<Positioned>,
}

impl OwnLast {
    /// One at a later position comes in its place, where there is one.
    fn add(&mut self, found: Option<Positioned>)
        ensures { positions self.new.value ≡ latest (positions self.old.value) (positions found) }
    {
        if let Some(last) = found {
            self.value = Some(last);
        }
    }
}

/// The value of a copy at the last position where the copy `set` is 1, with the position, of those whose least owner the node is, if there is
/// one and the copies lie alike.
fn own_last(owners: &Owners, id: u32, pieces: &[Row], copy: usize, set: usize) -> Option<Positioned>
    requires { id < owners.now.nodes }
    ensures { positions result ≡ (if lie_alike is_same_layout (slice_get owners.now.layouts copy) (slice_get owners.now.layouts set)
        then last_set owners.now.layouts id pieces.now owners.now.nodes copy set (slice_index_or (sizes owners.now.layouts) copy 0) else None) }
{
    if lie_alike(owners, copy, set) {
        last_set(owners, id, pieces, copy, set)
    } else {
        None
    }
}

/// Whether both copies are there and lie alike.
fn lie_alike(owners: &Owners, copy: usize, set: usize) -> bool
    ensures { result ≡ lie_alike is_same_layout (slice_get owners.now.layouts copy) (slice_get owners.now.layouts set) }
{
    match owners.table(copy) {
        Some(one) => match owners.table(set) {
            Some(other) => one.lies_as(other),
            None => false,
        },
        None => false,
    }
}

/// The value of a copy at the last position where the copy `set`, which lies alike, is 1, with the position, of those whose least owner the
/// node is.
fn last_set(owners: &Owners, id: u32, pieces: &[Row], copy: usize, set: usize) -> Option<Positioned>
    requires one { id < owners.now.nodes }
    requires alike { lie_alike is_same_layout (slice_get owners.now.layouts copy) (slice_get owners.now.layouts set) ≡ true }
    ensures { positions result ≡ last_set owners.now.layouts id pieces.now owners.now.nodes copy set (slice_index_or (sizes owners.now.layouts) copy 0) }
{
    let mut last = OwnLast { value: None };
    for at in 0..owners.size(copy) {
        let found = set_element(owners, id, pieces, copy, set, at);
        last.add(found);
    }
    last.value
}

/// The value of a copy at a position, if the node is its least owner and the copy `set` is 1 there.
fn set_element(
    owners: &Owners,
    id: u32,
    pieces: &[Row],
    copy: usize,
    set: usize,
    at: usize,
) -> Option<Positioned>
    requires one { id < owners.now.nodes }
    requires alike { lie_alike is_same_layout (slice_get owners.now.layouts copy) (slice_get owners.now.layouts set) ≡ true }
    requires at { at < slice_index_or (sizes owners.now.layouts) copy 0 }
    ensures { positions result ≡ (if is_set_at owners.now.layouts id pieces.now owners.now.nodes copy set at
        then Some (element_at owners.now.layouts id pieces.now copy at) else None) }
{
    if owners.least_owner(Spot { row: copy, at }) != id {
        return None;
    }
    if local_value(owners, id, pieces, Spot { row: set, at }) != 1 {
        return None;
    }
    Some(Positioned {
        at: at as u64,
        value: local_value(owners, id, pieces, Spot { row: copy, at }),
    })
}

//! Instructions that fold a copy.

ghost use Rattle.std.specs.Prelude.{◌≡◌, ◌<◌, ◌^◌, ◌∷◌, [], IfOk, OnOk, OnErr, slice_index_or};
ghost use Rattle.machine_steps.specs.Instr.{FoldCopy};
ghost use Rattle.machine_steps.specs.Layout.{sizes};
ghost use Rattle.machine_steps.specs.Machine.{slot_of};
ghost use Rattle.machine_steps.specs.Node.{fold_ended, join_after, join_options, option_values, own_fold, tree_next, values_option};
ghost use Rattle.code_meaning.specs.Parallel.{fold_of};
ghost use Rattle.op_tables.specs.Joins.{join};
ghost use Rattle.storage.specs.Spots.{spot_of};
ghost use Rattle.node_machine.specs.Folds.{own_element, own_elements};
ghost use Rattle.node_machine.specs.Steps.{begun, done, instr_here};

use crate::node::Node;
use crate::pieces::value_at;
use hpf_base::OutOfMemory;
use op_tables::Join;
use owner_tables::{Owners, Row, Spot, local_value};
use tree_steps::{Joining, option_numbers, options_joined, reduced};

/// A copy that is folded: how its elements are joined, and the slot that they are joined with.
#[derive(Clone, Copy)]
pub(crate) struct Folding {
    pub(crate) copy: usize,
    pub(crate) op: Join,
    pub(crate) slot: usize,
}

impl Node {
    /// The fold of the copy at the node's place begins. For want of memory nothing changes.
    pub(crate) fn begin_fold(&mut self, folding: Folding) -> Result<(), OutOfMemory>
        requires is { instr_here self.old ≡ FoldCopy folding.copy (fold_of folding.op) folding.slot }
        requires in_code { self.old.control.at < 2 ^ 63 }
        ensures ok { OnOk result (self.new ≡ begun self.old) }
        ensures err { OnErr result (self.new ≡ self.old) }
    {
        let numbers = self.own_fold(folding)?;
        self.fold_round(0, numbers, folding)
    }

    /// The fold of the copy at the node's place goes on after a round. For want of memory nothing changes.
    pub(crate) fn finish_fold(&mut self, folding: Folding) -> Result<(), OutOfMemory>
        requires is { instr_here self.old ≡ FoldCopy folding.copy (fold_of folding.op) folding.slot }
        requires in_code { self.old.control.at < 2 ^ 63 }
        ensures ok { OnOk result (self.new ≡ done self.old) }
        ensures err { OnErr result (self.new ≡ self.old) }
    {
        let numbers = self.absorbed(Joining::Options(folding.op))?;
        let round = self.next_round()?;
        self.fold_round(round, numbers, folding)
    }

    /// The number of the elements whose least owner the node is, joined in order, if there are any.
    fn own_fold(&self, folding: Folding) -> Result<Vec<i64>, OutOfMemory>
        ensures { IfOk result (λ v. v.items ≡ option_values (own_fold self.now.nodes folding.copy (fold_of folding.op) self.now)) }
    {
        let value = own_elements(
            &self.owners,
            self.id,
            &self.pieces,
            folding.op,
            folding.copy,
        );
        option_numbers(self.alloc, value)
    }

    /// The next round of the fold of a copy, or its end, in which the node has these numbers. For want of memory nothing changes.
    fn fold_round(
        &mut self,
        round: u32,
        folded: Vec<i64>,
        folding: Folding,
    ) -> Result<(), OutOfMemory>
        requires in_code { self.old.control.at < 2 ^ 63 }
        ensures ok { OnOk result (self.new ≡ tree_next self.old.nodes (fold_ended self.old.nodes (fold_of folding.op) folding.slot) (record self.old { round = round; folded = folded.items })) }
        ensures err { OnErr result (self.new ≡ self.old) }
    {
        if self.is_past(round) {
            self.end_fold(round, &folded, folding);
            Ok(())
        } else {
            self.open_round(round, folded)
        }
    }

    /// The end of the fold of a copy: its slot is joined with the value. It takes no memory.
    fn end_fold(&mut self, round: u32, folded: &[i64], folding: Folding)
        requires in_code { self.old.control.at < 2 ^ 63 }
        ensures { self.new ≡ fold_ended self.old.nodes (fold_of folding.op) folding.slot (record self.old { round = round; folded = folded.now }) }
    {
        let _ = round;
        let value = self.joined_slot(folding, folded);
        self.set_slot(folding.slot, &value[0]);
        self.reset();
    }

    /// The value of the slot, joined with what the tree has joined.
    fn joined_slot(&self, folding: Folding, folded: &[i64]) -> [i64; 1]
        ensures { result ≡ join folding.op (slot_of self.now.control folding.slot) (join_after (join folding.op) (fold_of folding.op).unit (values_option folded.now)) ∷ [] }
    {
        let before = value_at(&self.control.slots, folding.slot);
        [folding.op.join(before, reduced(folding.op, folded))]
    }
}

/// The elements so far, joined, where there were any.
#[derive(Drop)]
struct OwnFold {
    value: Option<i64>,
}

impl OwnFold {
    /// Joins an element after them, where there is one.
    fn add(&mut self, op: Join, element: Option<i64>)
        ensures { self.new.value ≡ join_options (join op) self.old.value element }
    {
        self.value = options_joined(op, self.value, element);
    }
}

/// The elements of a copy whose least owner the node is, joined in order, if there are any.
fn own_elements(owners: &Owners, id: u32, pieces: &[Row], op: Join, copy: usize) -> Option<i64>
    requires { id < owners.now.nodes }
    ensures { result ≡ own_elements owners.now.layouts id pieces.now owners.now.nodes (join op) copy (slice_index_or (sizes owners.now.layouts) copy 0) }
{
    let mut fold = OwnFold { value: None };
    for at in 0..owners.size(copy) {
        let element = own_element(owners, id, pieces, Spot { row: copy, at });
        fold.add(op, element);
    }
    fold.value
}

/// The value of an element, if the node is its least owner.
fn own_element(owners: &Owners, id: u32, pieces: &[Row], spot: Spot) -> Option<i64>
    requires one { id < owners.now.nodes }
    requires at { spot.at < slice_index_or (sizes owners.now.layouts) spot.row 0 }
    ensures { result ≡ own_element owners.now.layouts id pieces.now owners.now.nodes (spot_of spot) }
{
    if owners.least_owner(spot) == id {
        Some(local_value(owners, id, pieces, spot))
    } else {
        None
    }
}

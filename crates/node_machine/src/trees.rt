//! Instructions whose values go round a tree: verdicts, and the later steps of reductions.

ghost use Rattle.std.specs.Prelude.{◌≡◌, ◌<◌, ◌≤◌, ◌+◌, ◌*◌, ◌^◌, All, IfOk, OnOk, OnErr, filter, map, nat_lt, not};
ghost use Rattle.std.specs.List.{range_with_len};
ghost use Rattle.machine_steps.specs.Instr.{Verdict};
ghost use Rattle.machine_steps.specs.Machine.{verdict_control};
ghost use Rattle.machine_steps.specs.Node.{kept_values, opened, option_values, parcel, reduce_ended, tree_next, verdict_done};
ghost use Rattle.machine_steps.specs.Tree.{levels_of, tree_sends};
ghost use Rattle.code_meaning.specs.FaultValues.{fault_values};
ghost use Rattle.code_meaning.specs.Parallel.{fold_of};
ghost use Rattle.slot_values.specs.KeptFaults.{kepts};
ghost use Rattle.tree_steps.specs.Absorbed.{absorbed_values, joined_values};
ghost use Rattle.node_machine.specs.Steps.{begun, done, instr_here};
ghost use Rattle.node_machine.specs.Trees.{IsReduceTree, IsReduceVerdict, next_of, step_of};

use crate::node::Node;
use hpf_base::OutOfMemory;
use letters::Parcel;
use op_tables::Join;
use slot_values::{Kept, Status};
use std::collections::VecDeque;
use tree_steps::{
    Joining, absorbed, inbox, kept_numbers, kept_of_numbers, levels_of, option_numbers, outbox,
    reduced,
};

/// A reduction: how its values are joined, and the slot that gets them.
#[derive(Clone, Copy)]
pub(crate) struct Reduction {
    pub(crate) op: Join,
    pub(crate) slot: usize,
}

impl Node {
    /// Opens a round of a tree, in which the node has these numbers. For want of memory nothing changes.
    pub(crate) fn open_round(&mut self, round: u32, folded: Vec<i64>) -> Result<(), OutOfMemory>
        requires going { round < 2 * levels_of self.old.nodes }
        ensures ok { OnOk result (self.new ≡ opened self.old.nodes (tree_sends (levels_of self.old.nodes) round) (λ q. folded.items) (record self.old { round = round; folded = folded.items })) }
        ensures err { OnErr result (self.new ≡ self.old) }
    {
        let outbox = self.round_outbox(round, &folded)?;
        let inbox = self.round_inbox(round)?;
        let received = self.room()?;
        self.set_round(round, folded);
        self.open(outbox, inbox, received);
        Ok(())
    }

    /// The round, and what the node has in it. It takes no memory.
    fn set_round(&mut self, round: u32, folded: Vec<i64>)
        ensures { self.new ≡ record self.old { round = round; folded = folded.items } }
    {
        self.round = round;
        self.folded = folded;
    }

    /// The numbers of the fault that the node keeps.
    fn own_kept(&self) -> Result<Vec<i64>, OutOfMemory>
        ensures { IfOk result (λ v. v.items ≡ kept_values fault_values self.now.kept) }
    {
        kept_numbers(self.alloc, &self.kept)
    }

    /// The number of the value that it has of a reduction.
    fn own_joined(&self) -> Result<Vec<i64>, OutOfMemory>
        ensures { IfOk result (λ v. v.items ≡ option_values self.now.joined) }
    {
        option_numbers(self.alloc, self.joined)
    }

    /// What the node sends in a round of a tree.
    fn round_outbox(&self, round: u32, folded: &[i64]) -> Result<VecDeque<Parcel>, OutOfMemory>
        requires going { round < 2 * levels_of self.now.nodes }
        ensures items { IfOk result (λ o. o.items ≡ map (parcel (λ q. folded.now)) (filter (tree_sends (levels_of self.now.nodes) round self.now.id) (range_with_len 0 self.now.nodes))) }
        ensures below { IfOk result (λ o. All (λ parcel. parcel.to < self.now.nodes) o.items) }
    {
        outbox(self.alloc, self.owners.nodes(), round, self.id, folded)
    }

    /// From whom it takes.
    fn round_inbox(&self, round: u32) -> Result<VecDeque<u32>, OutOfMemory>
        requires going { round < 2 * levels_of self.now.nodes }
        ensures items { IfOk result (λ i. i.items ≡ filter (λ p. tree_sends (levels_of self.now.nodes) round p self.now.id) (range_with_len 0 self.now.nodes)) }
        ensures below { IfOk result (λ i. All (λ source. source < self.now.nodes) i.items) }
    {
        inbox(self.alloc, self.owners.nodes(), round, self.id)
    }

    /// Whether a round is past the last one of a tree.
    pub(crate) fn is_past(&self, round: u32) -> bool
        ensures { result ≡ not (nat_lt round (2 * levels_of self.now.nodes)) }
    {
        round >= 2 * levels_of(self.owners.nodes())
    }

    /// What the node has after a round.
    pub(crate) fn absorbed(&self, joining: Joining) -> Result<Vec<i64>, OutOfMemory>
        ensures { IfOk result (λ v. v.items ≡ absorbed_values (joined_values joining) (levels_of self.now.nodes) self.now.round self.now.id self.now.folded self.now.received) }
    {
        absorbed(
            self.alloc,
            joining,
            self.owners.nodes(),
            self.round,
            self.id,
            &self.folded,
            self.post.all_received(),
        )
    }

    /// The number of the next round.
    pub(crate) fn next_round(&self) -> Result<u32, OutOfMemory>
        ensures { IfOk result (λ round. round ≡ self.now.round + 1) }
    {
        match self.round.checked_add(1) {
            Some(round) => Ok(round),
            // a number past its type
            None => Err(OutOfMemory),
        }
    }

    /// The verdict at the node's place begins. For want of memory nothing changes.
    pub(crate) fn begin_verdict(&mut self) -> Result<(), OutOfMemory>
        requires is { instr_here self.old ≡ Verdict }
        requires in_code { self.old.control.at < 2 ^ 63 }
        ensures ok { OnOk result (self.new ≡ begun self.old) }
        ensures err { OnErr result (self.new ≡ self.old) }
    {
        let numbers = self.own_kept()?;
        self.verdict_round(0, numbers, false)
    }

    /// The verdict at the node's place goes on after a round. For want of memory nothing changes.
    pub(crate) fn finish_verdict(&mut self) -> Result<(), OutOfMemory>
        requires is { instr_here self.old ≡ Verdict }
        requires in_code { self.old.control.at < 2 ^ 63 }
        ensures ok { OnOk result (self.new ≡ done self.old) }
        ensures err { OnErr result (self.new ≡ self.old) }
    {
        let numbers = self.absorbed(Joining::Kept)?;
        let round = self.next_round()?;
        self.verdict_round(round, numbers, false)
    }

    /// The next round of a verdict, or its end, in which the node has these numbers. For want of memory nothing changes.
    pub(crate) fn verdict_round(
        &mut self,
        round: u32,
        folded: Vec<i64>,
        reducing: bool,
    ) -> Result<(), OutOfMemory>
        requires in_code { self.old.control.at < 2 ^ 63 }
        ensures ok { OnOk result (self.new ≡ tree_next self.old.nodes (verdict_done self.old.nodes fault_values (next_of reducing) (step_of reducing)) (record self.old { round = round; folded = folded.items })) }
        ensures err { OnErr result (self.new ≡ self.old) }
    {
        if self.is_past(round) {
            self.end_verdict(round, &folded, reducing)
        } else {
            self.open_round(round, folded)
        }
    }

    /// The end of a verdict: the run ends with the fault that these numbers spell, or goes on.
    fn end_verdict(&mut self, round: u32, folded: &[i64], reducing: bool) -> Result<(), OutOfMemory>
        requires in_code { self.old.control.at < 2 ^ 63 }
        ensures ok { OnOk result (self.new ≡ verdict_done self.old.nodes fault_values (next_of reducing) (step_of reducing) (record self.old { round = round; folded = folded.now })) }
        ensures err { OnErr result (self.new ≡ self.old) }
    {
        let _ = round;
        let kept = kept_of_numbers(self.alloc, folded)?;
        self.judge(kept, reducing);
        self.substep = if reducing { 2 } else { 0 };
        self.kept = None;
        self.parts = 0;
        self.reset();
        Ok(())
    }

    /// The run ends with a fault, or goes on.
    fn judge(&mut self, kept: Option<Kept>, reducing: bool)
        requires in_code { self.old.control.at < 2 ^ 63 }
        ensures { self.new ≡ record self.old { control = verdict_control (kepts kept) (next_of reducing) self.old.control } }
    {
        match kept {
            Some(kept) => self.control.status = Status::Faulted(kept.fault),
            None => {
                if !reducing {
                    self.control.at += 1;
                }
            }
        }
    }

    /// The verdict of the reduction at the node's place begins. For want of memory nothing changes.
    pub(crate) fn begin_reduce_verdict(&mut self) -> Result<(), OutOfMemory>
        requires is { IsReduceVerdict (instr_here self.old) self.old.substep }
        requires in_code { self.old.control.at < 2 ^ 63 }
        ensures ok { OnOk result (self.new ≡ begun self.old) }
        ensures err { OnErr result (self.new ≡ self.old) }
    {
        let numbers = self.own_kept()?;
        self.verdict_round(0, numbers, true)
    }

    /// The tree of the values of the reduction at the node's place begins. For want of memory nothing changes.
    pub(crate) fn begin_reduce_tree(&mut self, reduction: Reduction) -> Result<(), OutOfMemory>
        requires is { IsReduceTree (instr_here self.old) self.old.substep reduction }
        requires in_code { self.old.control.at < 2 ^ 63 }
        ensures ok { OnOk result (self.new ≡ begun self.old) }
        ensures err { OnErr result (self.new ≡ self.old) }
    {
        let numbers = self.own_joined()?;
        self.reduce_round(0, numbers, reduction)
    }

    /// The verdict of the reduction at the node's place goes on after a round. For want of memory nothing changes.
    pub(crate) fn finish_reduce_verdict(&mut self) -> Result<(), OutOfMemory>
        requires is { IsReduceVerdict (instr_here self.old) self.old.substep }
        requires in_code { self.old.control.at < 2 ^ 63 }
        ensures ok { OnOk result (self.new ≡ done self.old) }
        ensures err { OnErr result (self.new ≡ self.old) }
    {
        let numbers = self.absorbed(Joining::Kept)?;
        let round = self.next_round()?;
        self.verdict_round(round, numbers, true)
    }

    /// The tree of the values of the reduction at the node's place goes on after a round. For want of memory nothing changes.
    pub(crate) fn finish_reduce_tree(&mut self, reduction: Reduction) -> Result<(), OutOfMemory>
        requires is { IsReduceTree (instr_here self.old) self.old.substep reduction }
        requires in_code { self.old.control.at < 2 ^ 63 }
        ensures ok { OnOk result (self.new ≡ done self.old) }
        ensures err { OnErr result (self.new ≡ self.old) }
    {
        let numbers = self.absorbed(Joining::Options(reduction.op))?;
        let round = self.next_round()?;
        self.reduce_round(round, numbers, reduction)
    }

    /// The next round of the tree of a reduction, or its end, in which the node has these numbers. For want of memory nothing changes.
    fn reduce_round(
        &mut self,
        round: u32,
        folded: Vec<i64>,
        reduction: Reduction,
    ) -> Result<(), OutOfMemory>
        requires in_code { self.old.control.at < 2 ^ 63 }
        ensures ok { OnOk result (self.new ≡ tree_next self.old.nodes (reduce_ended self.old.nodes (fold_of reduction.op) reduction.slot) (record self.old { round = round; folded = folded.items })) }
        ensures err { OnErr result (self.new ≡ self.old) }
    {
        if self.is_past(round) {
            self.end_reduce(round, &folded, reduction);
            Ok(())
        } else {
            self.open_round(round, folded)
        }
    }

    /// The end of a reduction: its slot gets the value. It takes no memory.
    fn end_reduce(&mut self, round: u32, folded: &[i64], reduction: Reduction)
        requires in_code { self.old.control.at < 2 ^ 63 }
        ensures { self.new ≡ reduce_ended self.old.nodes (fold_of reduction.op) reduction.slot (record self.old { round = round; folded = folded.now }) }
    {
        let _ = round;
        let value = [reduced(reduction.op, folded)];
        self.set_slot(reduction.slot, &value[0]);
        self.joined = None;
        self.reset();
    }
}

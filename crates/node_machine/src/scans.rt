//! Instructions that scan a copy.

ghost use Rattle.std.specs.Prelude.{◌≡◌, ◌<◌, ◌^◌, [], All, IfOk, None, OnOk, OnErr, filter, length, map, nat_lt, not, slice_set};
ghost use Rattle.std.specs.List.{range_with_len, slice_get};
ghost use Rattle.storage.specs.Storage.{row_of};
ghost use Rattle.machine_steps.specs.Instr.{Scan};
ghost use Rattle.machine_steps.specs.Machine.{lies_so, on};
ghost use Rattle.machine_steps.specs.Node.{join_all, join_options, opened, option_values, parcel, scan_after, scan_ended, scan_next, values_option};
ghost use Rattle.machine_steps.specs.Tree.{levels_of, scan_sends};
ghost use Rattle.code_meaning.specs.Instructions.{lies_alone};
ghost use Rattle.code_meaning.specs.Parallel.{fold_of};
ghost use Rattle.code_meaning.specs.ProgramText.{table_on};
ghost use Rattle.op_tables.specs.Joins.{join, unit};
ghost use Rattle.scan_steps.specs.Rounds.{came_in};
ghost use Rattle.node_machine.specs.Steps.{begun, done, instr_here};

use crate::node::Node;
use hpf_base::OutOfMemory;
use letters::Parcel;
use op_tables::Join;
use owner_tables::Row;
use scan_steps::{absorbed, came, inbox, joined, lies_alone, outbox, scan_row};
use std::collections::VecDeque;
use tree_steps::{levels_of, option_numbers, options_joined};

/// A copy that is scanned, and how its elements are joined.
#[derive(Clone, Copy)]
pub(crate) struct Scanning {
    pub(crate) copy: usize,
    pub(crate) op: Join,
}

impl Node {
    /// The scan of the copy at the node's place begins, or is passed where the copy doesn't lie in blocks. For want of memory nothing changes.
    pub(crate) fn begin_scan(&mut self, scan: Scanning) -> Result<(), OutOfMemory>
        requires is { instr_here self.old ≡ Scan scan.copy (lies_alone (table_on self.old.nodes [] [])) (fold_of scan.op) }
        requires in_code { self.old.control.at < 2 ^ 63 }
        ensures ok { OnOk result (self.new ≡ begun self.old) }
        ensures err { OnErr result (self.new ≡ self.old) }
    {
        let alone = self.lies_alone(scan.copy)?;
        if alone {
            let numbers = self.own_scan(scan)?;
            self.scan_round(0, numbers, None, scan)
        } else {
            self.pass_scan();
            Ok(())
        }
    }

    /// The scan of the copy at the node's place goes on after a round. For want of memory nothing changes.
    pub(crate) fn finish_scan(&mut self, scan: Scanning) -> Result<(), OutOfMemory>
        requires is { instr_here self.old ≡ Scan scan.copy (lies_alone (table_on self.old.nodes [] [])) (fold_of scan.op) }
        requires in_code { self.old.control.at < 2 ^ 63 }
        ensures ok { OnOk result (self.new ≡ done self.old) }
        ensures err { OnErr result (self.new ≡ self.old) }
    {
        let came = self.scan_came();
        let numbers = self.scan_absorbed(scan.op, came)?;
        let taken = self.scan_taken(scan.op, came);
        let round = self.next_round()?;
        self.scan_round(round, numbers, taken, scan)
    }

    /// Whether a row lies in blocks, one node's after another's, as a copy of one dimension that lies beside nothing.
    fn lies_alone(&self, row: usize) -> Result<bool, OutOfMemory>
        ensures { IfOk result (λ alone. alone ≡ lies_so (lies_alone (table_on self.now.nodes [] [])) (slice_get self.now.layouts row)) }
    {
        lies_alone(&self.owners, row)
    }

    /// What it has of the copy, joined in order, as one number, or none.
    fn own_scan(&self, scan: Scanning) -> Result<Vec<i64>, OutOfMemory>
        ensures { IfOk result (λ v. v.items ≡ option_values (join_all (join scan.op) (row_of self.now.pieces scan.copy))) }
    {
        let value = joined(scan.op, self.piece(scan.copy));
        option_numbers(self.alloc, value)
    }

    /// The scan is passed. It takes no memory.
    fn pass_scan(&mut self)
        requires in_code { self.old.control.at < 2 ^ 63 }
        ensures { self.new ≡ record self.old { control = on self.old.control; substep = 0; joined = None } }
    {
        self.joined = None;
        self.go_on();
    }

    /// What came in the round, if something did.
    fn scan_came(&self) -> Option<i64>
        ensures { result ≡ came_in self.now.round self.now.id self.now.received }
    {
        came(
            self.owners.nodes(),
            self.round,
            self.id,
            self.post.all_received(),
        )
    }

    /// What the node has after a round in which this came, as one number, or none.
    fn scan_absorbed(&self, op: Join, came: Option<i64>) -> Result<Vec<i64>, OutOfMemory>
        ensures { IfOk result (λ v. v.items ≡ option_values (join_options (join op) came (values_option self.now.folded))) }
    {
        absorbed(self.alloc, op, came, &self.folded)
    }

    /// What it took alone, after a round in which this came.
    fn scan_taken(&self, op: Join, came: Option<i64>) -> Option<i64>
        ensures { result ≡ join_options (join op) came self.now.joined }
    {
        options_joined(op, came, self.joined)
    }

    /// The next round of a scan, or its end, in which the node has these numbers, and took this alone. For want of memory nothing changes.
    fn scan_round(
        &mut self,
        round: u32,
        folded: Vec<i64>,
        taken: Option<i64>,
        scan: Scanning,
    ) -> Result<(), OutOfMemory>
        requires in_code { self.old.control.at < 2 ^ 63 }
        ensures ok { OnOk result (self.new ≡ scan_next self.old.nodes scan.copy (fold_of scan.op) (record self.old { round = round; folded = folded.items; joined = taken })) }
        ensures err { OnErr result (self.new ≡ self.old) }
    {
        if self.is_past_scan(round) {
            self.end_scan(taken, scan);
            Ok(())
        } else {
            self.open_scan_round(round, folded, taken)
        }
    }

    /// Whether a round is past the last one of a scan.
    fn is_past_scan(&self, round: u32) -> bool
        ensures { result ≡ not (nat_lt round (levels_of self.now.nodes)) }
    {
        round >= levels_of(self.owners.nodes())
    }

    /// Opens a round of a scan. For want of memory nothing changes.
    fn open_scan_round(
        &mut self,
        round: u32,
        folded: Vec<i64>,
        taken: Option<i64>,
    ) -> Result<(), OutOfMemory>
        ensures ok { OnOk result (self.new ≡ opened self.old.nodes (scan_sends round) (λ q. folded.items) (record self.old { round = round; folded = folded.items; joined = taken })) }
        ensures err { OnErr result (self.new ≡ self.old) }
    {
        let outbox = self.scan_outbox(round, &folded)?;
        let inbox = self.scan_inbox(round)?;
        let received = self.room()?;
        self.set_scan(round, folded, taken);
        self.open(outbox, inbox, received);
        Ok(())
    }

    /// What the node sends in a round of a scan.
    fn scan_outbox(&self, round: u32, folded: &[i64]) -> Result<VecDeque<Parcel>, OutOfMemory>
        ensures items { IfOk result (λ o. o.items ≡ map (parcel (λ q. folded.now)) (filter (scan_sends round self.now.id) (range_with_len 0 self.now.nodes))) }
        ensures below { IfOk result (λ o. All (λ parcel. parcel.to < self.now.nodes) o.items) }
    {
        outbox(self.alloc, self.owners.nodes(), round, self.id, folded)
    }

    /// From whom it takes.
    fn scan_inbox(&self, round: u32) -> Result<VecDeque<u32>, OutOfMemory>
        ensures items { IfOk result (λ i. i.items ≡ filter (λ p. scan_sends round p self.now.id) (range_with_len 0 self.now.nodes)) }
        ensures below { IfOk result (λ i. All (λ source. source < self.now.nodes) i.items) }
    {
        inbox(self.alloc, self.owners.nodes(), round, self.id)
    }

    /// The round, what the node has in it, and what it took alone. It takes no memory.
    fn set_scan(&mut self, round: u32, folded: Vec<i64>, taken: Option<i64>)
        ensures { self.new ≡ record self.old { round = round; folded = folded.items; joined = taken } }
    {
        self.round = round;
        self.folded = folded;
        self.joined = taken;
    }

    /// The end of a scan: each element of the node's piece is joined with what it took and those before it. It takes no memory.
    fn end_scan(&mut self, taken: Option<i64>, scan: Scanning)
        requires in_code { self.old.control.at < 2 ^ 63 }
        ensures { self.new ≡ scan_ended self.old.nodes scan.copy (fold_of scan.op) (record self.old { joined = taken }) }
    {
        scan_piece(&mut self.pieces, scan, taken);
        self.joined = None;
        self.go_on();
        self.reset();
    }
}

/// Each element of a piece is joined with what came before the piece and with those before it, if there is such a row.
fn scan_piece(pieces: &mut Vec<Row>, scan: Scanning, before: Option<i64>)
    ensures rows { pieces.new.items ≡ slice_set pieces.old.items scan.copy (scan_after (join scan.op) (unit scan.op) before (row_of pieces.old.items scan.copy)) }
    ensures count { length pieces.new.items ≡ length pieces.old.items }
{
    if scan.copy < pieces.len() {
        scan_row(scan.op, before, &mut pieces[scan.copy]);
    }
}

//! What a parallel statement comes to on a node.

ghost use Rattle.std.specs.Prelude.{◌≡◌, ℕ, ◌+◌, ◌-◌, ◌<◌, ◌≤◌, ℤ, All, List, Some, IfOk, OnOk, drop, length, take};
ghost use Rattle.array_meaning.specs.Faults.{Fault as FaultOf};
ghost use Rattle.machine_steps.specs.Instr.{Value};
ghost use Rattle.machine_steps.specs.Machine.{earlier, effect_by, kept_of};
ghost use Rattle.machine_steps.specs.Node.{local_apply};
ghost use Rattle.term_values.specs.Faults.{fault as fault_of};
ghost use Rattle.tuple_values.specs.Spots.{read_of};
ghost use Rattle.part_steps.specs.After.{applied, after, fault_below, outcome_of, stored_below, tuples};
ghost use Rattle.part_steps.specs.Computed.{keep_of, over, store_of};
ghost use Rattle.part_steps.specs.Exchanged.{IsComputed, IsExchange};
ghost use Rattle.part_steps.specs.Gathered.{after_of};
ghost use Rattle.slot_values.specs.KeptFaults.{kepts};
ghost use Rattle.part_steps.specs.Stores.{stored};
ghost use Rattle.part_steps.specs.Strips.{AreOutcomes, AreReferencesOf, IsStripOf, strip_tuples};
ghost use Rattle.part_steps.specs.Views.{part_view};

use crate::gathered::Gathered;
use crate::part::Part;
use crate::stores::Stores;
use crate::strips::{StripOutcome, references_of, row_of, strip_from, strip_outcome};
use comm_sets::{Exchange, Spot};
use hpf_base::OutOfMemory;
use letters::Body;
use owner_tables::Row;
use slot_values::{Fault, Kept, earlier};
use std::alloc::Global;
use tuple_numbers::Run;
use tuple_values::{Outcome, References, Strip};

/// What the tuples of a parallel statement store on a node, in their order, and the first fault of those that it computes.
#[derive(Drop)]
pub struct ParValues {
    pub stores: Stores,
    pub fault: Option<Kept>,
}

/// What a parallel statement comes to on the node with this number, by its pieces of all rows, the values that it received from each
/// node, and what it exchanged. Nothing is stored yet. `number` is the part's, which the fault's key has. An element out of bounds
/// has the value 0.
pub fn par_values(
    alloc: Global,
    part: &Part<'_>,
    id: u32,
    pieces: &[Row],
    received: &[Body],
    exchange: &Exchange,
    number: u64,
) -> Result<ParValues, OutOfMemory>
    requires id { id < part.now.owners.now.nodes }
    requires exchange { IsExchange (part_view part.now) id exchange.now }
    ensures stores { IfOk result (λ r. let b = after (part_view part.now) id pieces.now received.now in (ps : List (List ℤ)) → stored r.stores ps ≡ stored_below b (tuples b) ps) }
    ensures fault { IfOk result (λ r. let b = after (part_view part.now) id pieces.now received.now in kepts r.fault ≡ fault_below b number (tuples b)) }
{
    let gathered = Gathered::new(part, id, pieces, received, exchange);
    gathered_values(alloc, &gathered, number)
}

/// What it comes to by what the node has after the phase.
fn gathered_values(
    alloc: Global,
    gathered: &Gathered<'_>,
    number: u64,
) -> Result<ParValues, OutOfMemory>
    ensures stores { IfOk result (λ r. let b = after_of gathered.now in (ps : List (List ℤ)) → stored r.stores ps ≡ stored_below b (tuples b) ps) }
    ensures fault { IfOk result (λ r. let b = after_of gathered.now in kepts r.fault ≡ fault_below b number (tuples b)) }
{
    let mut values = ParValues {
        stores: Stores::new(alloc),
        fault: None,
    };
    let references = references_of(gathered)?;
    let computed = gathered.computed();
    let mut done: usize = 0;
    while done < computed.len() {
        let run = computed.run(done);
        values.add_run(gathered, &references, &run, number)?;
        let count = run.len();
        done += count;
    }
    Ok(values)
}

impl ParValues {
    /// Adds what a run of tuples that the node computes comes to.
    fn add_run(
        &mut self,
        gathered: &Gathered<'_>,
        references: &Option<References>,
        run: &Run<'_>,
        number: u64,
    ) -> Result<(), OutOfMemory>
        requires computed { All (IsComputed (after_of gathered.now)) run.now }
        requires references { AreReferencesOf gathered.now references.now }
        ensures stores { OnOk result ((ps : List (List ℤ)) → stored self.new.stores ps ≡ over (store_of (after_of gathered.now)) run.now (stored self.old.stores ps)) }
        ensures fault { OnOk result (kepts self.new.fault ≡ over (keep_of (after_of gathered.now) number) run.now (kepts self.old.fault)) }
    {
        let row = row_of(references);
        let mut done: usize = 0;
        while done < run.len() {
            let s = strip_from(run, done, row);
            let end = done + s.count;
            self.add_strip(gathered, references, run, done, end, s, number)?;
            done = end;
        }
        Ok(())
    }

    /// Adds what a strip of a run comes to, which begins at an index and ends before another.
    fn add_strip(
        &mut self,
        gathered: &Gathered<'_>,
        references: &Option<References>,
        run: &Run<'_>,
        from: usize,
        end: usize,
        s: Strip,
        number: u64,
    ) -> Result<(), OutOfMemory>
        requires computed { All (IsComputed (after_of gathered.now)) run.now }
        requires references { AreReferencesOf gathered.now references.now }
        requires strip { IsStripOf run.now from s }
        requires end { end ≡ from + s.count }
        ensures stores { OnOk result ((ps : List (List ℤ)) → stored self.new.stores ps
            ≡ over (store_of (after_of gathered.now)) (take (end - from) (drop from run.now)) (stored self.old.stores ps)) }
        ensures fault { OnOk result (kepts self.new.fault ≡ over (keep_of (after_of gathered.now) number) (take (end - from) (drop from run.now)) (kepts self.old.fault)) }
    {
        match strip_outcome(gathered, references, s)? {
            Some(outcome) => self.add_outcome(gathered, s, outcome),
            None => self.add_tuples(gathered, run, from, end, number),
        }
    }

    /// Adds the values at a strip.
    fn add_outcome(
        &mut self,
        gathered: &Gathered<'_>,
        s: Strip,
        outcome: StripOutcome,
    ) -> Result<(), OutOfMemory>
        requires { AreOutcomes (after_of gathered.now) s outcome }
        ensures stores { OnOk result ((ps : List (List ℤ)) → stored self.new.stores ps
            ≡ over (store_of (after_of gathered.now)) (strip_tuples s) (stored self.old.stores ps)) }
        ensures fault { OnOk result ((number : ℕ) → kepts self.new.fault ≡ over (keep_of (after_of gathered.now) number) (strip_tuples s) (kepts self.old.fault)) }
    {
        match outcome.left {
            None => Ok(()),
            Some(line) => {
                let owners = gathered.part.owners;
                self.stores
                    .add_line(owners, gathered.id, line, outcome.values)
            }
        }
    }

    /// Adds what the tuples of a run come to, from an index on and before another.
    fn add_tuples(
        &mut self,
        gathered: &Gathered<'_>,
        run: &Run<'_>,
        from: usize,
        end: usize,
        number: u64,
    ) -> Result<(), OutOfMemory>
        requires computed { All (IsComputed (after_of gathered.now)) run.now }
        requires order { from ≤ end }
        requires within { end ≤ length run.now }
        ensures stores { OnOk result ((ps : List (List ℤ)) → stored self.new.stores ps
            ≡ over (store_of (after_of gathered.now)) (take (end - from) (drop from run.now)) (stored self.old.stores ps)) }
        ensures fault { OnOk result (kepts self.new.fault ≡ over (keep_of (after_of gathered.now) number) (take (end - from) (drop from run.now)) (kepts self.old.fault)) }
    {
        for index in from..end {
            self.add_tuple(gathered, run.at(index), number)?;
        }
        Ok(())
    }

    /// Adds what a tuple that the node computes comes to.
    fn add_tuple(
        &mut self,
        gathered: &Gathered<'_>,
        tuple: usize,
        number: u64,
    ) -> Result<(), OutOfMemory>
        requires { IsComputed (after_of gathered.now) tuple }
        ensures stores { OnOk result ((ps : List (List ℤ)) → stored self.new.stores ps
            ≡ applied (after_of gathered.now) tuple (outcome_of (after_of gathered.now) tuple) (stored self.old.stores ps)) }
        ensures fault { OnOk result (kepts self.new.fault ≡ earlier (kepts self.old.fault) (kept_of (outcome_of (after_of gathered.now) tuple) tuple number)) }
    {
        let statement = gathered.part.statement;
        let place = statement.place(tuple)?;
        match gathered.outcome(tuple, place)? {
            Outcome::Nothing => Ok(()),
            Outcome::Value(v) => self.add_value(gathered, statement.left_at(place), &v),
            Outcome::Breaks(fault) => {
                self.fault = kept_earlier(self.fault.take(), tuple, number, fault);
                Ok(())
            }
        }
    }

    /// Adds the value of an element that is assigned, where there is one.
    fn add_value(
        &mut self,
        gathered: &Gathered<'_>,
        left: Option<Spot>,
        v: &i64,
    ) -> Result<(), OutOfMemory>
        ensures stores { OnOk result ((ps : List (List ℤ)) → stored self.new.stores ps
            ≡ local_apply {F = FaultOf} gathered.now.part.now.owners.now.layouts gathered.now.id (effect_by (read_of left) (Value v.now)) (stored self.old.stores ps)) }
        ensures fault { OnOk result (self.new.fault ≡ self.old.fault) }
    {
        match left {
            None => Ok(()),
            Some(spot) => self.stores.add(gathered.part.owners, gathered.id, spot, v),
        }
    }
}

/// The fault so far, or that of a tuple of the part with this number, where there is none before it.
pub(crate) fn kept_earlier(
    so_far: Option<Kept>,
    tuple: usize,
    number: u64,
    fault: Fault,
) -> Option<Kept>
    ensures { kepts result ≡ earlier (kepts so_far) (Some (record { tuple = tuple; part = number; fault = fault_of fault })) }
{
    let kept = Kept {
        tuple: tuple as u64,
        part: number,
        fault,
    };
    earlier(so_far, Some(kept))
}

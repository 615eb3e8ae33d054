//! What a reduction comes to on a node.

ghost use Rattle.std.specs.Prelude.{◌≡◌, ℕ, ◌+◌, ◌-◌, ◌<◌, ◌≤◌, All, Some, IfOk, OnOk, drop, length, take};
ghost use Rattle.machine_steps.specs.Machine.{earlier, kept_of};
ghost use Rattle.machine_steps.specs.Node.{join_options, outcome_value};
ghost use Rattle.op_tables.specs.Joins.{join};
ghost use Rattle.part_steps.specs.After.{after, fault_below, joined_below, outcome_of, tuples};
ghost use Rattle.part_steps.specs.Computed.{join_of, keep_of, over};
ghost use Rattle.part_steps.specs.Exchanged.{IsComputed, IsExchange};
ghost use Rattle.part_steps.specs.Gathered.{after_of};
ghost use Rattle.slot_values.specs.KeptFaults.{kepts};
ghost use Rattle.part_steps.specs.Strips.{AreOutcomes, AreReferencesOf, IsStripOf, joined_values, strip_tuples};
ghost use Rattle.part_steps.specs.Views.{part_view};

use crate::gathered::Gathered;
use crate::parallel::kept_earlier;
use crate::part::Part;
use crate::strips::{StripOutcome, references_of, row_of, strip_from, strip_outcome};
use comm_sets::Exchange;
use hpf_base::OutOfMemory;
use letters::Body;
use op_tables::Join;
use owner_tables::Row;
use slot_values::Kept;
use tuple_numbers::Run;
use tuple_values::{Outcome, References, Strip};

/// The values of the tuples that a node computes, joined in their order, where there are any, and the first fault.
#[derive(Drop)]
pub struct ReduceValues {
    pub value: Option<i64>,
    pub fault: Option<Kept>,
}

/// What a reduction comes to on the node with this number, by its pieces of all rows, the values that it received from each node, and what
/// it exchanged. `number` is the part's, which the fault's key has. An element out of bounds has the value 0.
pub fn reduce_values(
    part: &Part<'_>,
    id: u32,
    pieces: &[Row],
    received: &[Body],
    exchange: &Exchange,
    op: Join,
    number: u64,
) -> Result<ReduceValues, OutOfMemory>
    requires id { id < part.now.owners.now.nodes }
    requires exchange { IsExchange (part_view part.now) id exchange.now }
    ensures value { IfOk result (λ r. let b = after (part_view part.now) id pieces.now received.now in r.value ≡ joined_below b op (tuples b)) }
    ensures fault { IfOk result (λ r. let b = after (part_view part.now) id pieces.now received.now in kepts r.fault ≡ fault_below b number (tuples b)) }
{
    let gathered = Gathered::new(part, id, pieces, received, exchange);
    gathered_values(&gathered, op, number)
}

/// What it comes to by what the node has after the phase.
fn gathered_values(
    gathered: &Gathered<'_>,
    op: Join,
    number: u64,
) -> Result<ReduceValues, OutOfMemory>
    ensures value { IfOk result (λ r. let b = after_of gathered.now in r.value ≡ joined_below b op (tuples b)) }
    ensures fault { IfOk result (λ r. let b = after_of gathered.now in kepts r.fault ≡ fault_below b number (tuples b)) }
{
    let mut values = ReduceValues {
        value: None,
        fault: None,
    };
    let references = references_of(gathered)?;
    let computed = gathered.computed();
    let mut done: usize = 0;
    while done < computed.len() {
        let run = computed.run(done);
        values.add_run(gathered, &references, &run, op, number)?;
        let count = run.len();
        done += count;
    }
    Ok(values)
}

impl ReduceValues {
    /// Adds what a run of tuples that the node computes comes to.
    fn add_run(
        &mut self,
        gathered: &Gathered<'_>,
        references: &Option<References>,
        run: &Run<'_>,
        op: Join,
        number: u64,
    ) -> Result<(), OutOfMemory>
        requires computed { All (IsComputed (after_of gathered.now)) run.now }
        requires references { AreReferencesOf gathered.now references.now }
        ensures value { OnOk result (self.new.value ≡ over (join_of (after_of gathered.now) op) run.now self.old.value) }
        ensures fault { OnOk result (kepts self.new.fault ≡ over (keep_of (after_of gathered.now) number) run.now (kepts self.old.fault)) }
    {
        let row = row_of(references);
        let mut done: usize = 0;
        while done < run.len() {
            let s = strip_from(run, done, row);
            let end = done + s.count;
            self.add_strip(gathered, references, run, done, end, s, op, number)?;
            done = end;
        }
        Ok(())
    }

    /// Adds what a strip of a run comes to, which begins at an index and ends before another.
    fn add_strip(
        &mut self,
        gathered: &Gathered<'_>,
        references: &Option<References>,
        run: &Run<'_>,
        from: usize,
        end: usize,
        s: Strip,
        op: Join,
        number: u64,
    ) -> Result<(), OutOfMemory>
        requires computed { All (IsComputed (after_of gathered.now)) run.now }
        requires references { AreReferencesOf gathered.now references.now }
        requires strip { IsStripOf run.now from s }
        requires end { end ≡ from + s.count }
        ensures value { OnOk result (self.new.value ≡ over (join_of (after_of gathered.now) op) (take (end - from) (drop from run.now)) self.old.value) }
        ensures fault { OnOk result (kepts self.new.fault ≡ over (keep_of (after_of gathered.now) number) (take (end - from) (drop from run.now)) (kepts self.old.fault)) }
    {
        match strip_outcome(gathered, references, s)? {
            Some(outcome) => {
                self.add_outcome(gathered, s, &outcome, op);
                Ok(())
            }
            None => self.add_tuples(gathered, run, from, end, op, number),
        }
    }

    /// Adds the values at a strip.
    fn add_outcome(&mut self, gathered: &Gathered<'_>, s: Strip, outcome: &StripOutcome, op: Join)
        requires { AreOutcomes (after_of gathered.now) s outcome.now }
        ensures value { self.new.value ≡ over (join_of (after_of gathered.now) op) (strip_tuples s) self.old.value }
        ensures fault { (number : ℕ) → kepts self.new.fault ≡ over (keep_of (after_of gathered.now) number) (strip_tuples s) (kepts self.old.fault) }
    {
        self.value = joined_values(op, self.value, &outcome.values);
    }

    /// Adds what the tuples of a run come to, from an index on and before another.
    fn add_tuples(
        &mut self,
        gathered: &Gathered<'_>,
        run: &Run<'_>,
        from: usize,
        end: usize,
        op: Join,
        number: u64,
    ) -> Result<(), OutOfMemory>
        requires computed { All (IsComputed (after_of gathered.now)) run.now }
        requires order { from ≤ end }
        requires within { end ≤ length run.now }
        ensures value { OnOk result (self.new.value ≡ over (join_of (after_of gathered.now) op) (take (end - from) (drop from run.now)) self.old.value) }
        ensures fault { OnOk result (kepts self.new.fault ≡ over (keep_of (after_of gathered.now) number) (take (end - from) (drop from run.now)) (kepts self.old.fault)) }
    {
        for index in from..end {
            self.add_tuple(gathered, run.at(index), op, number)?;
        }
        Ok(())
    }

    /// Adds what a tuple that the node computes comes to.
    fn add_tuple(
        &mut self,
        gathered: &Gathered<'_>,
        tuple: usize,
        op: Join,
        number: u64,
    ) -> Result<(), OutOfMemory>
        requires { IsComputed (after_of gathered.now) tuple }
        ensures value { OnOk result (self.new.value ≡ join_options (join op) self.old.value (outcome_value (outcome_of (after_of gathered.now) tuple))) }
        ensures fault { OnOk result (kepts self.new.fault ≡ earlier (kepts self.old.fault) (kept_of (outcome_of (after_of gathered.now) tuple) tuple number)) }
    {
        let place = gathered.part.statement.place(tuple)?;
        match gathered.outcome(tuple, place)? {
            Outcome::Nothing => Ok(()),
            Outcome::Value(v) => {
                self.value = joined_after(op, self.value, v);
                Ok(())
            }
            Outcome::Breaks(fault) => {
                self.fault = kept_earlier(self.fault.take(), tuple, number, fault);
                Ok(())
            }
        }
    }
}

/// A value after others, joined, where there are others.
fn joined_after(op: Join, so_far: Option<i64>, v: i64) -> Option<i64>
    ensures { result ≡ join_options (join op) so_far (Some v) }
{
    match so_far {
        None => Some(v),
        Some(a) => Some(op.join(a, v)),
    }
}

/// A value that there may be, and after it others, joined.
fn joined_values(op: Join, so_far: Option<i64>, values: &[i64]) -> Option<i64>
    ensures { result ≡ joined_values op values.now so_far }
{
    match so_far {
        Some(value) => Some(joined_to(op, value, values)),
        None => {
            let (first, rest) = values.split_first()?;
            Some(joined_to(op, *first, rest))
        }
    }
}

/// A value, and after it others, joined. Each operator has a loop of its own, which doesn't ask at each value which operator it is.
fn joined_to(op: Join, first: i64, values: &[i64]) -> i64
    ensures { Some result ≡ joined_values op values.now (Some first) }
{
    match op {
        Join::Sum => joined_by(Join::Sum, first, values),
        Join::Product => joined_by(Join::Product, first, values),
        Join::Greatest => joined_by(Join::Greatest, first, values),
        Join::Least => joined_by(Join::Least, first, values),
        Join::And => joined_by(Join::And, first, values),
        Join::Or => joined_by(Join::Or, first, values),
        Join::ExclusiveOr => joined_by(Join::ExclusiveOr, first, values),
        Join::Any => joined_by(Join::Any, first, values),
        Join::All => joined_by(Join::All, first, values),
    }
}

/// A value, and after it others, joined in one loop.
fn joined_by(op: Join, first: i64, values: &[i64]) -> i64
    ensures { Some result ≡ joined_values op values.now (Some first) }
{
    let mut so_far = first;
    for value in values {
        so_far = op.join(so_far, *value);
    }
    so_far
}

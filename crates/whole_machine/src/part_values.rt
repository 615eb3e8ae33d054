//! What a parallel statement comes to at all its tuples.

ghost use Rattle.std.specs.Prelude.{◌≡◌, ◌<◌, ℤ, List, None, Some, IfOk, OnOk};
ghost use Rattle.array_meaning.specs.Faults.{Fault as FaultOf};
ghost use Rattle.storage.specs.Effect.{apply, scatter};
ghost use Rattle.machine_steps.specs.Instr.{Value};
ghost use Rattle.machine_steps.specs.Machine.{earlier, effect_by, keep, kept_of};
ghost use Rattle.term_values.specs.Faults.{fault as fault_of};
ghost use Rattle.slot_values.specs.KeptFaults.{kepts};
ghost use Rattle.tuple_values.specs.Outcomes.{outcome_view};
ghost use Rattle.tuple_values.specs.Spots.{read_of};
ghost use Rattle.tuple_values.specs.Statements.{tuple_count, tuple_place};
ghost use Rattle.tuple_values.specs.Views.{statement as statement_of};
ghost use Rattle.whole_machine.specs.Parts.{effect_at, outcome_at};
ghost use Rattle.whole_machine.specs.Stores.{stored};

use crate::rows::WholeRows;
use crate::stores::Stores;
use hpf_base::OutOfMemory;
use owner_tables::{Row, Spot};
use slot_values::{Fault, Kept, earlier};
use std::alloc::Global;
use tuple_values::{Outcome, ParallelStatement};

/// What the tuples of a parallel statement store, in their order, and the first fault.
#[derive(Drop)]
pub(crate) struct ParValues {
    pub(crate) stores: Stores,
    pub(crate) fault: Option<Kept>,
}

/// What a parallel statement comes to. Nothing is stored yet. `number` is the part's, which the fault's key has.
pub(crate) fn par_values(
    alloc: Global,
    statement: &ParallelStatement<'_>,
    rows: &[Row],
    number: u64,
) -> Result<ParValues, OutOfMemory>
    ensures stores { IfOk result (λ r. (m : List (List ℤ)) → stored r.stores m ≡ scatter (effect_at rows.now (statement_of statement.now)) (tuple_count (statement_of statement.now)) m) }
    ensures fault { IfOk result (λ r. kepts r.fault ≡ keep (outcome_at rows.now (statement_of statement.now)) number (tuple_count (statement_of statement.now)) None) }
{
    let mut values = ParValues {
        stores: Stores::new(alloc),
        fault: None,
    };
    for tuple in 0..statement.count() {
        values.add_tuple(statement, rows, tuple, number)?;
    }
    Ok(values)
}

impl ParValues {
    /// Adds what a tuple comes to.
    fn add_tuple(
        &mut self,
        statement: &ParallelStatement<'_>,
        rows: &[Row],
        tuple: usize,
        number: u64,
    ) -> Result<(), OutOfMemory>
        requires { tuple < tuple_count (statement_of statement.now) }
        ensures stores { OnOk result ((m : List (List ℤ)) → stored self.new.stores m ≡ apply (effect_at rows.now (statement_of statement.now) tuple) (stored self.old.stores m)) }
        ensures fault { OnOk result (kepts self.new.fault ≡ earlier (kepts self.old.fault) (kept_of (outcome_at rows.now (statement_of statement.now) tuple) tuple number)) }
    {
        let place = statement.place(tuple)?;
        match outcome(statement, rows, tuple, place)? {
            Outcome::Nothing => Ok(()),
            Outcome::Value(v) => self.add_value(statement.left_at(place), &v),
            Outcome::Breaks(fault) => {
                self.fault = kept_earlier(self.fault.take(), tuple, number, fault);
                Ok(())
            }
        }
    }

    /// Adds the value of an element that is assigned, where there is one.
    fn add_value(&mut self, left: Option<Spot>, v: &i64) -> Result<(), OutOfMemory>
        ensures stores { OnOk result ((m : List (List ℤ)) → stored self.new.stores m ≡ apply (effect_by {F = FaultOf} (read_of left) (Value v.now)) (stored self.old.stores m)) }
        ensures fault { OnOk result (self.new.fault ≡ self.old.fault) }
    {
        match left {
            None => Ok(()),
            Some(spot) => self.stores.add(spot, v),
        }
    }
}

/// What a tuple comes to at which this is the place of what is assigned.
pub(crate) fn outcome(
    statement: &ParallelStatement<'_>,
    rows: &[Row],
    tuple: usize,
    place: Option<usize>,
) -> Result<Outcome, OutOfMemory>
    requires tuple { tuple < tuple_count (statement_of statement.now) }
    requires place { place ≡ tuple_place (statement_of statement.now) tuple }
    ensures { IfOk result (λ o. outcome_view o ≡ outcome_at rows.now (statement_of statement.now) tuple) }
{
    let elements = WholeRows { rows };
    statement.outcome(tuple, place, &elements)
}

/// The fault so far, or that of a tuple of the part with this number, where there is none before it.
pub(crate) fn kept_earlier(
    so_far: Option<Kept>,
    tuple: usize,
    number: u64,
    fault: Fault,
) -> Option<Kept>
    ensures { kepts result ≡ earlier (kepts so_far) (Some (record { tuple = tuple; part = number; fault = fault_of fault })) }
{
    let kept = Kept {
        tuple: tuple as u64,
        part: number,
        fault,
    };
    earlier(so_far, Some(kept))
}

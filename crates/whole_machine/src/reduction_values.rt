//! What a reduction comes to at all its tuples.

ghost use Rattle.std.specs.Prelude.{◌≡◌, ◌<◌, None, IfOk, OnOk};
ghost use Rattle.machine_steps.specs.Machine.{earlier, folded, join_outcome, keep, kept_of};
ghost use Rattle.code_meaning.specs.Parallel.{fold_of};
ghost use Rattle.slot_values.specs.KeptFaults.{kepts};
ghost use Rattle.tuple_values.specs.Statements.{tuple_count};
ghost use Rattle.tuple_values.specs.Views.{statement as statement_of};
ghost use Rattle.whole_machine.specs.Parts.{outcome_at};

use crate::part_values::{kept_earlier, outcome};
use hpf_base::OutOfMemory;
use op_tables::Join;
use owner_tables::Row;
use slot_values::Kept;
use tuple_values::{Outcome, ParallelStatement};

/// The values of the tuples, joined in their order, beginning with the unit, and the first fault.
#[derive(Drop)]
pub(crate) struct ReduceValues {
    pub(crate) joined: i64,
    pub(crate) fault: Option<Kept>,
}

/// What a reduction comes to. `number` is the part's, which the fault's key has.
pub(crate) fn reduce_values(
    statement: &ParallelStatement<'_>,
    rows: &[Row],
    op: Join,
    number: u64,
) -> Result<ReduceValues, OutOfMemory>
    ensures joined { IfOk result (λ r. r.joined ≡ folded (fold_of op) (outcome_at rows.now (statement_of statement.now)) (tuple_count (statement_of statement.now))) }
    ensures fault { IfOk result (λ r. kepts r.fault ≡ keep (outcome_at rows.now (statement_of statement.now)) number (tuple_count (statement_of statement.now)) None) }
{
    let mut values = ReduceValues {
        joined: op.unit(),
        fault: None,
    };
    for tuple in 0..statement.count() {
        values.add_tuple(statement, rows, tuple, op, number)?;
    }
    Ok(values)
}

impl ReduceValues {
    /// Adds what a tuple comes to.
    fn add_tuple(
        &mut self,
        statement: &ParallelStatement<'_>,
        rows: &[Row],
        tuple: usize,
        op: Join,
        number: u64,
    ) -> Result<(), OutOfMemory>
        requires { tuple < tuple_count (statement_of statement.now) }
        ensures joined { OnOk result (self.new.joined ≡ join_outcome (fold_of op) (outcome_at rows.now (statement_of statement.now) tuple) self.old.joined) }
        ensures fault { OnOk result (kepts self.new.fault ≡ earlier (kepts self.old.fault) (kept_of (outcome_at rows.now (statement_of statement.now) tuple) tuple number)) }
    {
        let place = statement.place(tuple)?;
        match outcome(statement, rows, tuple, place)? {
            Outcome::Nothing => Ok(()),
            Outcome::Value(v) => {
                self.joined = op.join(self.joined, v);
                Ok(())
            }
            Outcome::Breaks(fault) => {
                self.fault = kept_earlier(self.fault.take(), tuple, number, fault);
                Ok(())
            }
        }
    }
}

//! Rows of ends by the source become rows by the target, and the other way round.

ghost use Rattle.std.specs.Prelude.{◌≡◌, ◌++◌, ◌∷◌, [], ℕ, List, Some, length, IfOk, OnOk, replicate, slice_get};
ghost use Rattle.pair_mailbox.specs.Ends.{Incoming};
ghost use Rattle.all_pairs.specs.RowSteps.{each_appended, transposed};

use crate::rows::InRow;
use hpf_base::OutOfMemory;
use pair_mailbox::InEnd;
use std::alloc::Global;

impl InRow {
    // Appends one end.
    fn push(&mut self, end: InEnd) -> Result<(), OutOfMemory>
        ensures { OnOk result (self.new ≡ self.old ++ end ∷ []) }
    {
        self.ends.push(end)?;
        Ok(())
    }
}

// Appends each end of a row to the column of its place.
fn append_each(columns: &mut Vec<InRow>, row: InRow) -> Result<(), OutOfMemory>
    requires { length columns.old.items ≡ length row }
    ensures { OnOk result (columns.new.items ≡ each_appended columns.old.items row) }
{
    let InRow { ends } = row;
    let mut place = 0;
    for end in ends {
        columns[place].push(end)?;
        place += 1;
    }
    Ok(())
}

// So many rows without ends.
fn empty_rows(alloc: Global, count: usize) -> Result<Vec<InRow>, OutOfMemory>
    ensures { IfOk result (λ rows. rows.items ≡ replicate count []) }
{
    let mut rows = Vec::new(alloc);
    for _ in 0..count {
        rows.push(InRow {
            ends: Vec::new(alloc),
        })?;
    }
    Ok(rows)
}

/// The columns of as many rows as each has ends.
pub(crate) fn transposed(alloc: Global, rows: Vec<InRow>) -> Result<Vec<InRow>, OutOfMemory>
    requires { (a : ℕ) (row : List Incoming) → slice_get rows.items a ≡ Some row → length row ≡ length rows.items }
    ensures { IfOk result (λ columns. columns.items ≡ transposed (replicate (length rows.items) []) rows.items) }
{
    let mut columns = empty_rows(alloc, rows.len())?;
    for row in rows {
        append_each(&mut columns, row)?;
    }
    Ok(columns)
}

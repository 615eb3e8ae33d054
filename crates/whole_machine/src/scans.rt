//! Instructions that scan a copy.

ghost use Rattle.std.specs.Prelude.{◌≡◌, ◌<◌, ◌^◌, [], OnOk, OnErr, slice_set};
ghost use Rattle.op_tables.specs.Joins.{join};
ghost use Rattle.storage.specs.Storage.{row_of};
ghost use Rattle.machine_steps.specs.Instr.{Scan};
ghost use Rattle.machine_steps.specs.Machine.{scan, scanned_rows, step_by};
ghost use Rattle.code_meaning.specs.Instructions.{lies_alone};
ghost use Rattle.code_meaning.specs.Parallel.{fold_of};
ghost use Rattle.code_meaning.specs.ProgramText.{table_on};
ghost use Rattle.whole_machine.specs.Places.{IsFor};

use crate::machine::WholeMachine;
use hpf_base::OutOfMemory;
use op_tables::Join;
use owner_tables::Row;
use scan_steps::lies_alone;

impl WholeMachine {
    /// Each element of a copy is joined with those before it, where the copy lies in blocks, one node's after another's, on the nodes for
    /// which the code is. Else it stays. For want of memory nothing changes.
    pub(crate) fn scan_copy(&mut self, nodes: u32, copy: usize, op: Join) -> Result<(), OutOfMemory>
        requires nodes { IsFor self.old.code self.old.control.at nodes }
        requires in_code { self.old.control.at < 2 ^ 63 }
        ensures ok { OnOk result (self.new ≡ step_by (Scan copy (lies_alone (table_on nodes [] [])) (fold_of op)) self.old) }
        ensures err { OnErr result (self.new ≡ self.old) }
    {
        let alone = lies_alone(&self.owners, copy)?;
        scan_where(alone, &mut self.rows, copy, op);
        self.go_on();
        Ok(())
    }
}

/// A row is scanned where that is asked for.
fn scan_where(asked: bool, rows: &mut Vec<Row>, row: usize, op: Join)
    ensures { rows.new.items ≡ scanned_rows asked (fold_of op) row rows.old.items }
{
    if asked {
        scan_in(rows, row, op);
    }
}

/// Each element of a row is joined with those before it, if there is such a row.
fn scan_in(rows: &mut Vec<Row>, row: usize, op: Join)
    ensures { rows.new.items ≡ slice_set rows.old.items row (scan (fold_of op) (row_of rows.old.items row)) }
{
    if row < rows.len() {
        scan_values(&mut rows[row], op);
    }
}

/// Values joined so far.
#[derive(Drop)]
struct SoFar {
    value: i64,
}

impl SoFar {
    /// Joins one value more.
    fn add(&mut self, op: Join, value: i64)
        ensures { self.new.value ≡ join op self.old.value value }
    {
        self.value = op.join(self.value, value);
    }

    /// All so far.
    fn joined(&self) -> i64
        ensures { result ≡ self.now.value }
    {
        self.value
    }
}

/// Each of some values is joined with those before it, in order.
fn scan_values(row: &mut Row, op: Join)
    ensures { row.new ≡ scan (fold_of op) row.old }
{
    let mut so_far = SoFar { value: op.unit() };
    for at in 0..row.as_slice().len() {
        so_far.add(op, row.get(at));
        row.set(at, &so_far.joined());
    }
}

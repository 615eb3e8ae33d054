//! Values that are joined in order.

ghost use Rattle.std.specs.Prelude.{◌≡◌, Some, IfOk};
ghost use Rattle.machine_steps.specs.Node.{join_after, join_all, join_options, option_values, scan_after, values_option};
ghost use Rattle.op_tables.specs.Joins.{join, unit};

use hpf_base::OutOfMemory;
use op_tables::Join;
use owner_tables::Row;
use std::alloc::Global;
use tree_steps::{option_numbers, options_joined};

/// The values so far, joined, where there were any.
#[derive(Drop)]
struct SoFar {
    value: Option<i64>,
}

impl SoFar {
    /// Joins one value more.
    fn add(&mut self, op: Join, value: i64)
        ensures { self.new.value ≡ join_options (join op) self.old.value (Some value) }
    {
        self.value = options_joined(op, self.value, Some(value));
    }

    /// All so far after others, where there are any, and after the unit.
    fn after(&self, op: Join, before: Option<i64>) -> i64
        ensures { result ≡ join_after (join op) (unit op) (join_options (join op) before self.now.value) }
    {
        let unit = op.unit();
        match options_joined(op, before, self.value) {
            Some(value) => op.join(unit, value),
            None => unit,
        }
    }
}

/// Values joined in order, where there are any. It takes no memory.
pub fn joined(op: Join, values: &[i64]) -> Option<i64>
    ensures { result ≡ join_all (join op) values.now }
{
    let mut so_far = SoFar { value: None };
    for value in values {
        so_far.add(op, *value);
    }
    so_far.value
}

/// What a node has after a round, where it had `own`: what came, joined before it, as numbers that go round.
pub fn absorbed(
    alloc: Global,
    op: Join,
    came: Option<i64>,
    own: &[i64],
) -> Result<Vec<i64>, OutOfMemory>
    ensures { IfOk result (λ v. v.items ≡ option_values (join_options (join op) came (values_option own.now))) }
{
    let value = options_joined(op, came, own.first().copied());
    option_numbers(alloc, value)
}

/// Each element of a piece gets the unit, joined with what came before the piece, where something did, and with the elements up to it. It takes
/// no memory.
pub fn scan_row(op: Join, before: Option<i64>, row: &mut Row)
    ensures { row.new ≡ scan_after (join op) (unit op) before row.old }
{
    let mut so_far = SoFar { value: None };
    for at in 0..row.as_slice().len() {
        so_far.add(op, row.get(at));
        row.set(at, &so_far.after(op, before));
    }
}

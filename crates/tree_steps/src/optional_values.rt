//! Values that may be missing as the numbers that go round.

ghost use Rattle.std.specs.Prelude.{◌≡◌, IfOk};
ghost use Rattle.machine_steps.specs.Node.{join_after, join_options, option_values, values_option};
ghost use Rattle.code_meaning.specs.Parallel.{fold_of};
ghost use Rattle.op_tables.specs.Joins.{join};

use hpf_base::OutOfMemory;
use op_tables::Join;
use std::alloc::Global;

/// The number of a value, where there is one.
pub fn option_numbers(alloc: Global, value: Option<i64>) -> Result<Vec<i64>, OutOfMemory>
    ensures { IfOk result (λ v. v.items ≡ option_values value) }
{
    let mut numbers = Vec::new(alloc);
    if let Some(v) = value {
        numbers.push(v)?;
    }
    Ok(numbers)
}

/// The value of a number, where there is one.
pub(crate) fn option_of_numbers(numbers: &[i64]) -> Option<i64>
    ensures { result ≡ values_option numbers.now }
{
    numbers.first().copied()
}

/// Two values joined, where both are there.
pub fn options_joined(op: Join, a: Option<i64>, b: Option<i64>) -> Option<i64>
    ensures { result ≡ join_options (join op) a b }
{
    match a {
        None => b,
        Some(v) => match b {
            None => Some(v),
            Some(w) => Some(op.join(v, w)),
        },
    }
}

/// The value of a reduction, from what its tree has joined: its unit with the values of all nodes, where any node had one (Fortran 95,
/// 13.14). It takes no memory.
pub fn reduced(op: Join, folded: &[i64]) -> i64
    ensures { result ≡ join_after (fold_of op).join (fold_of op).unit (values_option folded.now) }
{
    let unit = op.unit();
    match option_of_numbers(folded) {
        None => unit,
        Some(v) => op.join(unit, v),
    }
}

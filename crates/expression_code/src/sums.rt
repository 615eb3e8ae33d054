//! Sums of slots.

ghost use Rattle.std.specs.Prelude.{◌≡◌, ◌+◌, IfOk};
ghost use Rattle.op_tables.specs.Operators.{can_divide};
ghost use Rattle.program_code.specs.ExpressionCode.{one_if};

use hpf_base::OutOfMemory;
use op_tables::Op;

/// The sum of two numbers of slots or of places; one past 64 bits is answered as want of memory.
pub fn plus(a: usize, b: usize) -> Result<usize, OutOfMemory>
    ensures { IfOk result (λ n. n ≡ a + b) }
{
    match a.checked_add(b) {
        Some(n) => Ok(n),
        None => Err(OutOfMemory),
    }
}

/// The sum of three.
pub(crate) fn plus_three(a: usize, b: usize, c: usize) -> Result<usize, OutOfMemory>
    ensures { IfOk result (λ n. n ≡ a + (b + c)) }
{
    plus(a, plus(b, c)?)
}

/// An operator may divide by zero.
pub(crate) fn can_divide(op: Op) -> bool
    ensures { result ≡ can_divide op }
{
    matches!(op, Op::Div | Op::Pow | Op::Mod | Op::Modulo)
}

/// The slot of what is kept in one.
pub(crate) fn one_if(kept: bool) -> usize
    ensures { result ≡ one_if kept }
{
    if kept { 1 } else { 0 }
}

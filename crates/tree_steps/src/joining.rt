//! How what two nodes have is joined.

ghost use Rattle.std.specs.Prelude.{◌≡◌, IfOk};
ghost use Rattle.tree_steps.specs.Absorbed.{joined_values};

use crate::kept_faults::{kept_numbers, kept_of_numbers};
use crate::optional_values::{option_numbers, option_of_numbers, options_joined};
use crate::positioned_values::{later, positioned_numbers, positioned_of_numbers};
use hpf_base::OutOfMemory;
use op_tables::Join;
use slot_values::earlier;
use std::alloc::Global;

/// What goes round a tree, and so how two are joined.
#[derive(Clone, Copy, PartialEq, Eq)]
pub enum Joining {
    /// Kept faults, of which the one with the lower key is kept.
    Kept,
    /// Values that may be missing, joined.
    Options(Join),
    /// Values with their positions, of which the one at the later position is kept.
    Later,
}

impl Joining {
    /// What comes of both.
    pub(crate) fn joined(self, alloc: Global, a: &[i64], b: &[i64]) -> Result<Vec<i64>, OutOfMemory>
        ensures { IfOk result (λ v. v.items ≡ joined_values self a.now b.now) }
    {
        match self {
            Joining::Kept => kepts_joined(alloc, a, b),
            Joining::Options(op) => {
                let value = options_joined(op, option_of_numbers(a), option_of_numbers(b));
                option_numbers(alloc, value)
            }
            Joining::Later => {
                let last = later(positioned_of_numbers(a), positioned_of_numbers(b));
                positioned_numbers(alloc, last)
            }
        }
    }
}

/// The one with the lower key of two kept faults.
fn kepts_joined(alloc: Global, a: &[i64], b: &[i64]) -> Result<Vec<i64>, OutOfMemory>
    ensures { IfOk result (λ v. v.items ≡ joined_values Joining.Kept a.now b.now) }
{
    let first = kept_of_numbers(alloc, a)?;
    let second = kept_of_numbers(alloc, b)?;
    let kept = earlier(first, second);
    kept_numbers(alloc, &kept)
}

//! The refusal of a line unless a rule is kept.

ghost use Rattle.std.specs.Prelude.{◌≡◌, not};
ghost use Rattle.hpf_base.specs.FirstBreach.{least};
ghost use Rattle.declarations.specs.Reasons.{at, when};

use hpf_base::{Reason, Refusal};

/// A line is refused for this reason, unless all there is good. It takes no memory.
pub(crate) fn refused_unless(good: bool, line: u32, reason: Reason) -> Option<Refusal>
    ensures { result ≡ least (at line (when (not good) reason)) }
{
    if good {
        None
    } else {
        Some(Refusal { line, reason })
    }
}

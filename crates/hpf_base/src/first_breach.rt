//! The earlier of two breaches.

ghost use Rattle.std.specs.Prelude.{◌≡◌};
ghost use Rattle.hpf_base.specs.FirstBreach.{at_line, earlier, is_before};

use crate::refusal::{Reason, Refusal};

/// The first breach stands before the second.
fn is_before(a: Refusal, b: Refusal) -> bool
    ensures { result ≡ is_before a b }
{
    a.line < b.line || a.line == b.line && a.reason.number() < b.reason.number()
}

/// The earlier of two refusals that there may be: that of the lesser line or, on one line, of the lesser reason.
pub fn earlier(a: Option<Refusal>, b: Option<Refusal>) -> Option<Refusal>
    ensures { result ≡ earlier a b }
{
    match (a, b) {
        (None, _) => b,
        (Some(_), None) => a,
        (Some(x), Some(y)) => if is_before(y, x) { b } else { a },
    }
}

/// The breach at a line, where there is a reason for one.
pub fn at_line(line: u32, reason: Option<Reason>) -> Option<Refusal>
    ensures { result ≡ at_line line reason }
{
    match reason {
        Some(reason) => Some(Refusal { line, reason }),
        None => None,
    }
}

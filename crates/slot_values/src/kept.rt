//! Faults that are kept until a verdict.

ghost use Rattle.std.specs.Prelude.{◌≡◌, Some};
ghost use Rattle.machine_steps.specs.Machine.{earlier, is_before};
ghost use Rattle.slot_values.specs.KeptFaults.{kept_view, kepts};

use term_values::Fault;

/// A fault with its key: the number of its tuple, and then that of its part since the last verdict, both from 0.
#[derive(Drop)]
pub struct Kept {
    pub tuple: u64,
    pub part: u64,
    pub fault: Fault,
}

/// Of two faults the one with the lower key; the first, where the keys are alike. It takes no memory.
pub fn earlier(a: Option<Kept>, b: Option<Kept>) -> Option<Kept>
    ensures { kepts result ≡ earlier (kepts a) (kepts b) }
{
    match (a, b) {
        (None, b) => b,
        (Some(a), None) => Some(a),
        (Some(a), Some(b)) => Some(earlier_of(a, b)),
    }
}

/// Of two faults the one with the lower key; the first, where the keys are alike.
fn earlier_of(a: Kept, b: Kept) -> Kept
    ensures { Some (kept_view result) ≡ earlier (Some (kept_view a)) (Some (kept_view b)) }
{
    if is_before(&b, &a) { b } else { a }
}

/// Whether one key comes before another.
fn is_before(a: &Kept, b: &Kept) -> bool
    ensures { result ≡ is_before (kept_view a.now) (kept_view b.now) }
{
    a.tuple < b.tuple || (a.tuple == b.tuple && a.part < b.part)
}

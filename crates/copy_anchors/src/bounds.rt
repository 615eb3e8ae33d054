//! Whether a subscript is in bounds at all positions of its axis, and the alignment that it is then.

ghost use Rattle.std.specs.Prelude.{◌≡◌, ◌≤◌, ◌*◌, ◌+◌, ◌^◌, ℤ, pos, neg_ℤ, ◌+ℤ◌, ◌-ℤ◌, ◌*ℤ◌, ◌≤ℤ◌, FitsSigned, None, Some, if◌then◌else◌, true, unsigned_abs};
ghost use Rattle.std.specs.Int.{w64};
ghost use Rattle.hpf_base.specs.declared.limits.TheConstants.{MAX_BOUND};
ghost use Rattle.mappings.specs.declared.mapping.AlignDim.TheVariants.{Linear};
ghost use Rattle.aligned_copies.specs.Beside.{is_in};
ghost use Rattle.copy_anchors.specs.Settled.{inside_along};

use align_map::linear;
use mappings::AlignDim;

/// The alignment of a subscript that is `first` at position 1 of an axis with so many positions, and by `step` more at each next one; None
/// exactly where it isn't in bounds at all of them. What is tested are the first position, the second and the last: no number overflows, since
/// the step is small once two of them are in bounds.
pub(crate) fn inside_along(
    axis: u32,
    count: u32,
    lower: i64,
    extent: i64,
    first: i128,
    step: i128,
) -> Option<AlignDim>
    requires some { 1 ≤ count }
    requires lower { unsigned_abs lower ≤ MAX_BOUND }
    requires none { pos 0 ≤ℤ extent }
    requires extent { extent ≤ℤ pos (2 * MAX_BOUND + 1) }
    ensures { result ≡ inside_along axis count lower extent first step }
{
    if !is_in(lower, extent, first) {
        return None;
    }
    if count == 1 {
        return Some(AlignDim::At(narrow(first)));
    }
    if !is_next_in(lower, extent, first, step) {
        return None;
    }
    moving(axis, count, lower, extent, first, step)
}

/// The same where the first two positions are in bounds.
fn moving(
    axis: u32,
    count: u32,
    lower: i64,
    extent: i64,
    first: i128,
    step: i128,
) -> Option<AlignDim>
    requires lower { unsigned_abs lower ≤ MAX_BOUND }
    requires none { pos 0 ≤ℤ extent }
    requires extent { extent ≤ℤ pos (2 * MAX_BOUND + 1) }
    requires first { is_in lower extent first ≡ true }
    requires next { is_in lower extent (first +ℤ step) ≡ true }
    ensures { result ≡ (if is_in lower extent ((step *ℤ pos count) +ℤ (first -ℤ step)) then Some (Linear axis step (first -ℤ step)) else None) }
{
    let a = narrow(step);
    let b = before(first, step);
    if is_in(lower, extent, linear(a, count as i64, b)) {
        Some(AlignDim::Linear { dim: axis, a, b })
    } else {
        None
    }
}

/// Whether a subscript is in bounds.
pub(crate) fn is_in(lower: i64, extent: i64, subscript: i128) -> bool
    ensures { result ≡ is_in lower extent subscript }
{
    lower as i128 <= subscript && subscript < end(lower, extent)
}

/// The number past the last subscript of a dimension.
fn end(lower: i64, extent: i64) -> i128
    ensures { result ≡ lower +ℤ extent }
{
    lower as i128 + extent as i128
}

/// Whether a subscript is in bounds one step after this one.
fn is_next_in(lower: i64, extent: i64, first: i128, step: i128) -> bool
    ensures { result ≡ is_in lower extent (first +ℤ step) }
{
    match first.checked_add(step) {
        Some(next) => is_in(lower, extent, next),
        None => false,
    }
}

/// What a subscript would be one step before.
fn before(first: i128, step: i128) -> i64
    requires { FitsSigned w64 (first -ℤ step) }
    ensures { result ≡ first -ℤ step }
{
    (first - step) as i64
}

/// The number in 64 bits.
pub(crate) fn narrow(number: i128) -> i64
    requires { FitsSigned w64 number }
    ensures { result ≡ number }
{
    number as i64
}

//! Elements of an alignee inside the bounds of its target (HPF 2.0, 3.4).

ghost use Rattle.std.specs.Prelude.{◌≡◌, ◌+◌, ◌^◌, pos, neg_ℤ, ◌+ℤ◌, ◌*ℤ◌, ◌≤ℤ◌, int_le, option_map, IfSome, Some};
ghost use Rattle.distribution_rules.specs.Dimensions.{is_empty_dim};
ghost use Rattle.alignment_rules.specs.AlignmentRules.{are_ends_in, has_elements, is_along_inside, is_entry_inside, is_inside, lies_in};
ghost use Rattle.alignment_rules.specs.WideEntries.{IsNear, align_dim};

use crate::entries::{WideAlign, difference, extent, product, wide};
use crate::pairs::dim_at;
use expression_rules::Dim;
use mappings::AlignDim;

/// It is known that the dimension is empty.
fn is_empty_dim(dim: Option<Dim>) -> bool
    ensures { result ≡ is_empty_dim dim }
{
    match dim {
        None => false,
        Some(dim) => extent(dim) == 0,
    }
}

/// An array of these dimensions has elements, as far as is known. It takes no memory.
#[tactic(auto, using(crate::proofs::PairReasons::or_assoc))]
pub fn has_elements(dims: &[Option<Dim>]) -> bool
    ensures { result ≡ has_elements dims.now }
{
    let mut empty = false;
    for dim in dims {
        empty |= is_empty_dim(*dim);
    }
    !empty
}

/// `a` is at most `b`.
fn at_most(a: i128, b: i128) -> bool
    ensures { result ≡ int_le a b }
{
    a <= b
}

/// `low` is at most `p + c`.
#[tactic(auto, using(crate::proofs::Orders::low_moved))]
fn is_above(low: i64, p: i128, c: i128) -> bool
    requires least { neg_ℤ (pos (2 ^ 126 + 2 ^ 63)) ≤ℤ c }
    requires most { c ≤ℤ pos (2 ^ 126 + 2 ^ 63) }
    ensures { result ≡ int_le low (p +ℤ c) }
{
    at_most(difference(wide(low), c), p)
}

/// `p + c` is at most `high`.
#[tactic(auto, using(crate::proofs::Orders::high_moved))]
fn is_below(high: i64, p: i128, c: i128) -> bool
    requires least { neg_ℤ (pos (2 ^ 126 + 2 ^ 63)) ≤ℤ c }
    requires most { c ≤ℤ pos (2 ^ 126 + 2 ^ 63) }
    ensures { result ≡ int_le (p +ℤ c) high }
{
    at_most(p, difference(wide(high), c))
}

/// `a * i + c` lies in the bounds.
fn lies_in_at(bounds: Dim, a: i64, i: i64, c: i128) -> bool
    requires least { neg_ℤ (pos (2 ^ 126 + 2 ^ 63)) ≤ℤ c }
    requires most { c ≤ℤ pos (2 ^ 126 + 2 ^ 63) }
    ensures { result ≡ lies_in bounds ((a *ℤ i) +ℤ c) }
{
    let p = product(a, i);
    is_above(bounds.lower, p, c) && is_below(bounds.upper, p, c)
}

/// A subscript lies in the bounds.
fn lies_in(bounds: Dim, i: i64) -> bool
    ensures { result ≡ lies_in bounds i }
{
    bounds.lower <= i && i <= bounds.upper
}

/// The first and the last subscript of a dimension, where they are known, are given subscripts inside the bounds.
fn is_along_inside(bounds: Dim, a: i64, c: i128, along: Option<Dim>) -> bool
    requires least { neg_ℤ (pos (2 ^ 126 + 2 ^ 63)) ≤ℤ c }
    requires most { c ≤ℤ pos (2 ^ 126 + 2 ^ 63) }
    ensures { result ≡ is_along_inside bounds a c along }
{
    match along {
        None => true,
        Some(d) => lies_in_at(bounds, a, d.lower, c) && lies_in_at(bounds, a, d.upper, c),
    }
}

/// Every element of an alignee of these dimensions, and every constant subscript, lies inside the bounds.
fn is_entry_inside(dims: &[Option<Dim>], entry: WideAlign, bounds: Dim) -> bool
    requires { IsNear entry }
    ensures { result ≡ is_entry_inside dims.now (align_dim entry) bounds }
{
    match entry {
        WideAlign::Linear(dim, a, c) => {
            !has_elements(dims) || is_along_inside(bounds, a, c, dim_at(dims, dim as usize))
        }
        WideAlign::At(v) => lies_in(bounds, v),
        WideAlign::Every => true,
    }
}

/// Every element of an alignee of these dimensions, and every constant subscript, lies inside the bounds, as far as these and the entry
/// are known.
pub(crate) fn is_wide_inside(
    dims: &[Option<Dim>],
    entry: Option<WideAlign>,
    bounds: Option<Dim>,
) -> bool
    requires { IfSome entry IsNear }
    ensures { result ≡ is_inside dims.now (option_map align_dim entry) bounds }
{
    match (entry, bounds) {
        (Some(entry), Some(bounds)) => is_entry_inside(dims, entry, bounds),
        _ => true,
    }
}

/// The entry with its offset in 128 bits.
fn widened(entry: &AlignDim) -> WideAlign
    ensures value { align_dim result ≡ entry.now }
    ensures near { IsNear result }
{
    match *entry {
        AlignDim::Linear { dim, a, b } => WideAlign::Linear(dim, a, b as i128),
        AlignDim::At(v) => WideAlign::At(v),
        AlignDim::Every => WideAlign::Every,
    }
}

/// Every element of an alignee of these dimensions, and every constant subscript, lies inside the bounds of the target's dimension, as far
/// as they are known. It takes no memory.
pub fn is_inside(dims: &[Option<Dim>], entry: &AlignDim, bounds: Option<Dim>) -> bool
    ensures { result ≡ is_inside dims.now (Some entry.now) bounds }
{
    match bounds {
        None => true,
        Some(bounds) => is_entry_inside(dims, widened(entry), bounds),
    }
}

//! What the dimensions of an align target are given, in numbers wide enough for all of them (HPF 2.0, 3.4).

ghost use Rattle.std.specs.Prelude.{◌≡◌, ◌≢◌, ◌+◌, ◌^◌, pos, neg_ℤ, int_div, ◌+ℤ◌, ◌-ℤ◌, ◌*ℤ◌, ◌≤ℤ◌, option_map, IfSome, None};
ghost use Rattle.expression_rules.specs.Dims.{at_least_none, extent};
ghost use Rattle.alignment_rules.specs.AlignmentEntries.{entry_of, is_past_limits, pair, subscript_entry};
ghost use Rattle.alignment_rules.specs.AlignmentRules.{has_extent, is_unpaired, triplet_count};
ghost use Rattle.alignment_rules.specs.WideEntries.{IsNear, align_dim};

use crate::alignment_values::{Pair, TargetValue};
use crate::limits::{MAX_ALIGN_FACTOR, MAX_ALIGN_OFFSET};
use expression_rules::Dim;
use hpf_base::Name;
use linear_subscripts::LinearForm;

/// What a dimension of the target is given: `a * i + b` of the subscript i of a dimension, one subscript, or every one.
#[derive(Clone, Copy)]
pub(crate) enum WideAlign {
    Linear(u32, i64, i128),
    At(i64),
    Every,
}

/// `a * b`, which is at most 2^126 in magnitude.
pub(crate) fn product(a: i64, b: i64) -> i128
    ensures value { result ≡ a *ℤ b }
    ensures least { neg_ℤ (pos (2 ^ 126)) ≤ℤ result }
    ensures most { result ≤ℤ pos (2 ^ 126) }
{
    a as i128 * b as i128
}

/// The number in 128 bits.
pub(crate) fn wide(number: i64) -> i128
    ensures value { result ≡ number }
    ensures least { neg_ℤ (pos (2 ^ 63)) ≤ℤ result }
    ensures most { result ≤ℤ pos (2 ^ 63) }
{
    number as i128
}

/// `a - b`.
pub(crate) fn difference(a: i128, b: i128) -> i128
    requires a_least { neg_ℤ (pos (2 ^ 63)) ≤ℤ a }
    requires a_most { a ≤ℤ pos (2 ^ 63) }
    requires b_least { neg_ℤ (pos (2 ^ 126 + 2 ^ 63)) ≤ℤ b }
    requires b_most { b ≤ℤ pos (2 ^ 126 + 2 ^ 63) }
    ensures { result ≡ a -ℤ b }
{
    a - b
}

/// `a + b`.
fn sum(a: i128, b: i128) -> i128
    requires a_least { neg_ℤ (pos (2 ^ 65)) ≤ℤ a }
    requires a_most { a ≤ℤ pos (2 ^ 65) }
    requires b_least { neg_ℤ (pos (2 ^ 65)) ≤ℤ b }
    requires b_most { b ≤ℤ pos (2 ^ 65) }
    ensures { result ≡ a +ℤ b }
{
    a + b
}

/// b of the subscript `step * i + b` that is `first` where i is `lower`.
fn triplet_offset(first: i64, lower: i64, step: i64) -> i128
    ensures value { result ≡ first -ℤ (lower *ℤ step) }
    ensures least { neg_ℤ (pos (2 ^ 126 + 2 ^ 63)) ≤ℤ result }
    ensures most { result ≤ℤ pos (2 ^ 126 + 2 ^ 63) }
{
    difference(wide(first), product(lower, step))
}

/// What a subscript of this form is given.
fn form_entry(name: Option<Name>, dim: u32, form: LinearForm) -> WideAlign
    ensures value { align_dim result ≡ subscript_entry name dim form }
    ensures near { IsNear result }
{
    match name {
        None => WideAlign::At(form.b),
        Some(_) => WideAlign::Linear(dim, form.a, form.b as i128),
    }
}

/// What a subscript is given, where its form is known.
fn subscript_entry(name: Option<Name>, dim: u32, form: Option<LinearForm>) -> Option<WideAlign>
    ensures value { option_map align_dim result ≡ option_map (subscript_entry name dim) form }
    ensures near { IfSome result IsNear }
{
    match form {
        None => None,
        Some(form) => Some(form_entry(name, dim, form)),
    }
}

/// What a triplet is given, where all that it takes is known.
fn triplet_entry(
    dim: u32,
    first: Option<i64>,
    step: Option<i64>,
    along: Option<Dim>,
) -> Option<WideAlign>
    ensures value { option_map align_dim result ≡ entry_of (pair (TargetValue.Triplet first None step) None dim along) }
    ensures near { IfSome result IsNear }
{
    match (first, step, along) {
        (Some(first), Some(step), Some(d)) => Some(WideAlign::Linear(
            dim,
            step,
            triplet_offset(first, d.lower, step),
        )),
        _ => None,
    }
}

/// What a dimension of the target is given, where it is known.
#[tactic(auto, using(crate::proofs::EntryForms::subscript_is, crate::proofs::EntryForms::triplet_is))]
pub(crate) fn entry_of(pair: &Pair) -> Option<WideAlign>
    ensures value { option_map align_dim result ≡ entry_of pair.now }
    ensures near { IfSome result IsNear }
{
    match pair.value {
        TargetValue::Every => Some(WideAlign::Every),
        TargetValue::Subscript(name, form) => subscript_entry(name, pair.dim, form),
        TargetValue::Triplet(first, _, step) => triplet_entry(pair.dim, first, step, pair.along),
    }
}

/// A number in it is past its limit.
pub(crate) fn is_past_limits(entry: WideAlign) -> bool
    ensures { result ≡ is_past_limits (align_dim entry) }
{
    match entry {
        WideAlign::Linear(_, a, b) => {
            a.unsigned_abs() > MAX_ALIGN_FACTOR || b.unsigned_abs() > MAX_ALIGN_OFFSET as u128
        }
        WideAlign::At(_) | WideAlign::Every => false,
    }
}

/// 0 in place of a negative number.
fn at_least_none(number: i128) -> u128
    ensures { result ≡ at_least_none number }
{
    if number < 0 { 0 } else { number as u128 }
}

/// How far the upper bound is above the lower one, and one more.
fn span(dim: Dim) -> i128
    ensures { result ≡ dim.upper -ℤ dim.lower +ℤ pos 1 }
{
    sum(difference(wide(dim.upper), wide(dim.lower)), 1)
}

/// How many subscripts lie in the bounds.
pub(crate) fn extent(dim: Dim) -> u128
    ensures { result ≡ extent dim }
{
    at_least_none(span(dim))
}

/// How far a step after the last subscript of a triplet is above the first.
fn reach(first: i64, last: i64, step: i64) -> i128
    ensures value { result ≡ last -ℤ first +ℤ step }
    ensures least { neg_ℤ (pos (2 ^ 66)) ≤ℤ result }
    ensures most { result ≤ℤ pos (2 ^ 66) }
{
    sum(difference(wide(last), wide(first)), wide(step))
}

/// The quotient, toward zero.
fn quotient(number: i128, step: i128) -> i128
    requires some { step ≢ pos 0 }
    requires least { neg_ℤ (pos (2 ^ 66)) ≤ℤ number }
    requires most { number ≤ℤ pos (2 ^ 66) }
    ensures { result ≡ int_div number step }
{
    number / step
}

/// How many subscripts a triplet stands for.
fn triplet_count(first: i64, last: i64, step: i64) -> u128
    requires { step ≢ pos 0 }
    ensures { result ≡ triplet_count first last step }
{
    at_least_none(quotient(reach(first, last, step), wide(step)))
}

/// A triplet stands for as many subscripts as a dimension has, as far as is known; a stride of 0 breaks another rule.
fn triplet_has_extent(first: Option<i64>, last: Option<i64>, step: Option<i64>, dim: Dim) -> bool
    ensures { result ≡ has_extent (TargetValue.Triplet first last step) dim }
{
    match (first, last, step) {
        (Some(first), Some(last), Some(step)) => {
            step == 0 || triplet_count(first, last, step) == extent(dim)
        }
        _ => true,
    }
}

/// What stands for a dimension of the target, where it is a triplet, stands for as many subscripts as a dimension has.
fn has_extent(value: TargetValue, dim: Dim) -> bool
    ensures { result ≡ has_extent value dim }
{
    match value {
        TargetValue::Triplet(first, last, step) => triplet_has_extent(first, last, step, dim),
        TargetValue::Subscript(_, _) | TargetValue::Every => true,
    }
}

/// A triplet doesn't stand for as many subscripts as the dimension that it goes with has.
pub(crate) fn is_unpaired(pair: &Pair) -> bool
    ensures { result ≡ is_unpaired pair.now }
{
    match pair.along {
        None => false,
        Some(dim) => !has_extent(pair.value, dim),
    }
}

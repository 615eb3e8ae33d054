//! The rules of alignments one after the other (HPF 2.0, 3.4).

ghost use Rattle.std.specs.Prelude.{◌≡◌, ◌≤◌, ◌++◌, length, All, IfOk};
ghost use Rattle.hpf_base.specs.FirstBreach.{least};
ghost use Rattle.declarations.specs.declared.limits.TheConstants.{MAX_NAMES};
ghost use Rattle.hpf_base.specs.declared.refusal.Reason.TheVariants as reason;
ghost use Rattle.declarations.specs.Declaring.{least_reason};
ghost use Rattle.declarations.specs.Reasons.{when};
ghost use Rattle.directive_check.specs.ChainSteps.{IsJudged, chain_breaches_in};
ghost use Rattle.directive_check.specs.MappingRules.{chain_breaches, chain_reasons, is_past};
ghost use Rattle.directive_check.specs.MappedSteps.{mapped};
ghost use Rattle.directive_check.specs.WideAlignments.{are_wide_inside, is_wide_entry_inside, is_wide_inside, is_wide_outside, wide_ends_in, wide_lies_in};

use crate::chains::is_composed;
use crate::composed_alignments::{WideAlign, WideDims, narrow_alignment};
use crate::dims::{all_fit, dim_at};
use crate::mapped_object::MappedObject;
use crate::root_alignments::{is_on_cycle, root_of, wide_alignment};
use alignment_rules::{Alignment, has_elements};
use distribution_rules::{Setting, dims_of, lesser, reason_if};
use expression_rules::Dim;
use hpf_base::{Name, Reason, Refusal, at_line, earlier};
use std::alloc::{AllocError, Global};

/// The first of what is wrong with mapped objects among the others, where these are mapped, each as it is mapped first. An `Err` is want
/// of memory, here and below.
pub(crate) fn first_bad_chain(
    alloc: Global,
    setting: &Setting<'_>,
    firsts: &[MappedObject<'_>],
    objects: &[MappedObject<'_>],
) -> Result<Option<Refusal>, AllocError>
    requires judged { All (IsJudged setting.now) firsts.now }
    requires few { length setting.now.names ≤ MAX_NAMES }
    ensures { IfOk result (λ r. r ≡ least (chain_breaches_in setting.now (mapped firsts.now) (mapped objects.now))) }
{
    let mut first = None;
    for object in objects {
        let reason = chain_reason(alloc, setting, firsts, object.name)?;
        first = earlier(first, at_line(object.line, reason));
    }
    Ok(first)
}

/// The least reason for which an object breaks a rule among the others.
fn chain_reason(
    alloc: Global,
    setting: &Setting<'_>,
    objects: &[MappedObject<'_>],
    name: &Name,
) -> Result<Option<Reason>, AllocError>
    requires judged { All (IsJudged setting.now) objects.now }
    requires few { length setting.now.names ≤ MAX_NAMES }
    ensures { IfOk result (λ r. r ≡ least_reason (chain_reasons setting.now (mapped objects.now) name.now)) }
{
    let found = wide_alignment(alloc, setting, objects, name)?;
    let alignment = narrow_alignment(alloc, &found)?;
    let past = is_composed(objects, name) & is_past(&alignment);
    let root = root_of(setting, objects, name);
    let bounds = dims_of(setting, &root);
    all_fit(bounds);
    let outside = is_outside(setting, name, &found, bounds);
    let cycle = is_on_cycle(setting, objects, name);
    Ok(least_of(cycle, past, outside))
}

/// The least of the reasons of which these tests hold.
#[tactic(auto, using(distribution_rules::proofs::LeastReasons::reason_more, distribution_rules::proofs::LeastReasons::two_reasons))]
fn least_of(cycle: bool, past: bool, outside: bool) -> Option<Reason>
    ensures { result ≡ least_reason (when cycle reason.BadDirective ++ when past reason.Limit ++ when outside reason.BadDirective) }
{
    let inner = lesser(
        reason_if(cycle, Reason::BadDirective),
        reason_if(past, Reason::Limit),
    );
    lesser(inner, reason_if(outside, Reason::BadDirective))
}

fn is_past(alignment: &Alignment) -> bool
    ensures { result ≡ is_past alignment.now }
{
    matches!(alignment, Alignment::PastLimits)
}

/// An element of an array lies outside the bounds of what its alignments end at.
fn is_outside(
    setting: &Setting<'_>,
    name: &Name,
    found: &Option<WideDims>,
    bounds: &[Option<Dim>],
) -> bool
    ensures { result ≡ is_wide_outside setting.now name.now found.now bounds.now }
{
    match found {
        None => false,
        Some(entries) => {
            let dims = dims_of(setting, name);
            has_elements(dims) & !are_inside(dims, entries.as_slice(), bounds)
        }
    }
}

/// Every element of an object of these dimensions lies inside these bounds.
fn are_inside(dims: &[Option<Dim>], entries: &[WideAlign], bounds: &[Option<Dim>]) -> bool
    ensures { result ≡ are_wide_inside dims.now entries.now bounds.now }
{
    let mut all = true;
    for place in 0..entries.len() {
        let bound = dim_at(bounds, place);
        all &= is_inside(dims, &entries[place], bound);
    }
    all
}

fn is_inside(dims: &[Option<Dim>], entry: &WideAlign, bounds: Option<Dim>) -> bool
    ensures { result ≡ is_wide_inside dims.now entry.now bounds }
{
    match bounds {
        None => true,
        Some(bounds) => is_entry_inside(dims, entry, bounds),
    }
}

fn is_entry_inside(dims: &[Option<Dim>], entry: &WideAlign, bounds: Dim) -> bool
    ensures { result ≡ is_wide_entry_inside dims.now entry.now bounds }
{
    match *entry {
        WideAlign::Linear {
            dim,
            first,
            last,
            ..
        } => !has_elements(dims) || are_ends_in(bounds, first, last, dim_at(dims, dim as usize)),
        WideAlign::At(v) => lies_in(bounds, v),
        WideAlign::Every => true,
    }
}

/// The first and the last subscript lie in the bounds, where the dimension along which they move is known.
fn are_ends_in(bounds: Dim, first: Option<i128>, last: Option<i128>, along: Option<Dim>) -> bool
    ensures { result ≡ wide_ends_in bounds first last along }
{
    match along {
        None => true,
        Some(_) => lies_in(bounds, first) && lies_in(bounds, last),
    }
}

/// A subscript lies in the bounds; one that is far does not.
fn lies_in(bounds: Dim, subscript: Option<i128>) -> bool
    ensures { result ≡ wide_lies_in bounds subscript }
{
    match subscript {
        None => false,
        Some(i) => bounds.lower as i128 <= i && i <= bounds.upper as i128,
    }
}

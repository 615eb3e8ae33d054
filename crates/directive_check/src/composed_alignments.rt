//! The entries of alignments one after the other (HPF 2.0, 3.4).

ghost use Rattle.std.specs.Prelude.{◌≡◌, map, slice_index_or, IfOk, Some};
ghost use Rattle.mappings.specs.declared.mapping.AlignDim.TheVariants.{At, Every, Linear};
ghost use Rattle.distribution_rules.specs.Distributed.{all_or_none};
ghost use Rattle.directive_check.specs.declared.composed_alignments.WideAlign.TheVariants as wide;
ghost use Rattle.directive_check.specs.Chains.{known_or_past, within_limits};
ghost use Rattle.directive_check.specs.WideAlignments.{narrow_alignment, narrowed, wide_again, wide_linear, wide_through, widened};

use crate::dims::dim_at;
use crate::subscripts::linear;
use crate::wide_numbers::advanced;
use alignment_rules::{AlignDims, Alignment, MAX_ALIGN_FACTOR, MAX_ALIGN_OFFSET};
use expression_rules::Dim;
use mappings::AlignDim;
use std::alloc::{AllocError, Global};
use std::marker::Model;

/// What a dimension of an object is given for an element of an alignee: `a * i + b` of the subscript i of its dimension `dim`, and what
/// that is at the first and the last i, where its bounds are known; one subscript; or every one. A number that is None is far past the
/// limits.
#[derive(Clone, Copy)]
pub(crate) enum WideAlign {
    Linear {
        dim: u32,
        a: Option<i128>,
        b: Option<i128>,
        first: Option<i128>,
        last: Option<i128>,
    },
    At(Option<i128>),
    Every,
}

/// Those of all dimensions, the first one first. Contracts see the list.
#[derive(Drop)]
pub(crate) struct WideDims {
    entries: Vec<WideAlign>,
}

impl Model for WideDims {
    ghost use Rattle.std.specs.Prelude.{List};
    ghost use Rattle.directive_check.specs.declared.composed_alignments.WideAlign.{WideAlign};

    ghost Value = { List WideAlign };

    ghost view = { λ d. d.entries.items };
}

impl WideDims {
    /// These entries. It takes no memory.
    fn new(entries: Vec<WideAlign>) -> WideDims
        ensures { result ≡ entries.items }
    {
        WideDims { entries }
    }

    /// The entries in order.
    pub(crate) fn as_slice(&self) -> &[WideAlign]
        ensures { result.now ≡ self.now }
    {
        &self.entries
    }
}

/// The entries of an alignment by itself, for an alignee of these dimensions. An `Err` is want of memory, here and below.
pub(crate) fn all_widened(
    alloc: Global,
    dims: &[Option<Dim>],
    entries: &[AlignDim],
) -> Result<WideDims, AllocError>
    ensures { IfOk result (λ es. es ≡ map (widened dims.now) entries.now) }
{
    let mut wide = Vec::new(alloc);
    for entry in entries {
        wide.push(widened(dims, entry))?;
    }
    Ok(WideDims::new(wide))
}

fn widened(dims: &[Option<Dim>], entry: &AlignDim) -> WideAlign
    ensures { result ≡ widened dims.now entry.now }
{
    match *entry {
        AlignDim::Linear { dim, a, b } => wide_linear(dim, a, b, dim_at(dims, dim as usize)),
        AlignDim::At(v) => WideAlign::At(Some(v as i128)),
        AlignDim::Every => WideAlign::Every,
    }
}

fn wide_linear(dim: u32, a: i64, b: i64, along: Option<Dim>) -> WideAlign
    ensures { result ≡ wide_linear dim a b along }
{
    match along {
        None => WideAlign::Linear {
            dim,
            a: Some(a as i128),
            b: Some(b as i128),
            first: None,
            last: None,
        },
        Some(d) => WideAlign::Linear {
            dim,
            a: Some(a as i128),
            b: Some(b as i128),
            first: Some(linear(a, d.lower, b)),
            last: Some(linear(a, d.upper, b)),
        },
    }
}

/// The entries of the next alignment of a chain, through those that lead to it.
pub(crate) fn all_through(
    alloc: Global,
    so_far: &[WideAlign],
    entries: &[AlignDim],
) -> Result<WideDims, AllocError>
    ensures { IfOk result (λ es. es ≡ map (wide_through so_far.now) entries.now) }
{
    let mut wide = Vec::new(alloc);
    for entry in entries {
        wide.push(wide_through(so_far, entry))?;
    }
    Ok(WideDims::new(wide))
}

fn wide_through(so_far: &[WideAlign], entry: &AlignDim) -> WideAlign
    ensures { result ≡ wide_through so_far.now entry.now }
{
    match *entry {
        AlignDim::Linear { dim, a, b } => wide_again(a, b, wide_at(so_far, dim)),
        AlignDim::At(v) => WideAlign::At(Some(v as i128)),
        AlignDim::Every => WideAlign::Every,
    }
}

/// What a dimension of the target is given.
fn wide_at(so_far: &[WideAlign], dim: u32) -> WideAlign
    ensures { result ≡ slice_index_or so_far.now dim wide.Every }
{
    match so_far.get(dim as usize) {
        Some(entry) => *entry,
        None => WideAlign::Every,
    }
}

/// `a * i + b` of the subscript i that `inner` gives.
fn wide_again(a: i64, b: i64, inner: WideAlign) -> WideAlign
    ensures { result ≡ wide_again a b inner }
{
    match inner {
        WideAlign::Linear {
            dim,
            a: step,
            b: start,
            first,
            last,
        } => WideAlign::Linear {
            dim,
            a: advanced(a, step, 0),
            b: advanced(a, start, b),
            first: advanced(a, first, b),
            last: advanced(a, last, b),
        },
        WideAlign::At(v) => WideAlign::At(advanced(a, v, b)),
        WideAlign::Every => WideAlign::Every,
    }
}

/// What a dimension of a target is given.
pub(crate) fn entry_at(entries: &[AlignDim], dim: u32) -> AlignDim
    ensures { result ≡ slice_index_or entries.now dim Every }
{
    match entries.get(dim as usize) {
        Some(entry) => *entry,
        None => AlignDim::Every,
    }
}

/// The alignment with these entries, where it is known and within the limits.
pub(crate) fn narrow_alignment(
    alloc: Global,
    found: &Option<WideDims>,
) -> Result<Alignment, AllocError>
    ensures { IfOk result (λ a. a ≡ narrow_alignment found.now) }
{
    match found {
        None => Ok(Alignment::Unknown),
        Some(entries) => {
            let narrow = all_narrowed(alloc, entries.as_slice())?;
            Ok(narrow)
        }
    }
}

fn all_narrowed(alloc: Global, entries: &[WideAlign]) -> Result<Alignment, AllocError>
    ensures { IfOk result (λ a. a ≡ known_or_past (all_or_none narrowed entries.now)) }
{
    let mut narrow = Vec::new(alloc);
    for entry in entries {
        match narrowed(entry) {
            Some(entry) => narrow.push(entry)?,
            None => return Ok(Alignment::PastLimits),
        }
    }
    Ok(Alignment::Known(AlignDims::new(narrow)))
}

/// The entry, where it is within the limits.
fn narrowed(entry: &WideAlign) -> Option<AlignDim>
    ensures { result ≡ narrowed entry.now }
{
    match *entry {
        WideAlign::Linear { dim, a, b, .. } => match (a, b) {
            (Some(a), Some(b)) => linear_within(dim, a, b),
            _ => None,
        },
        WideAlign::At(Some(v)) => at_within(v),
        WideAlign::At(None) => None,
        WideAlign::Every => Some(AlignDim::Every),
    }
}

fn linear_within(dim: u32, a: i128, b: i128) -> Option<AlignDim>
    ensures { result ≡ within_limits (Linear dim a b) }
{
    if a.unsigned_abs() > MAX_ALIGN_FACTOR as u128 || b.unsigned_abs() > MAX_ALIGN_OFFSET as u128 {
        None
    } else {
        Some(AlignDim::Linear {
            dim,
            a: a as i64,
            b: b as i64,
        })
    }
}

fn at_within(v: i128) -> Option<AlignDim>
    ensures { result ≡ within_limits (At v) }
{
    if v.unsigned_abs() > MAX_ALIGN_OFFSET as u128 {
        None
    } else {
        Some(AlignDim::At(v as i64))
    }
}

//! The alignment of an alignee (HPF 2.0, 3.4).

ghost use Rattle.std.specs.Prelude.{◌≡◌, ◌||◌, ◌∷◌, ◌++◌, [], false, not, map, option_copied, option_map, if◌then◌else◌, IfOk, Some};
ghost use Rattle.std.specs.List.{flat_map};
ghost use Rattle.hpf_base.specs.declared.refusal.Reason.TheVariants as reason;
ghost use Rattle.syntax_tree.specs.Directive.{alignment, source_of};
ghost use Rattle.declarations.specs.Declaring.{least_reason};
ghost use Rattle.distribution_rules.specs.Dimensions.{passes};
ghost use Rattle.distribution_rules.specs.Setting.{has_kind, is_array_kind};
ghost use Rattle.alignment_rules.specs.AlignmentEntries.{alignment_of, alignment_with, entry_of, is_past_limits, pairs};
ghost use Rattle.alignment_rules.specs.AlignmentRules.{alignee_reasons, are_matched, pair_reasons};
ghost use Rattle.alignment_rules.specs.AlignmentValues.{target_values};
ghost use Rattle.alignment_rules.specs.WideEntries.{align_dim, joined, single};
ghost use Rattle.alignment_rules.specs.declared.alignment_values.Alignment.TheVariants.{Known};
ghost use Rattle.distribution_rules.specs.Distributed.{all_or_none};

use crate::alignment_values::{AlignDims, Alignment, Pair, TargetValue, TargetValues};
use crate::alignments::lesser_of_two;
use crate::entries::{WideAlign, entry_of, is_past_limits, is_unpaired};
use crate::inside::is_wide_inside;
use crate::pairs::{are_matched, pairs};
use crate::sources::sources;
use distribution_rules::{Object, ObjectKind, Setting, dims_of, lesser};
use expression_rules::Dim;
use hpf_base::{Name, Reason};
use mappings::AlignDim;
use std::alloc::{AllocError, Global};
use syntax_tree::{AlignSpec, Source};

/// It is known that a number is past its limit.
fn is_known_past_limits(entry: Option<WideAlign>) -> bool
    ensures { result ≡ passes is_past_limits (option_map align_dim entry) }
{
    match entry {
        None => false,
        Some(entry) => is_past_limits(entry),
    }
}

/// The least reason for which the alignment of an array breaks a rule in a dimension of the target.
fn pair_reason(dims: &[Option<Dim>], pair: &Pair) -> Option<Reason>
    ensures { result ≡ least_reason (pair_reasons dims.now pair.now) }
{
    let entry = entry_of(pair);
    let inside = is_wide_inside(dims, entry, pair.bounds);
    lesser_of_two(
        is_known_past_limits(entry),
        Reason::Limit,
        is_unpaired(pair) || !inside,
        Reason::BadDirective,
    )
}

/// The least reason for which the alignment of an array breaks a rule in one of these dimensions of the target.
fn pairs_reason(dims: &[Option<Dim>], pairs: &[Pair]) -> Option<Reason>
    ensures { result ≡ least_reason (flat_map (pair_reasons dims.now) pairs.now) }
{
    let mut least = None;
    for pair in pairs {
        let found = pair_reason(dims, pair);
        least = lesser(least, found);
    }
    least
}

/// It is an array.
fn is_array(object: Option<&Object>) -> bool
    ensures { result ≡ has_kind is_array_kind (option_copied object.entry) }
{
    match object {
        None => false,
        Some(object) => matches!(object.kind, ObjectKind::Array),
    }
}

/// The least reason for which the alignment of an object of these dimensions breaks a rule, where these are the entries of both sides and
/// the target's dimensions. An `Err` is want of memory, here and below.
fn entries_reason(
    alloc: Global,
    sources: &[Source],
    dims: &[Option<Dim>],
    values: &[TargetValue],
    bounds: &[Option<Dim>],
    array: bool,
) -> Result<Option<Reason>, AllocError>
    ensures { IfOk result (λ r. r ≡ least_reason (if not array || not (are_matched (map source_of sources.now) dims.now values.now bounds.now) then reason.BadDirective ∷ []
        else flat_map (pair_reasons dims.now) (pairs (map source_of sources.now) dims.now values.now bounds.now))) }
{
    if !array || !are_matched(sources, dims, values, bounds) {
        return Ok(Some(Reason::BadDirective));
    }
    let pairs = pairs(alloc, sources, dims, values, bounds)?;
    Ok(pairs_reason(dims, &pairs))
}

/// The least reason for which the alignment of an object breaks a rule; None exactly where it breaks none. `values` are what stands for
/// the dimensions of the target. An `Err` is want of memory.
pub fn bad_alignee(
    alloc: Global,
    setting: &Setting<'_>,
    spec: &AlignSpec,
    values: &TargetValues,
    alignee: &Name,
) -> Result<Option<Reason>, AllocError>
    requires { values.now ≡ target_values setting.now (alignment spec.now) }
    ensures { IfOk result (λ r. r ≡ least_reason (alignee_reasons setting.now (alignment spec.now) alignee.now)) }
{
    let dims = dims_of(setting, alignee);
    let array = is_array(setting.object(alignee));
    let entries = sources(alloc, spec, dims.len())?;
    let bounds = dims_of(setting, &spec.target);
    let least = entries_reason(alloc, &entries, dims, values.as_slice(), bounds, array)?;
    Ok(least)
}

/// What the dimension is given, with numbers of 64 bits.
fn narrowed(entry: WideAlign) -> AlignDim
    requires { is_past_limits (align_dim entry) ≡ false }
    ensures { result ≡ align_dim entry }
{
    match entry {
        WideAlign::Linear(dim, a, b) => AlignDim::Linear {
            dim,
            a,
            b: b as i64,
        },
        WideAlign::At(v) => AlignDim::At(v),
        WideAlign::Every => AlignDim::Every,
    }
}

/// An alignment with one dimension of the target more.
fn with_entry(so_far: Alignment, entry: Option<WideAlign>) -> Result<Alignment, AllocError>
    ensures { IfOk result (λ a. a ≡ joined so_far (single (option_map align_dim entry))) }
{
    match (so_far, entry) {
        (Alignment::Unknown, _) => Ok(Alignment::Unknown),
        (_, None) => Ok(Alignment::Unknown),
        (Alignment::PastLimits, Some(_)) => Ok(Alignment::PastLimits),
        (Alignment::Known(dims), Some(entry)) => with_wide(dims, entry),
    }
}

/// A known alignment with one known dimension of the target more.
fn with_wide(dims: AlignDims, entry: WideAlign) -> Result<Alignment, AllocError>
    ensures { IfOk result (λ a. a ≡ joined (Known dims) (single (Some (align_dim entry)))) }
{
    if is_past_limits(entry) {
        return Ok(Alignment::PastLimits);
    }
    let dims = pushed(dims, narrowed(entry))?;
    Ok(Alignment::Known(dims))
}

/// One dimension more.
fn pushed(dims: AlignDims, entry: AlignDim) -> Result<AlignDims, AllocError>
    ensures { IfOk result (λ d. d ≡ dims ++ entry ∷ []) }
{
    let mut entries = dims.into_vec();
    entries.push(entry)?;
    Ok(AlignDims::new(entries))
}

/// The alignment that the dimensions of a target give.
#[tactic(auto, using(crate::proofs::Joined::none_joined, crate::proofs::Joined::joined_none))]
fn alignment_with(alloc: Global, pairs: &[Pair]) -> Result<Alignment, AllocError>
    ensures { IfOk result (λ a. a ≡ alignment_with (all_or_none entry_of pairs.now)) }
{
    let mut found = Alignment::Known(AlignDims::new(Vec::new(alloc)));
    for pair in pairs {
        found = with_entry(found, entry_of(pair))?;
    }
    Ok(found)
}

/// The alignment of an object: what each dimension of the target is given, where all of it is known. `values` are what stands for the
/// dimensions of the target. An `Err` is want of memory.
pub fn alignment_of(
    alloc: Global,
    setting: &Setting<'_>,
    spec: &AlignSpec,
    values: &TargetValues,
    alignee: &Name,
) -> Result<Alignment, AllocError>
    requires { values.now ≡ target_values setting.now (alignment spec.now) }
    ensures { IfOk result (λ a. a ≡ alignment_of setting.now (alignment spec.now) alignee.now) }
{
    let dims = dims_of(setting, alignee);
    let entries = sources(alloc, spec, dims.len())?;
    let bounds = dims_of(setting, &spec.target);
    let pairs = pairs(alloc, &entries, dims, values.as_slice(), bounds)?;
    let found = alignment_with(alloc, &pairs)?;
    Ok(found)
}

//! The alignment of an object with what its alignments end at (HPF 2.0, 3.4).

ghost use Rattle.std.specs.Prelude.{◌≡◌, ◌≤◌, length, map, All, None, Some, IfOk, if◌then◌else◌};
ghost use Rattle.declarations.specs.declared.limits.TheConstants.{MAX_NAMES};
ghost use Rattle.directive_check.specs.Chains.{entries_in, is_on_cycle, known_entries, own_entries, root_alignment, root_of, target_of};
ghost use Rattle.distribution_rules.specs.Setting.{dims_of};
ghost use Rattle.syntax_tree.specs.Directive.{alignment as directive_alignment};
ghost use Rattle.alignment_rules.specs.AlignmentEntries.{alignment_of};
ghost use Rattle.directive_check.specs.ChainSteps.{IsJudged};
ghost use Rattle.directive_check.specs.MappedSteps.{how_of, mapped};
ghost use Rattle.directive_check.specs.WideAlignments.{if_known, wide_chain, wide_from, wide_through, widened};

use crate::chains::{meets, root_from, target_of};
use crate::composed_alignments::{WideDims, all_through, all_widened, narrow_alignment};
use crate::mapped_object::MappedObject;
use crate::mapped_objects::find_mapped;
use alignment_rules::{AlignDims, Alignment, alignment_of, target_values};
use distribution_rules::{Setting, dims_of};
use hpf_base::Name;
use std::alloc::{AllocError, Global};
use syntax_tree::{AlignSpec, Directive};

/// The object is aligned with itself, through others or not.
pub(crate) fn is_on_cycle(setting: &Setting<'_>, objects: &[MappedObject<'_>], name: &Name) -> bool
    ensures { result ≡ is_on_cycle setting.now (mapped objects.now) name.now }
{
    meets(
        setting.table().len(),
        objects,
        name,
        target_of(objects, name),
    )
}

/// The object at which its alignments end.
pub(crate) fn root_of(setting: &Setting<'_>, objects: &[MappedObject<'_>], name: &Name) -> Name
    ensures { result ≡ root_of setting.now (mapped objects.now) name.now }
{
    root_from(setting.table().len(), objects, name)
}

/// Its alignment with that object. An `Err` is want of memory, here and below.
pub(crate) fn root_alignment(
    alloc: Global,
    setting: &Setting<'_>,
    objects: &[MappedObject<'_>],
    name: &Name,
) -> Result<Alignment, AllocError>
    requires judged { All (IsJudged setting.now) objects.now }
    requires few { length setting.now.names ≤ MAX_NAMES }
    ensures { IfOk result (λ a. a ≡ root_alignment setting.now (mapped objects.now) name.now) }
{
    let found = wide_alignment(alloc, setting, objects, name)?;
    let alignment = narrow_alignment(alloc, &found)?;
    Ok(alignment)
}

/// What each dimension of that object is given.
pub(crate) fn wide_alignment(
    alloc: Global,
    setting: &Setting<'_>,
    objects: &[MappedObject<'_>],
    name: &Name,
) -> Result<Option<WideDims>, AllocError>
    requires judged { All (IsJudged setting.now) objects.now }
    requires few { length setting.now.names ≤ MAX_NAMES }
    ensures { IfOk result (λ w. w ≡ wide_from (length setting.now.names) setting.now (mapped objects.now) name.now (target_of (mapped objects.now) name.now)) }
{
    let steps = setting.table().len();
    let found = wide_from(steps, alloc, setting, objects, name)?;
    Ok(found)
}

/// The same within so many alignments.
fn wide_from(
    steps: usize,
    alloc: Global,
    setting: &Setting<'_>,
    objects: &[MappedObject<'_>],
    name: &Name,
) -> Result<Option<WideDims>, AllocError>
    requires judged { All (IsJudged setting.now) objects.now }
    ensures { IfOk result (λ w. w ≡ wide_from steps setting.now (mapped objects.now) name.now (target_of (mapped objects.now) name.now)) }
{
    if steps == 0 {
        return Ok(None);
    }
    match target_of(objects, name) {
        None => Ok(None),
        Some(target) => {
            let found = first_of(steps - 1, alloc, setting, objects, name, &target)?;
            Ok(found)
        }
    }
}

/// The same through its own alignment, and then within so many.
fn first_of(
    steps: usize,
    alloc: Global,
    setting: &Setting<'_>,
    objects: &[MappedObject<'_>],
    name: &Name,
    target: &Name,
) -> Result<Option<WideDims>, AllocError>
    requires judged { All (IsJudged setting.now) objects.now }
    ensures { IfOk result (λ w. w ≡ if_known (own_entries setting.now (mapped objects.now) name.now)
        (λ es. wide_chain steps setting.now (mapped objects.now) (map (widened (dims_of setting.now name.now)) es) target.now (target_of (mapped objects.now) target.now))) }
{
    match own_entries(alloc, setting, objects, name)? {
        None => Ok(None),
        Some(entries) => {
            let first = all_widened(alloc, dims_of(setting, name), entries.as_slice())?;
            let found = wide_chain(steps, alloc, setting, objects, first, target)?;
            Ok(found)
        }
    }
}

/// What is given from an object on to which these entries lead, within so many alignments.
#[cycle(chain)]
fn wide_chain(
    steps: usize,
    alloc: Global,
    setting: &Setting<'_>,
    objects: &[MappedObject<'_>],
    so_far: WideDims,
    name: &Name,
) -> Result<Option<WideDims>, AllocError>
    requires judged { All (IsJudged setting.now) objects.now }
    ensures { IfOk result (λ w. w ≡ wide_chain steps setting.now (mapped objects.now) so_far name.now (target_of (mapped objects.now) name.now)) }
{
    match target_of(objects, name) {
        None => Ok(Some(so_far)),
        Some(target) => {
            if steps == 0 {
                return Ok(None);
            }
            let found = next_of(steps - 1, alloc, setting, objects, so_far, name, &target)?;
            Ok(found)
        }
    }
}

/// The same through its own alignment, and then within so many.
#[cycle(chain)]
fn next_of(
    steps: usize,
    alloc: Global,
    setting: &Setting<'_>,
    objects: &[MappedObject<'_>],
    so_far: WideDims,
    name: &Name,
    target: &Name,
) -> Result<Option<WideDims>, AllocError>
    requires judged { All (IsJudged setting.now) objects.now }
    ensures { IfOk result (λ w. w ≡ if_known (own_entries setting.now (mapped objects.now) name.now)
        (λ ws. wide_chain steps setting.now (mapped objects.now) (map (wide_through so_far) ws) target.now (target_of (mapped objects.now) target.now))) }
{
    match own_entries(alloc, setting, objects, name)? {
        None => Ok(None),
        Some(entries) => {
            let more = all_through(alloc, so_far.as_slice(), entries.as_slice())?;
            let found = wide_chain(steps, alloc, setting, objects, more, target)?;
            Ok(found)
        }
    }
}

/// What each dimension of an object's target is given, where its ALIGN is known and breaks no rule by itself.
fn own_entries(
    alloc: Global,
    setting: &Setting<'_>,
    objects: &[MappedObject<'_>],
    name: &Name,
) -> Result<Option<AlignDims>, AllocError>
    requires judged { All (IsJudged setting.now) objects.now }
    ensures { IfOk result (λ es. es ≡ own_entries setting.now (mapped objects.now) name.now) }
{
    match find_mapped(objects, name) {
        Some(object) => {
            let found = entries_in(alloc, setting, name, object)?;
            Ok(found)
        }
        None => Ok(None),
    }
}

/// The same of an object that is mapped so.
fn entries_in(
    alloc: Global,
    setting: &Setting<'_>,
    name: &Name,
    object: &MappedObject<'_>,
) -> Result<Option<AlignDims>, AllocError>
    requires noted { IsJudged setting.now object.now }
    ensures { IfOk result (λ es. es ≡ entries_in setting.now name.now (Some (how_of object.now.directive.now))) }
{
    match object.directive {
        Directive::Align(spec) => {
            let own = own_alignment(alloc, setting, spec, name)?;
            Ok(known_entries(object.refused, own))
        }
        Directive::Distribute(_)
        | Directive::Processors(_)
        | Directive::Template(_)
        | Directive::Dynamic(_)
        | Directive::Passed => Ok(None),
    }
}

/// The entries of an alignment that is known and isn't refused.
fn known_entries(refused: bool, own: Alignment) -> Option<AlignDims>
    ensures { result ≡ (if refused then None else known_entries own) }
{
    match own {
        Alignment::Known(entries) => { if refused { None } else { Some(entries) } }
        Alignment::PastLimits | Alignment::Unknown => None,
    }
}

/// Its alignment with its target.
fn own_alignment(
    alloc: Global,
    setting: &Setting<'_>,
    spec: &AlignSpec,
    name: &Name,
) -> Result<Alignment, AllocError>
    ensures { IfOk result (λ a. a ≡ alignment_of setting.now (directive_alignment spec.now) name.now) }
{
    let values = target_values(alloc, setting, spec)?;
    let own = alignment_of(alloc, setting, spec, &values, name)?;
    Ok(own)
}

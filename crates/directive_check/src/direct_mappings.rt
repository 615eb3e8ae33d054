//! The mappings that DISTRIBUTE and REDISTRIBUTE give, and those of what is aligned with their objects (HPF 2.0, 3.3 and 3.4).

ghost use Rattle.std.specs.Prelude.{◌≡◌, ◌≤◌, length, All, IfOk, IfSome, Some};
ghost use Rattle.declarations.specs.declared.limits.TheConstants.{MAX_NAMES};
ghost use Rattle.mappings.specs.Alignment.{composed, composed_align};
ghost use Rattle.syntax_tree.specs.Directive.{distribution};
ghost use Rattle.directive_check.specs.ChainSteps.{IsJudged};
ghost use Rattle.directive_check.specs.DirectMappings.{IsDirect, IsDirectAlign};
ghost use Rattle.directive_check.specs.MappedSteps.{how_of, mapped};
ghost use Rattle.directive_check.specs.ProgramMaps.{distributed_as, mapped_as, replicated, start_of, through, with_root};

use crate::chains::is_aligned;
use crate::composed_alignments::entry_at;
use crate::mapped_object::MappedObject;
use crate::mapped_objects::find_mapped;
use crate::root_alignments::root_alignment;
use alignment_rules::Alignment;
use distribution_rules::{Setting, dims_of, distributed, distribution_values};
use hpf_base::Name;
use mappings::{AlignDim, MapDim, MapDims, Mapping};
use std::alloc::{AllocError, Global};
use syntax_tree::{Directive, DistSpec, NameList};

/// Every node owns all elements.
pub(crate) fn replicated(alloc: Global, setting: &Setting<'_>) -> Mapping
    ensures { result ≡ replicated setting.now.grid }
{
    Mapping {
        grid: setting.grid().copy(alloc),
        dims: MapDims::new(Vec::new(alloc)),
    }
}

/// The mapping that a DISTRIBUTE or a REDISTRIBUTE gives an object, where it is known. An `Err` is want of memory, here and below.
pub(crate) fn distributed_as(
    alloc: Global,
    setting: &Setting<'_>,
    spec: &DistSpec,
    name: &Name,
) -> Result<Option<Mapping>, AllocError>
    ensures { IfOk result (λ m. m ≡ distributed_as setting.now (distribution spec.now) name.now) }
{
    let values = distribution_values(alloc, setting, spec)?;
    let mapping = distributed(alloc, setting, &values, dims_of(setting, name))?;
    Ok(mapping)
}

/// That of an object that isn't aligned, at the start.
pub(crate) fn start_of(
    alloc: Global,
    setting: &Setting<'_>,
    objects: &[MappedObject<'_>],
    name: &Name,
) -> Result<Option<Mapping>, AllocError>
    ensures { IfOk result (λ m. m ≡ start_of setting.now (mapped objects.now) name.now) }
{
    match find_mapped(objects, name) {
        Some(object) => {
            let found = mapped_as(alloc, setting, name, object.directive)?;
            Ok(found)
        }
        None => Ok(Some(replicated(alloc, setting))),
    }
}

/// The mapping at the start of an object that this directive maps.
fn mapped_as(
    alloc: Global,
    setting: &Setting<'_>,
    name: &Name,
    directive: &Directive,
) -> Result<Option<Mapping>, AllocError>
    ensures { IfOk result (λ m. m ≡ mapped_as setting.now name.now (Some (how_of directive.now))) }
{
    match directive {
        Directive::Distribute(spec) => distributed_as(alloc, setting, spec, name),
        Directive::Align(_) => Ok(Some(replicated(alloc, setting))),
        Directive::Processors(_)
        | Directive::Template(_)
        | Directive::Dynamic(_)
        | Directive::Passed => {
            let none = DistSpec {
                names: NameList::new(Vec::new(alloc)),
                formats: Vec::new(alloc),
                onto: None,
                colons: true,
            };
            let mapping = distributed_as(alloc, setting, &none, name)?;
            Ok(mapping)
        }
    }
}

/// The mapping of an object, where this is that of what its alignments end at.
pub(crate) fn with_root(
    alloc: Global,
    setting: &Setting<'_>,
    objects: &[MappedObject<'_>],
    name: &Name,
    root: Option<Mapping>,
) -> Result<Option<Mapping>, AllocError>
    requires judged { All (IsJudged setting.now) objects.now }
    requires few { length setting.now.names ≤ MAX_NAMES }
    requires direct { IfSome root IsDirect }
    ensures { IfOk result (λ m. m ≡ with_root setting.now (mapped objects.now) name.now root) }
{
    if is_aligned(objects, name) {
        let alignment = root_alignment(alloc, setting, objects, name)?;
        through(alloc, root, &alignment)
    } else {
        Ok(root)
    }
}

/// That of an object with this alignment.
fn through(
    alloc: Global,
    root: Option<Mapping>,
    alignment: &Alignment,
) -> Result<Option<Mapping>, AllocError>
    requires { IfSome root IsDirect }
    ensures { IfOk result (λ m. m ≡ through root alignment.now) }
{
    match root {
        None => Ok(None),
        Some(target) => match alignment {
            Alignment::Known(entries) => {
                let mapping = composed(alloc, &target, entries.as_slice())?;
                Ok(Some(mapping))
            }
            Alignment::PastLimits | Alignment::Unknown => Ok(None),
        },
    }
}

/// The mapping of what is aligned with an object that isn't aligned itself.
fn composed(alloc: Global, target: &Mapping, align: &[AlignDim]) -> Result<Mapping, AllocError>
    requires { IsDirect target.now }
    ensures { IfOk result (λ m. m ≡ composed target.now align.now) }
{
    let mut dims = Vec::new(alloc);
    for entry in target.dims.as_slice() {
        let line = entry.line.copy(alloc)?;
        dims.push(MapDim {
            line,
            grid_dim: entry.grid_dim,
            align: put_in(&entry.align, align),
        })?;
    }
    Ok(Mapping {
        grid: target.grid.copy(alloc),
        dims: MapDims::new(dims),
    })
}

/// What an entry of its mapping gives for subscripts of the alignee.
fn put_in(entry: &AlignDim, align: &[AlignDim]) -> AlignDim
    requires { IsDirectAlign entry.now }
    ensures { result ≡ composed_align align.now entry.now }
{
    match *entry {
        AlignDim::Linear { dim, .. } => entry_at(align, dim),
        AlignDim::At(v) => AlignDim::At(v),
        AlignDim::Every => AlignDim::Every,
    }
}

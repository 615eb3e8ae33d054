//! Alignments one after the other (HPF 2.0, 3.4).

ghost use Rattle.std.specs.Prelude.{◌≡◌, Some};
ghost use Rattle.directive_check.specs.Chains.{is_aligned, is_composed, meets, root_from, target_in, target_of};
ghost use Rattle.directive_check.specs.MappedSteps.{how_of, mapped};

use crate::mapped_object::MappedObject;
use crate::mapped_objects::find_mapped;
use hpf_base::Name;
use syntax_tree::Directive;

/// The target of an object that is aligned.
pub(crate) fn target_of(objects: &[MappedObject<'_>], name: &Name) -> Option<Name>
    ensures { result ≡ target_of (mapped objects.now) name.now }
{
    match find_mapped(objects, name) {
        Some(object) => target_in(object.directive),
        None => None,
    }
}

fn target_in(directive: &Directive) -> Option<Name>
    ensures { result ≡ target_in (Some (how_of directive.now)) }
{
    match directive {
        Directive::Align(spec) => Some(spec.target),
        Directive::Distribute(_)
        | Directive::Processors(_)
        | Directive::Template(_)
        | Directive::Dynamic(_)
        | Directive::Passed => None,
    }
}

/// The object is aligned.
pub(crate) fn is_aligned(objects: &[MappedObject<'_>], name: &Name) -> bool
    ensures { result ≡ is_aligned (mapped objects.now) name.now }
{
    target_of(objects, name).is_some()
}

/// The object is aligned with one that is aligned itself.
pub(crate) fn is_composed(objects: &[MappedObject<'_>], name: &Name) -> bool
    ensures { result ≡ is_composed (mapped objects.now) name.now }
{
    match target_of(objects, name) {
        None => false,
        Some(target) => is_aligned(objects, &target),
    }
}

/// Within so many alignments, the first of which leads to `reached`, the object is met.
pub(crate) fn meets(
    steps: usize,
    objects: &[MappedObject<'_>],
    name: &Name,
    reached: Option<Name>,
) -> bool
    ensures { result ≡ meets steps (mapped objects.now) name.now reached }
{
    if steps == 0 {
        return false;
    }
    match reached {
        None => false,
        Some(target) => {
            *name == target || meets(steps - 1, objects, name, target_of(objects, &target))
        }
    }
}

/// What so many alignments lead to at most, from the object.
pub(crate) fn root_from(steps: usize, objects: &[MappedObject<'_>], name: &Name) -> Name
    ensures { result ≡ root_from steps (mapped objects.now) name.now (target_of (mapped objects.now) name.now) }
{
    if steps == 0 {
        return *name;
    }
    match target_of(objects, name) {
        None => *name,
        Some(target) => root_from(steps - 1, objects, &target),
    }
}

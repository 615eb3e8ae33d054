//! The tuples of an array statement.

ghost use Rattle.std.specs.Prelude.{◌≡◌, ◌<◌, ◌≤◌, ◌∷◌, IfOk, IfErr, IfSome, IfNone, Ok, option_map};
ghost use Rattle.std.specs.List.{list_all};
ghost use Rattle.array_meaning.specs.declared.limits.TheConstants.{MAX_TUPLES};
ghost use Rattle.hpf_base.specs.ElementOrder.{product};
ghost use Rattle.array_meaning.specs.Elementals.{all_sections, own_extents, own_size, sections};
ghost use Rattle.array_meaning.specs.Sections.{extents, is_at_most, is_conformable, is_selection_in_limits, space_size};
ghost use Rattle.term_values.specs.Spaces.{first_shape, is_space, sized};
ghost use Rattle.term_values.specs.Stops.{IsStop};
ghost use Rattle.term_values.specs.Views.{elemental, elementals_of};

use crate::array_values::Elemental;
use crate::stops::{Stop, fault};
use crate::wrapping::difference;
use array_meaning::{FaultKind, MAX_FACTOR, MAX_OFFSET, MAX_TUPLES, Selection};
use std::alloc::{AllocError, Global};

/// The extents of a section, one for each triplet.
pub fn extents(alloc: Global, ds: &[Selection]) -> Result<Vec<u128>, AllocError>
    ensures { IfOk result (λ ns. ns.items ≡ extents ds.now) }
{
    let mut ns = Vec::new(alloc);
    for d in ds {
        match d {
            Selection::At(_) => {}
            Selection::Along(p) => ns.push(p.count)?,
        }
    }
    Ok(ns)
}

/// How many tuples a space has over which an expression is assigned to a section. A fault where a section of either side has other
/// extents, and where the space is beyond the limits.
pub fn space_size(
    alloc: Global,
    ns: &[u128],
    left: &[Selection],
    right: &Elemental,
) -> Result<usize, Stop>
    ensures value { IfOk result (λ n. space_size ns.now (left.now ∷ sections (elemental right.now)) ≡ Ok n) }
    ensures few { IfOk result (λ n. n ≤ MAX_TUPLES) }
    ensures stopped { IfErr result (IsStop (space_size ns.now (left.now ∷ sections (elemental right.now)))) }
{
    let left_has_them = is_conformable(alloc, ns, left)?;
    let right_has_them = are_conformable(alloc, ns, right)?;
    let in_limits = all_in_limits(left) && are_in_limits(right);
    sized(ns, left_has_them && right_has_them, in_limits)
}

/// How many tuples the space of an expression by itself has, whose extents these are.
pub fn own_size(alloc: Global, ns: &[u128], x: &Elemental) -> Result<usize, Stop>
    ensures value { IfOk result (λ n. space_size ns.now (sections (elemental x.now)) ≡ Ok n) }
    ensures few { IfOk result (λ n. n ≤ MAX_TUPLES) }
    ensures stopped { IfErr result (IsStop (space_size ns.now (sections (elemental x.now)))) }
{
    let conformable = are_conformable(alloc, ns, x)?;
    let in_limits = are_in_limits(x);
    sized(ns, conformable, in_limits)
}

/// The extents of the space of an expression by itself, which are those of its first section.
pub(crate) fn own_extents(alloc: Global, x: &Elemental) -> Result<Vec<u128>, AllocError>
    ensures { IfOk result (λ ns. ns.items ≡ own_extents (elemental x.now)) }
{
    match first_shape(alloc, x)? {
        Some(ns) => Ok(ns),
        None => Ok(Vec::new(alloc)),
    }
}

/// The extents of its first section, if there is one.
#[cycle(first_shape)]
fn first_shape(alloc: Global, x: &Elemental) -> Result<Option<Vec<u128>>, AllocError>
    ensures { IfOk result (λ p. option_map (λ ns. ns.items) p ≡ first_shape (sections (elemental x.now))) }
{
    match x {
        Elemental::Same(_) => Ok(None),
        Elemental::Selected(_, ds) => Ok(Some(extents(alloc, ds)?)),
        Elemental::Operation(_, xs) => first_shape_of_all(alloc, xs),
    }
}

/// The extents of the first section of operands, if there is one.
#[cycle(first_shape)]
fn first_shape_of_all(alloc: Global, xs: &Vec<Elemental>) -> Result<Option<Vec<u128>>, AllocError>
    ensures { IfOk result (λ p. option_map (λ ns. ns.items) p ≡ first_shape (all_sections (elementals_of xs.now.items))) }
{
    for x in xs {
        match first_shape(alloc, x)? {
            Some(ns) => return Ok(Some(ns)),
            None => {}
        }
    }
    Ok(None)
}

// ---- extents

/// Whether a section has these extents.
fn is_conformable(alloc: Global, ns: &[u128], ds: &[Selection]) -> Result<bool, AllocError>
    ensures { IfOk result (λ b. b ≡ is_conformable ns.now ds.now) }
{
    let own = extents(alloc, ds)?;
    Ok(*own.as_slice() == *ns)
}

/// Whether all sections of an expression have them.
#[cycle(conformable)]
fn are_conformable(alloc: Global, ns: &[u128], x: &Elemental) -> Result<bool, AllocError>
    ensures { IfOk result (λ b. b ≡ list_all (is_conformable ns.now) (sections (elemental x.now))) }
{
    match x {
        Elemental::Same(_) => Ok(true),
        Elemental::Selected(_, ds) => is_conformable(alloc, ns, ds),
        Elemental::Operation(_, xs) => all_conformable(alloc, ns, xs),
    }
}

/// Whether all sections of operands have these extents.
#[cycle(conformable)]
fn all_conformable(alloc: Global, ns: &[u128], xs: &Vec<Elemental>) -> Result<bool, AllocError>
    ensures { IfOk result (λ b. b ≡ list_all (is_conformable ns.now) (all_sections (elementals_of xs.now.items))) }
{
    for x in xs {
        if !are_conformable(alloc, ns, x)? {
            return Ok(false);
        }
    }
    Ok(true)
}

// ---- limits

/// Whether all sections of an expression are in the limits.
#[cycle(in_limits)]
fn are_in_limits(x: &Elemental) -> bool
    ensures { result ≡ list_all (list_all is_selection_in_limits) (sections (elemental x.now)) }
{
    match x {
        Elemental::Same(_) => true,
        Elemental::Selected(_, ds) => all_in_limits(ds),
        Elemental::Operation(_, xs) => all_are_in_limits(xs),
    }
}

/// Whether all sections of operands are in the limits.
#[cycle(in_limits)]
fn all_are_in_limits(xs: &Vec<Elemental>) -> bool
    ensures { result ≡ list_all (list_all is_selection_in_limits) (all_sections (elementals_of xs.now.items)) }
{
    for x in xs {
        if !are_in_limits(x) {
            return false;
        }
    }
    true
}

/// Whether all that a section selects is in the limits.
fn all_in_limits(ds: &[Selection]) -> bool
    ensures { result ≡ list_all is_selection_in_limits ds.now }
{
    for d in ds {
        if !is_selection_in_limits(d) {
            return false;
        }
    }
    true
}

/// Whether one is.
fn is_selection_in_limits(d: &Selection) -> bool
    ensures { result ≡ is_selection_in_limits d.now }
{
    match d {
        Selection::At(i) => is_at_most(MAX_OFFSET, i),
        Selection::Along(p) => {
            let offset = difference(&p.first, &p.step);
            is_at_most(MAX_FACTOR, &p.step) && is_at_most(MAX_OFFSET, &offset.value)
        }
    }
}

/// Whether the magnitude of a number is at most a bound.
fn is_at_most(bound: u64, n: &i64) -> bool
    ensures { result ≡ is_at_most bound n.now }
{
    n.unsigned_abs() <= bound
}

// ---- sizes

/// How many tuples a space of these extents has, where it is known whether all sections have them and are in the limits.
fn sized(ns: &[u128], conformable: bool, in_limits: bool) -> Result<usize, Stop>
    ensures value { IfOk result (λ n. sized ns.now conformable in_limits ≡ Ok n) }
    ensures few { IfOk result (λ n. n ≤ MAX_TUPLES) }
    ensures stopped { IfErr result (IsStop (sized ns.now conformable in_limits)) }
{
    if !conformable {
        return Err(fault(FaultKind::Shape));
    }
    if !is_space(ns, in_limits) {
        return Err(fault(FaultKind::SpaceLimit));
    }
    match size(ns) {
        Some(n) => Ok(n),
        None => Err(fault(FaultKind::SpaceLimit)),
    }
}

/// Whether a space is in the limits, where it is known whether all sections are.
fn is_space(ns: &[u128], in_limits: bool) -> bool
    ensures { result ≡ is_space ns.now in_limits }
{
    match size(ns) {
        None => false,
        Some(0) => true,
        Some(_) => in_limits,
    }
}

/// The number of tuples of a space with these extents; None where there are more than the limit. It takes no memory.
pub fn size(ns: &[u128]) -> Option<usize>
    ensures some { IfSome result (λ n. product ns.now ≡ n) }
    ensures few { IfSome result (λ n. n ≤ MAX_TUPLES) }
    ensures none { IfNone result (MAX_TUPLES < product ns.now) }
{
    for n in ns {
        if *n == 0 {
            return Some(0);
        }
    }
    let mut count: u64 = 1;
    for n in ns {
        if *n > MAX_TUPLES as u128 {
            return None;
        }
        count *= *n as u64;
        if count > MAX_TUPLES {
            return None;
        }
    }
    Some(count as usize)
}

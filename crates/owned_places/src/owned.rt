//! The places of all axes at which a node owns what is named.

ghost use Rattle.std.specs.Prelude.{◌≡◌, ◌^◌, ◌<◌, ◌≤◌, ◌&&◌, All, IfOk, length, map};
ghost use Rattle.hpf_base.specs.ElementOrder.{product};
ghost use Rattle.hpf_base.specs.Grid.{node_coordinates};
ghost use Rattle.axis_products.specs.Products.{passing};
ghost use Rattle.std.specs.Option.{option_map};
ghost use Rattle.courses.specs.Subscripts.{AxesBelow, alone, axis_pass, fixed_pass};
ghost use Rattle.course_forms.specs.Views.{courses_of, named_of};
ghost use Rattle.axis_products.specs.Tests.{ArePlaces};
ghost use Rattle.courses.specs.Owners.{held_test};
ghost use Rattle.owned_places.specs.Owned.{LiesAs};
ghost use Rattle.owned_places.specs.Dims.{LieInside, held_dim};

use crate::dims::agree_alone;
use crate::passing::{are_fixed_held, places_on};
use course_forms::{Course, Reference};
use expression_rules::Dim;
use hpf_base::OutOfMemory;
use mappings::Mapping;
use owner_tables::OwnerTable;
use std::alloc::Global;

/// The places of each axis at which what the reference names is in bounds and the node's, ascending; None where no tuple names such an element.
pub fn owned_places(
    alloc: Global,
    table: &OwnerTable,
    node: u32,
    reference: &Reference,
    extents: &[u64],
) -> Result<Option<Vec<Vec<u32>>>, OutOfMemory>
    requires node { node < table.now.nodes }
    requires lies { LiesAs table.now.layout (named_of reference.now) }
    requires axes { AxesBelow (length extents.now) (named_of reference.now).courses }
    requires few { All (λ n. n ≤ 2 ^ 32) extents.now }
    ensures { IfOk result (λ r. ArePlaces (held_test (named_of reference.now) table.now.layout node) extents.now
        (option_map (λ lists. map (λ v. v.items) lists.items) r)) }
{
    let mapping = table.mapping();
    let dims = reference.dims.as_slice();
    let courses = reference.courses.as_slice();
    if table.size() == 0 || !is_ever_held(dims, mapping, node, courses) {
        return Ok(None);
    }
    let lists = lists_of(alloc, dims, mapping, node, courses, extents)?;
    Ok(Some(lists))
}

/// Whether all that is the same at each tuple is in bounds, and tells that the element can be the node's.
pub(crate) fn is_ever_held(dims: &[Dim], mapping: &Mapping, node: u32, courses: &[Course]) -> bool
    requires lie { LieInside dims.now mapping.now }
    requires node { node < product mapping.now.grid }
    requires rank { length courses.now ≡ length dims.now }
    ensures { result ≡ (alone (node_coordinates mapping.now.grid node) mapping.now.dims && fixed_pass (held_dim dims.now mapping.now node) 0 (courses_of courses.now)) }
{
    agree_alone(mapping, node) && are_fixed_held(dims, mapping, node, courses)
}

/// The places of each axis.
fn lists_of(
    alloc: Global,
    dims: &[Dim],
    mapping: &Mapping,
    node: u32,
    courses: &[Course],
    extents: &[u64],
) -> Result<Vec<Vec<u32>>, OutOfMemory>
    requires lie { LieInside dims.now mapping.now }
    requires node { node < product mapping.now.grid }
    requires rank { length courses.now ≡ length dims.now }
    requires few { All (λ n. n ≤ 2 ^ 32) extents.now }
    ensures { IfOk result (λ lists. map (λ v. v.items) lists.items
        ≡ passing (axis_pass (held_dim dims.now mapping.now node) 0 (courses_of courses.now)) 0 extents.now) }
{
    let mut lists = Vec::new(alloc);
    for axis in 0..extents.len() {
        lists.push(places_on(alloc, dims, mapping, node, courses, axis, extents[axis])?)?;
    }
    Ok(lists)
}

//! Elements inside of templates.

ghost use Rattle.std.specs.Prelude.{◌≡◌, length, map, All, Some, IsTrue};
ghost use Rattle.hpf_base.specs.ElementOrder.{elements};
ghost use Rattle.hpf_base.specs.Shape.{IsShape};
ghost use Rattle.mappings.specs.Alignment.{aligned};
ghost use Rattle.mappings.specs.Mapping.{InLine, IsAlign, IsLine, IsMapping, MapsInside};

use align_map::linear;
use hpf_base::{Index, Shape};
use local_address::{element_count, nth_element};
use mappings::{AlignDim, Line, MapDim, Mapping};
use std::alloc::Global;

/// Whether every element of the array lies inside the template.
pub(crate) fn all_inside(alloc: Global, map: &Mapping, shape: &Shape) -> bool
    requires mapping { IsMapping (length shape.now.lower) map.now }
    requires shape { IsShape shape.now }
    ensures { IsTrue result → All (MapsInside map.now) (elements shape.now) }
{
    for number in 0..element_count(shape) {
        let index = nth_element(alloc, shape, number);
        if !is_inside(map, &index) {
            return false;
        }
    }
    true
}

/// Whether the element lies inside the template.
pub fn is_inside(map: &Mapping, index: &Index) -> bool
    requires { IsMapping (length index.now) map.now }
    ensures { IsTrue result → MapsInside map.now index.now }
{
    match map.dims.as_slice() {
        [] => true,
        [entry] => entry_inside(entry, index),
        [entry, next] => entry_inside(entry, index) && entry_inside(next, index),
        _ => false,
    }
}

/// Whether the subscript that the entry gives the element stands inside the line.
fn entry_inside(entry: &MapDim, index: &Index) -> bool
    requires line { IsLine entry.now.line }
    requires align { IsAlign (length index.now) entry.now.align }
    ensures { IsTrue result → InLine entry.now.line (aligned entry.now.align (map Some index.now)) }
{
    match subscript(&entry.align, index) {
        Some(subscript) => in_line(&entry.line, subscript),
        None => true,
    }
}

/// The subscript that the alignment gives the element; None where it is every one.
fn subscript(align: &AlignDim, index: &Index) -> Option<i128>
    requires { IsAlign (length index.now) align.now }
    ensures { result ≡ aligned align.now (map Some index.now) }
{
    match *align {
        AlignDim::Linear { dim, a, b } => Some(linear(a, index.numbers()[dim as usize], b)),
        AlignDim::At(subscript) => Some(subscript as i128),
        AlignDim::Every => None,
    }
}

/// Whether the subscript stands inside the line.
fn in_line(line: &Line, subscript: i128) -> bool
    requires { IsLine line.now }
    ensures { IsTrue result → InLine line.now (Some subscript) }
{
    let lower = line.lower as i128;
    lower <= subscript && subscript < lower + line.extent as i128
}

//! Mapped arrays, as cases write them.

ghost use Rattle.std.specs.Prelude.{◌≡◌, ◌≤◌, pos, unsigned_abs, length, All, IfOk, IfSome, IsTrue};
ghost use Rattle.hpf_base.specs.ElementOrder.{elements};
ghost use Rattle.hpf_base.specs.Shape.{IsShape};
ghost use Rattle.mappings.specs.Mapping.{IsMapping, MapsInside};

use crate::entries::mapping_of;
use crate::inside::all_inside;
use crate::parts::{first_part, numbers};
use case_texts::TextError;
use hpf_base::{Index, MAX_BOUND, MAX_ELEMENTS, Shape};
use mappings::Mapping;
use std::alloc::Global;

/// An array and its mapping.
#[derive(Drop)]
pub struct Mapped {
    pub shape: Shape,
    pub mapping: Mapping,
}

/// The array with its mapping that is written so. Each of its elements lies inside the template.
pub fn mapped_of(alloc: Global, written: &str) -> Result<Mapped, TextError>
    ensures shape { IfOk result (λ m. IsShape m.shape) }
    ensures mapping { IfOk result (λ m. IsMapping (length m.shape.lower) m.mapping) }
    ensures inside { IfOk result (λ m. All (MapsInside m.mapping) (elements m.shape)) }
{
    let (array, rest) = first_part(written);
    let shape = shape_of(alloc, array)?;
    let mapping = mapping_of(alloc, shape.lower.numbers().len(), rest)?;
    if all_inside(alloc, &mapping, &shape) {
        Ok(Mapped { shape, mapping })
    } else {
        Err(TextError::Malformed)
    }
}

/// The array of one or two dimensions that is written so.
fn shape_of(alloc: Global, text: &str) -> Result<Shape, TextError>
    ensures { IfOk result IsShape }
{
    let numbers = numbers(alloc, text)?;
    let shape = match numbers.as_slice() {
        [lower, extent] => vector(alloc, *lower, *extent),
        [lower, extent, next, next_extent] => plane(
            alloc,
            [*lower, *next],
            [*extent, *next_extent],
        ),
        _ => None,
    };
    shape.ok_or(TextError::Malformed)
}

/// The array of one dimension with these bounds.
fn vector(alloc: Global, lower: i64, extent: i64) -> Option<Shape>
    ensures { IfSome result IsShape }
{
    if !is_bound(lower) || extent_of(extent)? as u64 > MAX_ELEMENTS {
        return None;
    }
    Some(Shape {
        lower: Index::new(alloc, &[lower])?,
        extent: Index::new(alloc, &[extent])?,
    })
}

/// The array of two dimensions with these bounds.
fn plane(alloc: Global, lower: [i64; 2], extent: [i64; 2]) -> Option<Shape>
    ensures { IfSome result IsShape }
{
    let rows = extent_of(extent[0])?;
    let columns = extent_of(extent[1])?;
    if !is_bound(lower[0]) || !is_bound(lower[1]) || rows as u64 * columns as u64 > MAX_ELEMENTS {
        return None;
    }
    Some(Shape {
        lower: Index::new(alloc, &[lower[0], lower[1]])?,
        extent: Index::new(alloc, &[extent[0], extent[1]])?,
    })
}

/// Whether it may be a lower bound.
fn is_bound(lower: i64) -> bool
    ensures { IsTrue result → unsigned_abs lower ≤ MAX_BOUND }
{
    lower.unsigned_abs() <= MAX_BOUND
}

/// An extent, where the number may be one.
fn extent_of(extent: i64) -> Option<u32>
    ensures { IfSome result (λ e. pos e ≡ extent) }
{
    u32::try_from(extent).ok()
}

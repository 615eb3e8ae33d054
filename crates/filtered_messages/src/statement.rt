//! What a statement names at the tuples of a space.

use crate::numbering::place_on;
use case_mappings::Mapped;
use course_forms::{Course, Reference};
use storage::Spot;

/// Arrays, the extents of a space, and what is assigned and read at its tuples.
#[derive(Clone, Copy)]
pub struct Named<'a> {
    pub arrays: &'a [Mapped],
    pub extents: &'a [u64],
    pub left: &'a Reference,
    pub reads: &'a [Reference],
}

impl<'a> Named<'a> {
    /// Whether an element is read at a tuple.
    pub(crate) fn is_read(&self, tuple: u64, spot: Spot) -> bool {
        for reference in self.reads {
            if self.at(reference, tuple) == Some(spot) {
                return true;
            }
        }
        false
    }

    /// The element that a reference names at a tuple; None where that is out of bounds.
    pub fn at(&self, reference: &Reference, tuple: u64) -> Option<Spot> {
        let shape = &self.arrays.get(reference.row)?.shape;
        let mut at: u64 = 0;
        let mut before: u64 = 1;
        for (k, lower) in shape.lower.numbers().iter().enumerate() {
            let subscript = subscript_at(reference.courses.get(k)?, self.extents, tuple);
            let offset = u64::try_from(subscript.wrapping_sub(*lower as i128)).ok()?;
            let extent = shape.extent.numbers().get(k)?.unsigned_abs();
            if offset >= extent {
                return None;
            }
            at = at.wrapping_add(offset.wrapping_mul(before));
            before = before.wrapping_mul(extent);
        }
        Some(Spot {
            row: reference.row,
            at: at as usize,
        })
    }
}

/// The subscript of a course at a tuple.
fn subscript_at(course: &Course, extents: &[u64], tuple: u64) -> i128 {
    match course {
        Course::Fixed(subscript) => *subscript as i128,
        Course::Moving { axis, first, step } => {
            let place = place_on(extents, *axis, tuple);
            (*step as i128)
                .wrapping_mul(place as i128)
                .wrapping_add(*first as i128)
        }
    }
}

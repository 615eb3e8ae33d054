//! By what references are found.

ghost use Rattle.std.specs.Prelude.{◌≡◌, ◌<◌, ◌≤◌};
ghost use Rattle.array_meaning.specs.declared.limits.TheConstants.{MAX_TUPLES};
ghost use Rattle.hpf_base.specs.ElementOrder.{product};

use course_forms::{Course, Reference};
use expression_rules::Dims;
use std::alloc::Global;

/// The courses of the indices of a FORALL or a nest; a statement over sections has none.
#[derive(Drop)]
pub(crate) struct Indices {
    pub(crate) courses: Option<Vec<Course>>,
}

/// What is assigned, where something is.
#[derive(Drop)]
pub(crate) struct Left {
    pub(crate) reference: Option<Reference>,
}

/// By what references are found: the dimensions of the arrays, the slots, and the extents and the indices of the space.
#[derive(Clone, Copy)]
pub(crate) struct Naming<'a> {
    pub(crate) alloc: Global,
    pub(crate) shapes: &'a [Dims],
    pub(crate) slots: &'a [i64],
    pub(crate) extents: &'a [u64],
    pub(crate) indices: &'a Indices,
    ghost some: { 0 < product extents.now },
    ghost few: { product extents.now ≤ MAX_TUPLES },
}

/// By these, where the space has tuples.
pub(crate) fn naming_over<'a>(
    alloc: Global,
    shapes: &'a [Dims],
    slots: &'a [i64],
    extents: &'a [u64],
    indices: &'a Indices,
) -> Naming<'a>
    requires some { 0 < product extents.now }
    requires few { product extents.now ≤ MAX_TUPLES }
    ensures shapes { result.shapes.now ≡ shapes.now }
    ensures slots { result.slots.now ≡ slots.now }
    ensures extents { result.extents.now ≡ extents.now }
    ensures indices { result.indices.now ≡ indices.now }
{
    Naming {
        alloc,
        shapes,
        slots,
        extents,
        indices,
    }
}

//! Whether a row lies as a reference takes it.

ghost use Rattle.std.specs.Prelude.{◌≡◌, pos, true};
ghost use Rattle.hpf_base.specs.Shape.{IsShape};
ghost use Rattle.expression_rules.specs.Dims.{AreDims, IsDim, extent};
ghost use Rattle.courses.specs.Subscripts.{shape_of_dims};
ghost use Rattle.course_forms.specs.Views.{named_of};
ghost use Rattle.owned_places.specs.Owned.{LiesAs};

use course_forms::Reference;
use expression_rules::{Dim, extent};
use hpf_base::Shape;
use owner_tables::OwnerTable;

/// Whether the row lies as the reference takes it: its shape is that of the reference's dimensions, and there is a course for each.
pub fn is_laid_out(table: &OwnerTable, reference: &Reference) -> bool
    ensures { result ≡ true → LiesAs table.now.layout (named_of reference.now) }
{
    let _ = table.mapping();
    let is_shaped = has_dims(table.shape(), reference.dims.as_slice());
    is_shaped && reference.courses.len() == reference.dims.as_slice().len()
}

/// Whether a shape has these dimensions.
fn has_dims(shape: &Shape, dims: &[Dim]) -> bool
    requires shape { IsShape shape.now }
    requires dims { AreDims dims.now }
    ensures { result ≡ true → shape.now ≡ shape_of_dims dims.now }
{
    let lower = shape.lower.numbers();
    let extents = shape.extent.numbers();
    if lower.len() != dims.len() {
        return false;
    }
    for k in 0..dims.len() {
        if lower[k] != dims[k].lower || extents[k] != extent_of(dims[k]) {
            return false;
        }
    }
    true
}

/// The extent of a dimension.
fn extent_of(dim: Dim) -> i64
    requires { IsDim dim }
    ensures { result ≡ pos (extent dim) }
{
    extent(dim) as i64
}

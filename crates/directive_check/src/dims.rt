//! Dimensions by their places.

ghost use Rattle.std.specs.Prelude.{◌≡◌, All, None, slice_index_or};
ghost use Rattle.alignment_rules.specs.AlignmentEntries.{at_place};
ghost use Rattle.directive_check.specs.WideAlignments.{FitsBounds};

use expression_rules::Dim;

/// The bounds of a dimension; None past the last one.
pub(crate) fn dim_at(dims: &[Option<Dim>], place: usize) -> Option<Dim>
    ensures { result ≡ at_place dims.now place }
{
    item_at(dims, place)
}

/// The item at a place; None past the end.
fn item_at(dims: &[Option<Dim>], place: usize) -> Option<Dim>
    ensures { result ≡ slice_index_or dims.now place None }
{
    match dims.get(place) {
        Some(dim) => *dim,
        None => None,
    }
}

/// The numbers of bounds fit 64 bits.
fn bounds_fit(dim: Option<Dim>)
    ensures { FitsBounds dim }
{
    match dim {
        None => {}
        Some(dim) => {
            let _ = (dim.lower, dim.upper);
        }
    }
}

/// The numbers of all bounds fit 64 bits. It changes nothing.
pub(crate) fn all_fit(dims: &[Option<Dim>])
    ensures { All FitsBounds dims.now }
{
    for dim in dims {
        bounds_fit(*dim);
    }
}

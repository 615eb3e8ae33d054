//! Layouts that are the same.

ghost use Rattle.std.specs.Prelude.{◌≡◌, ◌==◌};
ghost use Rattle.std.specs.Cmp.Lexicographic.{pointwise};
ghost use Rattle.machine_steps.specs.SameLayouts.{is_same_align, is_same_dim, is_same_form, is_same_line, is_same_mapping, is_same_shape};

use hpf_base::Shape;
use mappings::{AlignDim, Form, Line, MapDim, Mapping};

/// Whether two shapes have the same bounds.
pub(crate) fn is_same_shape(one: &Shape, other: &Shape) -> bool
    ensures { result ≡ is_same_shape one.now other.now }
{
    one.lower.numbers() == other.lower.numbers() && one.extent.numbers() == other.extent.numbers()
}

/// Whether two mappings have the same grid and the same dimensions.
pub(crate) fn is_same_mapping(one: &Mapping, other: &Mapping) -> bool
    ensures { result ≡ is_same_mapping one.now other.now }
{
    one.grid.dims() == other.grid.dims()
        && are_same_dims(one.dims.as_slice(), other.dims.as_slice())
}

/// Whether the dimensions of two mappings are the same, one by one.
fn are_same_dims(one: &[MapDim], other: &[MapDim]) -> bool
    ensures { result ≡ pointwise is_same_dim one.now other.now }
{
    if one.len() != other.len() {
        return false;
    }
    for (k, dim) in one.iter().enumerate() {
        if !is_same_dim(dim, &other[k]) {
            return false;
        }
    }
    true
}

/// Whether two dimensions have the same line, lie on the same dimension of the grid and are given the same.
fn is_same_dim(one: &MapDim, other: &MapDim) -> bool
    ensures { result ≡ is_same_dim one.now other.now }
{
    is_same_line(&one.line, &other.line)
        && (one.grid_dim == other.grid_dim && is_same_align(&one.align, &other.align))
}

/// Whether two lines have the same bounds, the same format and as many processors.
fn is_same_line(one: &Line, other: &Line) -> bool
    ensures { result ≡ is_same_line one.now other.now }
{
    one.lower == other.lower
        && (one.extent == other.extent
            && (is_same_form(&one.form, &other.form) && one.procs == other.procs))
}

/// Whether two formats are the same, with the same sizes.
fn is_same_form(one: &Form, other: &Form) -> bool
    ensures { result ≡ is_same_form one.now other.now }
{
    match (one, other) {
        (Form::Whole, Form::Whole) => true,
        (Form::Block(m), Form::Block(n)) => *m == *n,
        (Form::Cyclic(m), Form::Cyclic(n)) => *m == *n,
        (Form::Gen(sizes), Form::Gen(others)) => sizes.as_slice() == others.as_slice(),
        _ => false,
    }
}

/// Whether two alignments are the same.
fn is_same_align(one: &AlignDim, other: &AlignDim) -> bool
    ensures { result ≡ is_same_align one.now other.now }
{
    *one == *other
}

//! Whether each axis moves at most one subscript.

ghost use Rattle.std.specs.Prelude.{◌≡◌, map, not};
ghost use Rattle.std.specs.List.{list_all};
ghost use Rattle.mappings.specs.Mapping.{moves_along};
ghost use Rattle.aligned_copies.specs.Beside.{are_apart, is_one_axis};
ghost use Rattle.copy_anchors.specs.Anchors.{align_of};

use crate::anchor::Subscript;

/// Whether no two of these subscripts move along one axis.
pub(crate) fn are_apart(subscripts: &[Subscript]) -> bool
    ensures { result ≡ are_apart (map align_of subscripts.now) }
{
    for k in 0..subscripts.len() {
        if !are_off(axis_of(&subscripts[k]), &subscripts[k + 1..]) {
            return false;
        }
    }
    true
}

/// Whether none of these moves along this axis.
fn are_off(axis: Option<u32>, subscripts: &[Subscript]) -> bool
    ensures { result ≡ list_all (λ y. not (is_one_axis axis (moves_along y))) (map align_of subscripts.now) }
{
    for subscript in subscripts {
        if is_one_axis(axis, axis_of(subscript)) {
            return false;
        }
    }
    true
}

/// The axis along which a subscript moves.
fn axis_of(subscript: &Subscript) -> Option<u32>
    ensures { result ≡ moves_along (align_of subscript.now) }
{
    match subscript.axis {
        Some(axis) => {
            if subscript.step == 0 {
                None
            } else {
                Some(axis)
            }
        }
        None => None,
    }
}

/// Whether the two are one axis.
fn is_one_axis(one: Option<u32>, other: Option<u32>) -> bool
    ensures { result ≡ is_one_axis one other }
{
    match (one, other) {
        (Some(k), Some(j)) => k == j,
        _ => false,
    }
}

//! Places on axes, by the number of a tuple, of an element or of a node, where the first axis is the fastest (Fortran 95, 6.2.2.2).

ghost use Rattle.std.specs.Prelude.{◌≤◌};

/// The place on an axis, from 0, of what has this number, from 0, in a space of these extents.
pub(crate) fn place_on(extents: &[u64], axis: usize, number: u64) -> u64 {
    let mut rest = number;
    for (k, extent) in extents.iter().enumerate() {
        let extent = at_least_one(*extent);
        if k == axis {
            return rest % extent;
        }
        rest /= extent;
    }
    0
}

/// A node's coordinate in a dimension of its grid, from 0.
pub(crate) fn coordinate(grid: &[u32], dim: u32, node: u32) -> u64 {
    let mut rest = node as u64;
    for (k, extent) in grid.iter().enumerate() {
        let extent = at_least_one(*extent as u64);
        if k == dim as usize {
            return rest % extent;
        }
        rest /= extent;
    }
    0
}

/// How far a subscript of an element is above the lower bound of its dimension.
pub(crate) fn offset(extents: &[i64], dim: u32, at: u64) -> u64 {
    let mut rest = at;
    for (k, extent) in extents.iter().enumerate() {
        let extent = at_least_one(extent.unsigned_abs());
        if k == dim as usize {
            return rest % extent;
        }
        rest /= extent;
    }
    0
}

/// The number, and 1 for 0.
pub(crate) fn at_least_one(number: u64) -> u64
    ensures { 1 ≤ result }
{
    if number == 0 { 1 } else { number }
}

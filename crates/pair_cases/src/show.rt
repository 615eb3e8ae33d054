//! Elements as a line writes them.

ghost use Rattle.std.specs.Prelude.{◌≤◌};

use expression_rules::{Dim, Dims};
use std::alloc::AllocError;
use std::fmt::Write;
use storage::Spot;

/// Writes elements of arrays with these dimensions.
pub fn write_spots(out: &mut String, shapes: &[Dims], spots: &[Spot]) -> Result<(), AllocError> {
    if spots.is_empty() {
        return out.push_str("  empty\n");
    }
    out.push_str(" ")?;
    for spot in spots {
        write_spot(out, shapes, *spot)?;
    }
    out.push_str("\n")
}

/// Writes an element, a blank before it.
fn write_spot(out: &mut String, shapes: &[Dims], spot: Spot) -> Result<(), AllocError> {
    let letter = char::from(b'A' + (spot.row % 26) as u8);
    write!(out, " {letter}(")?;
    if spot.row < shapes.len() {
        write_subscripts(out, shapes[spot.row].as_slice(), spot.at as u64)?;
    }
    out.push_str(")")
}

/// Writes the subscripts of the element with this place in array-element order.
fn write_subscripts(out: &mut String, dims: &[Dim], at: u64) -> Result<(), AllocError> {
    let mut rest = at;
    for (k, dim) in dims.iter().enumerate() {
        if k > 0 {
            out.push(',')?;
        }
        let extent = extent_of(*dim);
        let subscript = dim.lower as i128 + (rest % extent) as i128;
        write!(out, "{subscript}")?;
        rest /= extent;
    }
    Ok(())
}

/// How many subscripts lie in the bounds; 1 where none does.
fn extent_of(dim: Dim) -> u64
    ensures { 1 ≤ result }
{
    if dim.upper < dim.lower {
        return 1;
    }
    dim.upper.abs_diff(dim.lower).saturating_add(1)
}

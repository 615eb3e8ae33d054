//! The place of an element in array element order (Fortran 95, 6.2.2.2).

ghost use Rattle.std.specs.Prelude.{◌≡◌, [], ◌∷◌};
ghost use Rattle.expression_rules.specs.Dims.{AreDims, IsDim};
ghost use Rattle.array_meaning.specs.State.{offset, element_place};
ghost use Rattle.term_values.specs.Places.{in_64_bits};

use expression_rules::{Dim, extent};

/// How far a subscript is above the lower bound, where it is in bounds.
fn offset(d: &Dim, i: &i64) -> Option<u64>
    requires { IsDim d.now }
    ensures { result ≡ offset d.now i.now }
{
    if d.lower <= *i && *i <= d.upper {
        Some((*i - d.lower) as u64)
    } else {
        None
    }
}

/// The place of an element as 64 bits have it. After an empty dimension a product of extents may wrap, and then no place is.
fn wrapped_place(dims: &[Dim], subscripts: &[i64]) -> Option<u64>
    requires { AreDims dims.now }
    ensures { result ≡ in_64_bits (element_place dims.now subscripts.now) }
{
    if dims.len() != subscripts.len() {
        return None;
    }
    let mut place = 0;
    for l in (0..dims.len()).rev() {
        let k = offset(&dims[l], &subscripts[l])?;
        place = k.wrapping_add(extent(dims[l]).wrapping_mul(place));
    }
    Some(place)
}

/// The place of an element; None where a subscript is out of bounds.
#[tactic(auto, using(crate::proofs::ElementPlaces::place_is))]
pub fn place(dims: &[Dim], subscripts: &[i64]) -> Option<usize>
    requires { AreDims dims.now }
    ensures { result ≡ element_place dims.now subscripts.now }
{
    let place = wrapped_place(dims, subscripts)?;
    Some(place as usize)
}

/// The place of the element with one subscript; None where the subscript is out of bounds.
pub fn place_of_one(dims: &[Dim], subscript: &i64) -> Option<usize>
    requires { AreDims dims.now }
    ensures { result ≡ element_place dims.now (subscript.now ∷ []) }
{
    if dims.len() != 1 {
        return None;
    }
    let k = offset(&dims[0], subscript)?;
    Some(k as usize)
}

/// The place of the element with two subscripts; None where a subscript is out of bounds.
#[tactic(auto, using(crate::proofs::ElementPlaces::place_is))]
pub fn place_of_two(dims: &[Dim], first: &i64, second: &i64) -> Option<usize>
    requires { AreDims dims.now }
    ensures { result ≡ element_place dims.now (first.now ∷ second.now ∷ []) }
{
    let place = wrapped_place_of_two(dims, first, second)?;
    Some(place as usize)
}

/// That place as 64 bits have it.
#[tactic(auto, using(crate::proofs::ElementPlaces::first_out, crate::proofs::ElementPlaces::second_out, crate::proofs::ElementPlaces::two_in))]
fn wrapped_place_of_two(dims: &[Dim], first: &i64, second: &i64) -> Option<u64>
    requires { AreDims dims.now }
    ensures { result ≡ in_64_bits (element_place dims.now (first.now ∷ second.now ∷ [])) }
{
    if dims.len() != 2 {
        return None;
    }
    let k = offset(&dims[0], first)?;
    let l = offset(&dims[1], second)?;
    Some(k.wrapping_add(extent(dims[0]).wrapping_mul(l)))
}

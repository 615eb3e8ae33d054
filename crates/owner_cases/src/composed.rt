//! Mappings of arrays that are aligned with mapped ones (HPF 2.0, ALIGN).

ghost use Rattle.std.specs.Prelude.{◌∷◌, [], ◌*ℤ◌, FitsSigned, length, All, IfOk, IsTrue};
ghost use Rattle.std.specs.Int.{w64};
ghost use Rattle.mappings.specs.Alignment.{align_through, composed_align};
ghost use Rattle.mappings.specs.Mapping.{FitsAlign, IsAlign, IsMapping};

use crate::show::write_align;
use align_map::{compose, linear};
use case_mappings::{align_of, first_part, mapping_of, numbers};
use case_texts::TextError;
use mappings::{AlignDim, MapDim, Mapping};
use std::alloc::Global;

/// Writes the alignments of the mapping of a vector that is aligned with a mapped vector, an entry a line.
pub fn write_composed(alloc: Global, out: &mut String, written: &str) -> Result<(), TextError> {
    let (align, rest) = first_part(written);
    let align = vector_align(alloc, align)?;
    let target = mapping_of(alloc, 1, rest)?;
    if !all_fit(&target, &align) {
        return Err(TextError::Malformed);
    }
    match compose(alloc, &target, &[align]) {
        Ok(map) => write_entries(out, map.dims.as_slice()),
        Err(_) => Err(TextError::Memory),
    }
}

/// The alignment of a vector that is written so.
fn vector_align(alloc: Global, text: &str) -> Result<AlignDim, TextError>
    ensures { IfOk result (IsAlign 1) }
{
    let numbers = numbers(alloc, text)?;
    align_of(1, &numbers)
}

/// Writes the alignment of each entry of a mapping.
fn write_entries(out: &mut String, entries: &[MapDim]) -> Result<(), TextError> {
    for entry in entries {
        write_align(out, &entry.align)?;
    }
    Ok(())
}

/// Whether the numbers of each composed entry fit 64 bits.
fn all_fit(target: &Mapping, align: &AlignDim) -> bool
    requires { IsMapping 1 target.now }
    ensures { IsTrue result → All (λ entry. FitsAlign (composed_align (align.now ∷ []) entry.align)) target.now.dims }
{
    match target.dims.as_slice() {
        [] => true,
        [entry] => fits(&entry.align, align),
        [entry, next] => fits(&entry.align, align) && fits(&next.align, align),
        _ => false,
    }
}

/// Whether the numbers of a composed alignment fit 64 bits.
fn fits(outer: &AlignDim, align: &AlignDim) -> bool
    requires { IsAlign 1 outer.now }
    ensures { IsTrue result → FitsAlign (composed_align (align.now ∷ []) outer.now) }
{
    match *outer {
        AlignDim::Linear { a, b, .. } => fits_through(a, b, align),
        AlignDim::At(subscript) => is_narrow(subscript as i128),
        AlignDim::Every => true,
    }
}

/// Whether the numbers fit 64 bits where a subscript is put into `a * i + b`.
fn fits_through(a: i64, b: i64, align: &AlignDim) -> bool
    ensures { IsTrue result → FitsAlign (align_through a b align.now) }
{
    match *align {
        AlignDim::Linear {
            a: step,
            b: first,
            ..
        } => is_narrow_product(a, step) && is_narrow(linear(a, first, b)),
        AlignDim::At(subscript) => is_narrow(linear(a, subscript, b)),
        AlignDim::Every => true,
    }
}

#[tactic(auto, using(crate::proofs::Products::fits_product))]
fn is_narrow_product(a: i64, b: i64) -> bool
    ensures { IsTrue result → FitsSigned w64 (a *ℤ b) }
{
    is_narrow(linear(a, b, 0))
}

fn is_narrow(number: i128) -> bool
    ensures { IsTrue result → FitsSigned w64 number }
{
    i64::try_from(number).is_ok()
}

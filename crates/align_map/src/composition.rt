//! The mapping of an array that is aligned with a mapped one.

ghost use Rattle.std.specs.Prelude.{◌≡◌, ◌≢◌, ℕ, ◌<◌, ℤ, pos, ◌+ℤ◌, ◌*ℤ◌, FitsSigned, List, map, length, All, AllPairs, IfOk};
ghost use Rattle.std.specs.Int.{w64};
ghost use Rattle.mappings.specs.Alignment.{align_through, composed, composed_align, composed_entry};
ghost use Rattle.mappings.specs.Mapping.{FitsAlign, IsAlign, IsMapping, MoveApart};

use crate::subscripts::{linear, product};
use hpf_base::OutOfMemory;
use mappings::{AlignDim, MapDim, MapDims, Mapping};
use std::alloc::Global;

/// The mapping of an array whose elements are aligned with those of `target`'s array: `align` has, for each dimension
/// of the target's array in order, the subscript that it is given for an element (HPF 2.0, ALIGN). In each entry of
/// `target` the subscripts are put in: of a Linear one that is Linear or At in its turn the result is such, and a
/// `*` over a dimension of the target's array is a replication over the template's dimension on which it lies.
///
/// The numbers of the result fit 64 bits, and no two entries of `align` are Linear with `a` other than 0 and one
/// dimension. Then the result is a valid mapping of the array whose dimensions `align` names.
pub fn compose(alloc: Global, target: &Mapping, align: &[AlignDim]) -> Result<Mapping, OutOfMemory>
    requires target { IsMapping (length align.now) target.now }
    requires fits { All (λ entry. FitsAlign (composed_align align.now entry.align)) target.now.dims }
    requires apart { AllPairs MoveApart align.now }
    ensures value { IfOk result (λ mapping. mapping ≡ composed target.now align.now) }
    ensures valid { IfOk result (λ mapping. (rank : ℕ) → All (IsAlign rank) align.now → IsMapping rank mapping) }
{
    let mut dims = Vec::new(alloc);
    for entry in target.dims.as_slice() {
        dims.push(composed_with(alloc, entry, align)?)?;
    }
    Ok(Mapping {
        grid: target.grid.copy(alloc),
        dims: MapDims::new(dims),
    })
}

/// The entry with the alignee's subscripts put in.
fn composed_with(alloc: Global, entry: &MapDim, align: &[AlignDim]) -> Result<MapDim, OutOfMemory>
    requires align { IsAlign (length align.now) entry.now.align }
    requires fits { FitsAlign (composed_align align.now entry.now.align) }
    ensures { IfOk result (λ composed. composed ≡ composed_entry align.now entry.now) }
{
    let line = entry.line.copy(alloc)?;
    Ok(MapDim {
        line,
        grid_dim: entry.grid_dim,
        align: put_in(&entry.align, align),
    })
}

/// The alignment with the alignee's subscripts put in.
fn put_in(outer: &AlignDim, align: &[AlignDim]) -> AlignDim
    requires align { IsAlign (length align.now) outer.now }
    requires fits { FitsAlign (composed_align align.now outer.now) }
    ensures { result ≡ composed_align align.now outer.now }
{
    match *outer {
        AlignDim::Linear { dim, a, b } => through(a, b, &align[dim as usize]),
        AlignDim::At(v) => AlignDim::At(v),
        AlignDim::Every => AlignDim::Every,
    }
}

/// `a * i + b` of the subscript i that `inner` gives.
fn through(a: i64, b: i64, inner: &AlignDim) -> AlignDim
    requires { FitsAlign (align_through a b inner.now) }
    ensures { result ≡ align_through a b inner.now }
{
    match *inner {
        AlignDim::Linear {
            dim,
            a: step,
            b: first,
        } => AlignDim::Linear {
            dim,
            a: narrow(product(a, step)),
            b: narrow(linear(a, first, b)),
        },
        AlignDim::At(v) => AlignDim::At(narrow(linear(a, v, b))),
        AlignDim::Every => AlignDim::Every,
    }
}

fn narrow(number: i128) -> i64
    requires { FitsSigned w64 number }
    ensures { result ≡ number }
{
    number as i64
}

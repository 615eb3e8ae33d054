//! The dimensions of an array.

ghost use Rattle.std.specs.Prelude.{◌≡◌, ◌+◌, ◌*◌, ◌≤◌, ◌≤ℤ◌, pos, IfOk, IfSome};
ghost use Rattle.std.specs.List.{list_any};
ghost use Rattle.hpf_base.specs.declared.limits.TheConstants.{MAX_BOUND};
ghost use Rattle.expression_rules.specs.Constants.{numbered};
ghost use Rattle.expression_rules.specs.Dims.{elements, extent, is_empty, AreDims, IsDim};

use std::alloc::{AllocError, Global};
use std::marker::Model;

/// The lower and the upper bound of a dimension, as they are declared (Fortran 95, 5.1.2.4.1). Where the upper one is below the
/// lower one, the dimension is empty.
#[derive(Clone, Copy)]
pub struct Dim {
    pub lower: i64,
    pub upper: i64,
}

/// The dimensions of an array, the first one first, all within the limits. Contracts see their list.
#[derive(Drop)]
pub struct Dims {
    dims: Vec<Dim>,
}

impl Model for Dims {
    ghost use Rattle.std.specs.Prelude.{List};
    ghost use Rattle.expression_rules.specs.Dims.{AreDims};
    ghost use Rattle.expression_rules.specs.declared.dims.Dim.{Dim};

    ghost Value = { List Dim };

    ghost view = { λ d. d.dims.items };

    ghost invariant = { λ d. AreDims d.dims.items };
}

impl Dims {
    /// These dimensions. It takes no memory.
    pub fn new(dims: Vec<Dim>) -> Dims
        requires { AreDims dims.items }
        ensures { result ≡ dims.items }
    {
        Dims { dims }
    }

    /// The dimensions in order.
    pub fn as_slice(&self) -> &[Dim]
        ensures value { result.now ≡ self.now }
        ensures valid { AreDims self.now }
    {
        &self.dims
    }

    /// The same dimensions once more. An `Err` is want of memory.
    pub fn copy(&self, alloc: Global) -> Result<Dims, AllocError>
        ensures { IfOk result (λ copy. copy ≡ self.now) }
    {
        let mut copy = Vec::new(alloc);
        copy.extend_from_slice(self.as_slice())?;
        Ok(Dims::new(copy))
    }
}

/// How many subscripts lie in the bounds. It takes no memory.
pub fn extent(dim: Dim) -> u64
    requires { IsDim dim }
    ensures value { result ≡ extent dim }
    ensures few { result ≤ 2 * MAX_BOUND + 1 }
{
    if dim.upper < dim.lower {
        0
    } else {
        (dim.upper - dim.lower) as u64 + 1
    }
}

/// Whether a dimension is empty.
fn has_empty(dims: &[Dim]) -> bool
    requires { AreDims dims.now }
    ensures { result ≡ list_any is_empty dims.now }
{
    dims.iter().any(|dim| extent(*dim) == 0)
}

/// How many elements an array of these dimensions has. It takes no memory.
pub fn size(dims: &[Dim]) -> u64
    requires { AreDims dims.now }
    ensures { result ≡ elements dims.now }
{
    if has_empty(dims) {
        return 0;
    }
    let mut size = 1;
    for dim in dims {
        size *= extent(*dim);
    }
    size
}

/// The dimension with a number, from 1, if there is one.
pub(crate) fn numbered(dims: &[Dim], number: i64) -> Option<Dim>
    ensures value { result ≡ numbered dims.now number }
    ensures valid { AreDims dims.now → IfSome result IsDim }
{
    if number < 1 {
        return None;
    }
    dims.get(before(number)).copied()
}

/// The place of a number from 1.
pub(crate) fn before(number: i64) -> usize
    requires { pos 1 ≤ℤ number }
    ensures { number ≡ pos (result + 1) }
{
    (number - 1) as usize
}

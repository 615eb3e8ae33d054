//! Circular shifts, transposes and prefix sums of whole arrays (Fortran 95, 13.14.26 and 13.14.111; HPF 2.0, 7.4).

ghost use Rattle.std.specs.Prelude.{◌≡◌, IfErr, IfOk, Ok, OnOk, map};
ghost use Rattle.expression_rules.specs.Dims.{AreDims, extent};
ghost use Rattle.array_meaning.specs.Execution.{run};
ghost use Rattle.array_meaning.specs.Statements.{Transform};
ghost use Rattle.array_meaning.specs.Transformations.{has_shape, shift_of, transform};
ghost use Rattle.resolved_program.specs.Resolved.{transformation, whole_array};
ghost use Rattle.term_values.specs.States.{state_of};
ghost use Rattle.term_values.specs.Stops.{IsStop};
ghost use Rattle.serial_run.specs.Completions.{IsRun, IsStopped};
ghost use Rattle.serial_run.specs.TransformedValues.{transformed_values};

use crate::completion::{Completion, ended};
use crate::transformed_columns::values_by;
use array_meaning::FaultKind;
use expression_rules::{Dim, extent};
use resolved_program::{Transformation, WholeArray};
use std::alloc::{AllocError, Global};
use term_values::{State, Stop, fault, value};

/// Runs a circular shift, a transpose or a prefix sum.
#[inline(never)]
pub(crate) fn run_transform(
    s: &mut State,
    line: u32,
    target: &WholeArray,
    source: &WholeArray,
    how: &Transformation,
) -> Result<Completion, AllocError>
    ensures { IfOk result (IsRun (run (Transform (whole_array target.now) (whole_array source.now) (transformation how.now)) line (state_of s.old)) (state_of s.new)) }
{
    let step = transform(s, target, source, how);
    ended(line, step)
}

/// Takes all values, and then stores.
#[tactic(auto, using(crate::proofs::TransformedStores::transform_is))]
fn transform(
    s: &mut State,
    target: &WholeArray,
    source: &WholeArray,
    how: &Transformation,
) -> Result<(), Stop>
    ensures value { OnOk result (transform (whole_array target.now) (whole_array source.now) (transformation how.now) (state_of s.old) ≡ Ok (state_of s.new)) }
    ensures stopped { IfErr result (IsStopped (transform (whole_array target.now) (whole_array source.now) (transformation how.now) (state_of s.old)) (state_of s.old) (state_of s.new)) }
{
    let values = transformed_values(s, target, source, how)?;
    s.store_run(target.array, 0, &values);
    Ok(())
}

/// The values that the target gets, in order. The number of places comes before the shapes.
fn transformed_values(
    s: &State,
    target: &WholeArray,
    source: &WholeArray,
    how: &Transformation,
) -> Result<Vec<i64>, Stop>
    ensures value { IfOk result (λ v. transformed_values (whole_array target.now) (whole_array source.now) (transformation how.now) (state_of s.now) ≡ Ok v.items) }
    ensures stopped { IfErr result (IsStop (transformed_values (whole_array target.now) (whole_array source.now) (transformation how.now) (state_of s.now))) }
{
    let by = shift_of(s, how)?;
    if !has_shape(*s.scalars.allocator(), target, source, how)? {
        return Err(fault(FaultKind::Shape));
    }
    let values = values_by(s, source.array, target.dims.as_slice(), how, by)?;
    Ok(values)
}

/// The number of places of a shift, which is evaluated once; 0 of anything else.
fn shift_of(s: &State, how: &Transformation) -> Result<i64, Stop>
    ensures value { IfOk result (λ k. shift_of (state_of s.now) (transformation how.now) ≡ Ok k) }
    ensures stopped { IfErr result (IsStop (shift_of (state_of s.now) (transformation how.now))) }
{
    match how {
        Transformation::CircularShift(by) => value(s, &[], by),
        Transformation::Transposition | Transformation::PrefixSum => Ok(0),
    }
}

/// Whether the target has the extents of the source, for a transpose in reverse order.
fn has_shape(
    alloc: Global,
    target: &WholeArray,
    source: &WholeArray,
    how: &Transformation,
) -> Result<bool, AllocError>
    ensures { IfOk result (λ b. b ≡ has_shape (whole_array target.now) (whole_array source.now) (transformation how.now)) }
{
    let own = extents(alloc, target.dims.as_slice())?;
    let mut taken = extents(alloc, source.dims.as_slice())?;
    match how {
        Transformation::CircularShift(_) | Transformation::PrefixSum => {}
        Transformation::Transposition => taken.reverse(),
    }
    Ok(*taken.as_slice() == *own.as_slice())
}

/// The extents of dimensions.
fn extents(alloc: Global, dims: &[Dim]) -> Result<Vec<u64>, AllocError>
    requires { AreDims dims.now }
    ensures { IfOk result (λ v. v.items ≡ map extent dims.now) }
{
    dims.iter().map(|dim| extent(*dim)).collect(alloc)
}

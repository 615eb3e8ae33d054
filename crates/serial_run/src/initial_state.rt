//! The state at the start of a run.

ghost use Rattle.std.specs.Prelude.{◌≡◌, ◌++◌, ◌∷◌, [], IfOk, OnOk, map, replicate, slice_get};
ghost use Rattle.expression_rules.specs.Dims.{elements};
ghost use Rattle.array_meaning.specs.Resolution.{initial_array, initial_scalar, initial_state};
ghost use Rattle.array_meaning.specs.State.{no_array};
ghost use Rattle.term_values.specs.States.{state_of};
ghost use Rattle.serial_run.specs.InitialState.{array_of, scalar_of};

use expression_rules::{Dims, size};
use name_table::{Names, What};
use std::alloc::{AllocError, Global};
use term_values::{Array, State};

/// The state in which each scalar and each element has its initial value, and nothing was printed.
pub(crate) fn initial_state(alloc: Global, names: &Names) -> Result<State, AllocError>
    ensures { IfOk result (λ s. state_of s ≡ initial_state names.now) }
{
    let scalars = initial_scalars(alloc, names)?;
    let arrays = arrays(alloc, names)?;
    Ok(State {
        scalars,
        arrays,
        printed: Vec::new(alloc),
    })
}

/// The initial values of the scalars, each at the place of its name; any other name has 0 there.
pub fn initial_scalars(alloc: Global, names: &Names) -> Result<Vec<i64>, AllocError>
    ensures { IfOk result (λ v. v.items ≡ map (λ e. initial_scalar e.what) names.now) }
{
    let mut scalars = Vec::new(alloc);
    for place in 0..names.len() {
        push_scalar(names, place, &mut scalars)?;
    }
    Ok(scalars)
}

/// Puts the initial value of a name after others.
fn push_scalar(names: &Names, place: usize, scalars: &mut Vec<i64>) -> Result<(), AllocError>
    ensures { OnOk result (scalars.new.items ≡ scalars.old.items ++ scalar_of (slice_get names.now place) ∷ []) }
{
    scalars.push(scalar_at(names, place))?;
    Ok(())
}

/// The initial value of a scalar; 0 for any other name.
fn scalar_at(names: &Names, place: usize) -> i64
    ensures { result ≡ scalar_of (slice_get names.now place) }
{
    match names.get(place) {
        Some(entry) => scalar_of(&entry.what),
        None => 0,
    }
}

/// The initial value of a scalar, by what its name is; 0 for anything else.
fn scalar_of(what: &What) -> i64
    ensures { result ≡ initial_scalar what.now }
{
    match what {
        What::Scalar(v) => *v,
        _ => 0,
    }
}

/// The arrays, each at the place of its name.
fn arrays(alloc: Global, names: &Names) -> Result<Vec<Array>, AllocError>
    ensures { IfOk result (λ v. v.items ≡ map (λ e. initial_array e.what) names.now) }
{
    let mut arrays = Vec::new(alloc);
    for place in 0..names.len() {
        let array = array_at(alloc, names, place)?;
        arrays.push(array)?;
    }
    Ok(arrays)
}

/// An array with its initial values; one without elements for any other name.
fn array_at(alloc: Global, names: &Names, place: usize) -> Result<Array, AllocError>
    ensures { IfOk result (λ a. a ≡ array_of (slice_get names.now place)) }
{
    match names.get(place) {
        Some(entry) => array_of(alloc, &entry.what),
        None => Ok(no_array(alloc)),
    }
}

/// An array with its initial values, by what its name is; one without elements for anything else.
fn array_of(alloc: Global, what: &What) -> Result<Array, AllocError>
    ensures { IfOk result (λ a. a ≡ initial_array what.now) }
{
    match what {
        What::Array(dims, v) => filled(alloc, dims, v),
        _ => Ok(no_array(alloc)),
    }
}

/// An array without dimensions and elements.
fn no_array(alloc: Global) -> Array
    ensures { result ≡ no_array }
{
    Array::new(Dims::new(Vec::new(alloc)), Vec::new(alloc))
}

/// An array all of whose elements have one value.
fn filled(alloc: Global, dims: &Dims, v: &i64) -> Result<Array, AllocError>
    ensures { IfOk result (λ a. a ≡ record { dims = dims.now; elements = replicate (elements dims.now) v.now }) }
{
    let copy = dims.copy(alloc)?;
    let elements = vec![in alloc; *v; size(dims.as_slice()) as usize]?;
    Ok(Array::new(copy, elements))
}

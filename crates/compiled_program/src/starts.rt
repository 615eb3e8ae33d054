//! What a run begins with: the slots, the values of the elements, and the dimensions of the arrays.

ghost use Rattle.std.specs.Prelude.{◌≡◌, ◌++◌, IfOk, map, pos, replicate};
ghost use Rattle.array_meaning.specs.Resolution.{initial_array, initial_scalar};
ghost use Rattle.compiled_program.specs.Starts.{start_of};

use crate::rows::entry_at;
use expression_rules::Dims;
use hpf_base::OutOfMemory;
use name_table::{Names, What};
use serial_run::initial_scalars;
use std::alloc::Global;

/// The slots at the start: the initial values of the scalars, by the places of the names, and then so many zeros.
pub(crate) fn first_slots(
    alloc: Global,
    names: &Names,
    hidden: usize,
) -> Result<Vec<i64>, OutOfMemory>
    ensures { IfOk result (λ slots. slots.items ≡ map (λ e. initial_scalar e.what) names.now ++ replicate hidden (pos 0)) }
{
    let mut slots = initial_scalars(alloc, names)?;
    let zeros = vec![in alloc; 0; hidden]?;
    slots.extend_from_slice(&zeros)?;
    Ok(slots)
}

/// The value of the elements of each row at the start: of the declared names, by their places, and of so many copies after them.
pub(crate) fn first_values(
    alloc: Global,
    names: &Names,
    copies: usize,
) -> Result<Vec<i64>, OutOfMemory>
    ensures { IfOk result (λ values. values.items ≡ map (λ e. start_of e.what) names.now ++ replicate copies (pos 0)) }
{
    let mut values = Vec::new(alloc);
    for place in 0..names.len() {
        values.push(start_of(&entry_at(names, place).what))?;
    }
    let zeros = vec![in alloc; 0; copies]?;
    values.extend_from_slice(&zeros)?;
    Ok(values)
}

/// The initial value of an array's elements; 0 where it is none.
fn start_of(what: &What) -> i64
    ensures { result ≡ start_of what.now }
{
    match what {
        What::Array(_, value) => *value,
        _ => 0,
    }
}

/// The dimensions of the declared names, by their places; what is no array has none.
pub(crate) fn shapes(alloc: Global, names: &Names) -> Result<Vec<Dims>, OutOfMemory>
    ensures { IfOk result (λ shapes. shapes.items ≡ map (λ e. (initial_array e.what).dims) names.now) }
{
    let mut shapes = Vec::new(alloc);
    for place in 0..names.len() {
        let dims = dims_of(alloc, &entry_at(names, place).what)?;
        shapes.push(dims)?;
    }
    Ok(shapes)
}

/// The dimensions of an array; none where it is no array.
fn dims_of(alloc: Global, what: &What) -> Result<Dims, OutOfMemory>
    ensures { IfOk result (λ dims. dims ≡ (initial_array what.now).dims) }
{
    match what {
        What::Array(dims, _) => Ok(dims.copy(alloc)?),
        _ => Ok(Dims::new(Vec::new(alloc))),
    }
}

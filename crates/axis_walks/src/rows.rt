//! Tuples with one axis more.

ghost use Rattle.std.specs.Prelude.{◌≡◌, ◌+◌, ◌*◌, ◌^◌, ◌<◌, ◌≤◌, ◌++◌, ◌==◌, All, IfOk, length, map};
ghost use Rattle.std.specs.List.{list_any};
ghost use Rattle.axis_walks.specs.Rows.{rows};

use hpf_base::OutOfMemory;
use std::alloc::Global;

/// Whether a list of places is empty.
pub(crate) fn has_empty(lists: &[Vec<u32>]) -> bool
    ensures { result ≡ list_any (λ v. length v.items == 0) lists.now }
{
    lists.iter().any(|list| list.len() == 0)
}

/// The tuples with one of the places on an axis and the places of one of the tuples on the axes after it.
pub(crate) fn rows(
    alloc: Global,
    after: &[u32],
    extent: u64,
    places: &[u32],
) -> Result<Vec<u32>, OutOfMemory>
    requires after { All (λ n. (n + 1) * extent ≤ 2 ^ 32) after.now }
    requires places { All (λ p. p < extent) places.now }
    ensures { IfOk result (λ tuples. tuples.items ≡ rows extent after.now places.now) }
{
    let mut tuples = Vec::new(alloc);
    push_rows(&mut tuples, after, extent, places)?;
    Ok(tuples)
}

/// The same, after other tuples.
pub(crate) fn push_rows(
    tuples: &mut Vec<u32>,
    after: &[u32],
    extent: u64,
    places: &[u32],
) -> Result<(), OutOfMemory>
    requires after { All (λ n. (n + 1) * extent ≤ 2 ^ 32) after.now }
    requires places { All (λ p. p < extent) places.now }
    ensures { IfOk result (λ _. tuples.new.items ≡ tuples.old.items ++ rows extent after.now places.now) }
{
    for number in after {
        push_row(tuples, *number as u64 * extent, places)?;
    }
    Ok(())
}

/// The tuples with one of the places on an axis, where this is the number of the first tuple with these places on the axes after it.
fn push_row(tuples: &mut Vec<u32>, first: u64, places: &[u32]) -> Result<(), OutOfMemory>
    requires { All (λ p. first + p < 2 ^ 32) places.now }
    ensures { IfOk result (λ _. tuples.new.items ≡ tuples.old.items ++ map (λ p. first + p) places.now) }
{
    for place in places {
        tuples.push((first + *place as u64) as u32)?;
    }
    Ok(())
}

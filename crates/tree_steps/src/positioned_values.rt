//! Values with their positions as the numbers that go round.

ghost use Rattle.std.specs.Prelude.{◌≡◌, Some, IfOk};
ghost use Rattle.machine_steps.specs.Node.{later, positioned_values, value_of, values_positioned};
ghost use Rattle.tree_steps.specs.Positions.{positions};

use crate::kept_faults::signed;
use hpf_base::OutOfMemory;
use std::alloc::Global;

/// A value with its position, from 0.
#[derive(Clone, Copy, PartialEq, Eq)]
pub struct Positioned {
    pub at: u64,
    pub value: i64,
}

/// The numbers of a value with its position: the position, and the value; none where there is none. A position past 2^63 - 1 is answered
/// as want of memory.
pub fn positioned_numbers(alloc: Global, last: Option<Positioned>) -> Result<Vec<i64>, OutOfMemory>
    ensures { IfOk result (λ v. v.items ≡ positioned_values (positions last)) }
{
    let mut numbers = Vec::new(alloc);
    if let Some(last) = last {
        numbers.push(signed(&last.at)?)?;
        numbers.push(last.value)?;
    }
    Ok(numbers)
}

/// The value with its position that numbers spell, if they spell one.
pub(crate) fn positioned_of_numbers(numbers: &[i64]) -> Option<Positioned>
    ensures { positions result ≡ values_positioned numbers.now }
{
    if numbers.len() < 2 {
        return None;
    }
    Some(Positioned {
        at: numbers[0].unsigned_abs(),
        value: numbers[1],
    })
}

/// Of two the one at the later position; the first, where they have the same.
pub(crate) fn later(a: Option<Positioned>, b: Option<Positioned>) -> Option<Positioned>
    ensures { positions result ≡ later (positions a) (positions b) }
{
    match a {
        None => b,
        Some(first) => match b {
            None => Some(first),
            Some(second) => Some(later_of(first, second)),
        },
    }
}

/// Of two the one at the later position; the first, where they have the same.
fn later_of(a: Positioned, b: Positioned) -> Positioned
    ensures { positions (Some result) ≡ later (positions (Some a)) (positions (Some b)) }
{
    if a.at < b.at { b } else { a }
}

/// The value at the last position, from what a tree has joined, where any node had one. It takes no memory.
pub fn last_value(folded: &[i64]) -> Option<i64>
    ensures { result ≡ value_of (values_positioned folded.now) }
{
    match positioned_of_numbers(folded) {
        None => None,
        Some(last) => Some(last.value),
    }
}

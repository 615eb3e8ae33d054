//! Congruences of integers and their progressions.

ghost use Rattle.std.specs.Prelude.{◌≤◌, ◌≤ℤ◌, unsigned_abs, IfOk, IsTrue};
ghost use Rattle.congruences.specs.Progressions.{IsProgression};

use crate::sections::last_of;
use case_mappings::{first_part, numbers};
use case_texts::TextError;
use congruences::{Progression, gcd_ext, meet, solve};
use std::alloc::Global;
use std::fmt::Write;

/// Writes the greatest common divisor of two integers, and what the sum of multiples comes to.
pub fn write_divisor(alloc: Global, out: &mut String, written: &str) -> Result<(), TextError> {
    let numbers = numbers(alloc, written)?;
    write_divisor_of(out, &numbers)
}

/// Writes the same of these numbers.
fn write_divisor_of(out: &mut String, numbers: &[i64]) -> Result<(), TextError> {
    match numbers {
        [a, b] if is_small(*a) && is_small(*b) && (*a != 0 || *b != 0) => {
            let (a, b) = (*a as i128, *b as i128);
            let found = gcd_ext(a, b);
            let sum = a
                .wrapping_mul(found.x)
                .wrapping_add(b.wrapping_mul(found.y));
            writeln!(out, "  {} {sum}", found.g)?;
            Ok(())
        }
        _ => Err(TextError::Malformed),
    }
}

/// Writes the least solution of a congruence, by its factor, its right side and its modulus.
pub fn write_solution(alloc: Global, out: &mut String, written: &str) -> Result<(), TextError> {
    let numbers = numbers(alloc, written)?;
    write_solution_of(out, &numbers)
}

/// Writes the same of these numbers.
fn write_solution_of(out: &mut String, numbers: &[i64]) -> Result<(), TextError> {
    match numbers {
        [a, b, m] if is_small(*a) && is_small(*b) && is_small(*m) && 1 <= *m => {
            match solve(*a as i128, *b as i128, *m as i128) {
                Some(x) => writeln!(out, "  {x}")?,
                None => out.push_str("  none\n")?,
            }
            Ok(())
        }
        _ => Err(TextError::Malformed),
    }
}

/// Writes the common members of two progressions.
pub fn write_common(alloc: Global, out: &mut String, written: &str) -> Result<(), TextError> {
    let (one, other) = first_part(written);
    let one = progression_of(alloc, one)?;
    let other = progression_of(alloc, other)?;
    match meet(one, other) {
        Some(common) => writeln!(out, "  {} {} {}", common.first, common.stride, common.count)?,
        None => out.push_str("  none\n")?,
    }
    Ok(())
}

/// The progression that is written so, by its first member, its stride and its count.
fn progression_of(alloc: Global, text: &str) -> Result<Progression, TextError>
    ensures { IfOk result IsProgression }
{
    let numbers = numbers(alloc, text)?;
    numbered_progression(&numbers)
}

/// The progression with these numbers.
fn numbered_progression(numbers: &[i64]) -> Result<Progression, TextError>
    ensures { IfOk result IsProgression }
{
    let [first, stride, count] = numbers else {
        return Err(TextError::Malformed);
    };
    let progression = Progression {
        first: *first as i128,
        stride: *stride as i128,
        count: u64::try_from(*count).ok().ok_or(TextError::Malformed)?,
    };
    if is_progression(&progression) {
        Ok(progression)
    } else {
        Err(TextError::Malformed)
    }
}

/// Whether it is an ascending progression of numbers that are at most 2^62 in magnitude.
fn is_progression(p: &Progression) -> bool
    ensures { IsTrue result → IsProgression p.now }
{
    if p.stride < 1 || p.stride > 9223372036854775808 {
        return false;
    }
    if p.count < 1 || p.count > 9223372036854775808 {
        return false;
    }
    if p.first < -4611686018427387904 || p.first > 4611686018427387904 {
        return false;
    }
    is_at_most(last_of(p.first, p.stride, p.count), 4611686018427387904)
}

fn is_at_most(number: i128, most: i128) -> bool
    ensures { IsTrue result → number ≤ℤ most }
{
    number <= most
}

/// Whether it is at most 2^62 in magnitude.
fn is_small(number: i64) -> bool
    ensures { IsTrue result → unsigned_abs number ≤ 4611686018427387904 }
{
    number.unsigned_abs() <= 4611686018427387904
}

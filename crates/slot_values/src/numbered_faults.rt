//! Faults as numbers, as a letter holds them.

ghost use Rattle.std.specs.Prelude.{◌≡◌, ◌≤◌, ◌++◌, ℕ, suc, pos, unsigned_abs, take, drop, option_map, box_value, IfOk, OnOk};
ghost use Rattle.code_meaning.specs.FaultNumbers.{between, fault_numbers, fault_of, kind_at, kind_number, location_by, location_numbers, location_of, subscript_numbers, subscripts_of};
ghost use Rattle.term_values.specs.Faults.{fault};
ghost use Rattle.term_values.specs.Stops.{interference, location};

use array_meaning::FaultKind;
use hpf_base::OutOfMemory;
use std::alloc::{AllocError, Global};
use term_values::{Cause, Fault, Interference, Object, Place};

/// The numbers of a fault: the line, the kind, and where it comes. A number past 2^63 - 1 is answered as want of memory.
pub fn fault_numbers(alloc: Global, f: &Fault) -> Result<Vec<i64>, OutOfMemory>
    ensures { IfOk result (λ v. v.items ≡ fault_numbers (fault f.now)) }
{
    let mut v = Vec::new(alloc);
    v.push(f.line as i64)?;
    v.push(kind_number(f.cause.kind))?;
    add_place(&mut v, &f.cause.at)?;
    Ok(v)
}

/// Adds where a fault comes.
fn add_place(v: &mut Vec<i64>, at: &Place) -> Result<(), AllocError>
    ensures { OnOk result (v.new.items ≡ v.old.items ++ location_numbers (location at.now)) }
{
    match at {
        Place::Nowhere => v.push(0)?,
        Place::AtTuple(tuple) => {
            v.push(1)?;
            v.extend_from_slice(tuple.as_slice())?;
        }
        Place::Between(pair) => add_interference(v, pair)?,
    }
    Ok(())
}

/// Adds between which two iterations a fault comes, and in which object.
fn add_interference(v: &mut Vec<i64>, pair: &Interference) -> Result<(), AllocError>
    ensures { OnOk result (v.new.items ≡ v.old.items ++ location_numbers (interference pair.now)) }
{
    v.push(2)?;
    v.push(signed(pair.earlier.len())?)?;
    v.push(signed(pair.later.len())?)?;
    v.push(signed(pair.object.name)?)?;
    v.extend_from_slice(pair.earlier.as_slice())?;
    v.extend_from_slice(pair.later.as_slice())?;
    add_subscripts(v, &pair.object.subscripts)
}

/// Adds the subscripts of an object, which a scalar hasn't.
fn add_subscripts(v: &mut Vec<i64>, subscripts: &Option<Vec<i64>>) -> Result<(), AllocError>
    ensures { OnOk result (v.new.items ≡ v.old.items ++ subscript_numbers (option_map (λ s. s.items) subscripts.now)) }
{
    if let Some(subscripts) = subscripts {
        v.push(1)?;
        v.extend_from_slice(subscripts.as_slice())?;
    }
    Ok(())
}

/// The number in a letter.
fn signed(number: usize) -> Result<i64, AllocError>
    ensures { IfOk result (λ v. v ≡ pos number) }
{
    if number <= i64::MAX as usize {
        Ok(number as i64)
    } else {
        Err(AllocError)
    }
}

/// The number of a kind.
fn kind_number(kind: FaultKind) -> i64
    ensures { result ≡ pos (kind_number kind) }
{
    match kind {
        FaultKind::Bounds => 0,
        FaultKind::DivZero => 1,
        FaultKind::Shape => 2,
        FaultKind::ZeroStride => 3,
        FaultKind::NotOneToOne => 4,
        FaultKind::SpaceLimit => 5,
        FaultKind::Interfere => 6,
    }
}

/// The kind of a number.
fn kind_at(number: u64) -> FaultKind
    ensures { result ≡ kind_at number }
{
    match number {
        1 => FaultKind::DivZero,
        2 => FaultKind::Shape,
        3 => FaultKind::ZeroStride,
        4 => FaultKind::NotOneToOne,
        5 => FaultKind::SpaceLimit,
        6 => FaultKind::Interfere,
        _ => FaultKind::Bounds,
    }
}

/// The fault that numbers spell. A line past 32 bits is answered as want of memory.
pub fn fault_of_numbers(alloc: Global, numbers: &[i64]) -> Result<Fault, OutOfMemory>
    ensures { IfOk result (λ f. fault f ≡ fault_of numbers.now) }
{
    if numbers.len() < 2 {
        return Ok(Fault {
            line: 0,
            cause: Cause {
                kind: FaultKind::Bounds,
                at: Place::Nowhere,
            },
        });
    }
    let line = line_of(&numbers[0])?;
    let kind = kind_at(numbers[1].unsigned_abs());
    let at = place_of(alloc, &numbers[2..])?;
    Ok(Fault {
        line,
        cause: Cause { kind, at },
    })
}

/// A line of at most 32 bits.
fn line_of(number: &i64) -> Result<u32, AllocError>
    ensures { IfOk result (λ line. line ≡ unsigned_abs number.now) }
{
    let line = number.unsigned_abs();
    if line <= u32::MAX as u64 {
        Ok(line as u32)
    } else {
        Err(AllocError)
    }
}

/// Where a fault comes.
fn place_of(alloc: Global, numbers: &[i64]) -> Result<Place, AllocError>
    ensures { IfOk result (λ p. location p ≡ location_of numbers.now) }
{
    if numbers.is_empty() {
        return Ok(Place::Nowhere);
    }
    let which = numbers[0].unsigned_abs();
    match which {
        0 => Ok(Place::Nowhere),
        1 => {
            let tuple = boxed(alloc, &numbers[1..])?;
            Ok(Place::AtTuple(tuple))
        }
        _ => place_past_one(alloc, which, &numbers[1..]),
    }
}

/// Where a fault comes by a number past 1, which says that it comes between two iterations.
fn place_past_one(alloc: Global, which: u64, numbers: &[i64]) -> Result<Place, AllocError>
    requires past { 2 ≤ which }
    ensures { IfOk result (λ p. location p ≡ location_by which numbers.now) }
{
    place_between(alloc, numbers)
}

/// Between which iterations a fault comes: the lengths of their tuples and the place of a name, and then the tuples and the subscripts.
/// Fewer numbers say no place.
fn place_between(alloc: Global, numbers: &[i64]) -> Result<Place, AllocError>
    ensures { (n : ℕ) → IfOk result (λ p. location p ≡ location_by (suc (suc n)) numbers.now) }
{
    if let [earlier, later, name, rest @ ..] = numbers {
        let pair = interference_of(
            alloc,
            earlier.unsigned_abs(),
            later.unsigned_abs(),
            name.unsigned_abs(),
            rest,
        )?;
        Ok(Place::Between(pair))
    } else {
        Ok(Place::Nowhere)
    }
}

/// Two iterations with tuples of these lengths, and the object of this name.
fn interference_of(
    alloc: Global,
    earlier: u64,
    later: u64,
    name: u64,
    numbers: &[i64],
) -> Result<Box<Interference>, AllocError>
    ensures { IfOk result (λ b. interference (box_value b) ≡ between earlier later name numbers.now) }
{
    let rest = after(numbers, earlier);
    let pair = Interference {
        earlier: copied(alloc, front(numbers, earlier))?,
        later: copied(alloc, front(rest, later))?,
        object: Object {
            name: name as usize,
            subscripts: subscripts_of(alloc, after(rest, later))?,
        },
    };
    let b = Box::new(alloc, pair)?;
    Ok(b)
}

/// The subscripts of an object, which a scalar hasn't.
fn subscripts_of(alloc: Global, numbers: &[i64]) -> Result<Option<Vec<i64>>, AllocError>
    ensures { IfOk result (λ s. option_map (λ v. v.items) s ≡ subscripts_of numbers.now) }
{
    if numbers.is_empty() {
        return Ok(None);
    }
    let subscripts = copied(alloc, &numbers[1..])?;
    Ok(Some(subscripts))
}

/// So many numbers from the first, or all where there are fewer.
fn front(numbers: &[i64], count: u64) -> &[i64]
    ensures { result.now ≡ take count numbers.now }
{
    if count < numbers.len() as u64 {
        &numbers[..count as usize]
    } else {
        numbers
    }
}

/// What is left after so many numbers.
fn after(numbers: &[i64], count: u64) -> &[i64]
    ensures { result.now ≡ drop count numbers.now }
{
    if count < numbers.len() as u64 {
        &numbers[count as usize..]
    } else {
        &[]
    }
}

/// A copy of the numbers.
fn copied(alloc: Global, numbers: &[i64]) -> Result<Vec<i64>, AllocError>
    ensures { IfOk result (λ v. v.items ≡ numbers.now) }
{
    let mut v = Vec::new(alloc);
    v.extend_from_slice(numbers)?;
    Ok(v)
}

/// A copy of the numbers in a box.
fn boxed(alloc: Global, numbers: &[i64]) -> Result<Box<Vec<i64>>, AllocError>
    ensures { IfOk result (λ b. (box_value b).items ≡ numbers.now) }
{
    let v = copied(alloc, numbers)?;
    let b = Box::new(alloc, v)?;
    Ok(b)
}

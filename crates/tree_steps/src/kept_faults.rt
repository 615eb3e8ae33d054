//! Kept faults as the numbers that go round.

ghost use Rattle.std.specs.Prelude.{◌≡◌, pos, Some, IfOk};
ghost use Rattle.machine_steps.specs.Node.{kept_values, values_kept};
ghost use Rattle.code_meaning.specs.FaultValues.{fault_values};
ghost use Rattle.slot_values.specs.KeptFaults.{kepts};

use hpf_base::OutOfMemory;
use slot_values::{Kept, fault_numbers, fault_of_numbers};
use std::alloc::{AllocError, Global};

/// The numbers of a kept fault: the tuple, the part, and those of the fault; none where no fault is kept. A number past 2^63 - 1 is
/// answered as want of memory.
pub fn kept_numbers(alloc: Global, kept: &Option<Kept>) -> Result<Vec<i64>, OutOfMemory>
    ensures { IfOk result (λ v. v.items ≡ kept_values fault_values (kepts kept.now)) }
{
    match kept {
        None => Ok(Vec::new(alloc)),
        Some(kept) => numbers_of(alloc, kept),
    }
}

/// The numbers of a fault that is kept.
fn numbers_of(alloc: Global, kept: &Kept) -> Result<Vec<i64>, OutOfMemory>
    ensures { IfOk result (λ v. v.items ≡ kept_values fault_values (kepts (Some kept.now))) }
{
    let mut numbers = Vec::new(alloc);
    numbers.push(signed(&kept.tuple)?)?;
    numbers.push(signed(&kept.part)?)?;
    let fault = fault_numbers(alloc, &kept.fault)?;
    numbers.extend_from_slice(fault.as_slice())?;
    Ok(numbers)
}

/// The number in a letter.
pub(crate) fn signed(number: &u64) -> Result<i64, AllocError>
    ensures { IfOk result (λ v. v ≡ pos number.now) }
{
    if *number <= i64::MAX as u64 {
        Ok(*number as i64)
    } else {
        Err(AllocError)
    }
}

/// The kept fault that numbers spell, if they spell one. A line past 32 bits is answered as want of memory.
pub fn kept_of_numbers(alloc: Global, numbers: &[i64]) -> Result<Option<Kept>, OutOfMemory>
    ensures { IfOk result (λ kept. kepts kept ≡ values_kept fault_values numbers.now) }
{
    if numbers.len() < 2 {
        return Ok(None);
    }
    let fault = fault_of_numbers(alloc, &numbers[2..])?;
    Ok(Some(Kept {
        tuple: numbers[0].unsigned_abs(),
        part: numbers[1].unsigned_abs(),
        fault,
    }))
}

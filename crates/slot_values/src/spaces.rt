//! The spaces of parallel statements, and the copies that hold a value for each of their tuples.

ghost use Rattle.std.specs.Prelude.{◌≡◌, ◌≢◌, ◌≤◌, All, IfOk, length, replicate};
ghost use Rattle.hpf_base.specs.declared.limits.TheConstants.{MAX_ELEMENTS};
ghost use Rattle.array_meaning.specs.declared.limits.TheConstants.{MAX_TUPLES};
ghost use Rattle.hpf_base.specs.ElementOrder.{product};
ghost use Rattle.machine_steps.specs.CopyLayout.{copy_extents};
ghost use Rattle.machine_steps.specs.Space.{space_count};

use array_meaning::MAX_TUPLES;
use hpf_base::OutOfMemory;
use std::alloc::Global;
use term_values::size;

/// The number of tuples of a space with these extents; a space past the limit is as an empty one. It takes no memory.
pub fn space_count(ns: &[u128]) -> usize
    ensures value { result ≡ space_count ns.now }
    ensures few { result ≤ MAX_TUPLES }
{
    match size(ns) {
        Some(count) => count,
        None => 0,
    }
}

/// The extents of a copy with a value for each tuple of a space: those of the space, and 0 where it is empty.
pub fn copy_extents(alloc: Global, ns: &[u128]) -> Result<Vec<u32>, OutOfMemory>
    ensures value { IfOk result (λ extents. extents.items ≡ copy_extents ns.now) }
    ensures rank { IfOk result (λ extents. length extents.items ≡ length ns.now) }
    ensures each { IfOk result (λ extents. All (λ extent. extent ≤ MAX_ELEMENTS) extents.items) }
    ensures size { IfOk result (λ extents. product extents.items ≤ MAX_ELEMENTS) }
{
    if space_count(ns) == 0 {
        emptied(alloc, ns)
    } else {
        filled(alloc, ns)
    }
}

/// A zero for each extent of an empty space.
fn emptied(alloc: Global, ns: &[u128]) -> Result<Vec<u32>, OutOfMemory>
    requires { space_count ns.now ≡ 0 }
    ensures value { IfOk result (λ zeros. zeros.items ≡ copy_extents ns.now) }
    ensures rank { IfOk result (λ zeros. length zeros.items ≡ length ns.now) }
    ensures each { IfOk result (λ zeros. All (λ extent. extent ≤ MAX_ELEMENTS) zeros.items) }
    ensures size { IfOk result (λ zeros. product zeros.items ≤ MAX_ELEMENTS) }
{
    let zeros = zeros(alloc, ns.len())?;
    Ok(zeros)
}

/// So many zeros.
fn zeros(alloc: Global, count: usize) -> Result<Vec<u32>, OutOfMemory>
    ensures { IfOk result (λ zeros. zeros.items ≡ replicate count 0) }
{
    Ok(vec![in alloc; 0; count]?)
}

/// The extents of a space that isn't empty.
fn filled(alloc: Global, ns: &[u128]) -> Result<Vec<u32>, OutOfMemory>
    requires { space_count ns.now ≢ 0 }
    ensures value { IfOk result (λ narrow. narrow.items ≡ copy_extents ns.now) }
    ensures rank { IfOk result (λ narrow. length narrow.items ≡ length ns.now) }
    ensures each { IfOk result (λ narrow. All (λ extent. extent ≤ MAX_ELEMENTS) narrow.items) }
    ensures size { IfOk result (λ narrow. product narrow.items ≤ MAX_ELEMENTS) }
{
    let narrow = narrowed(alloc, ns)?;
    Ok(narrow)
}

/// The same extents, whose product is within the limit.
fn narrowed(alloc: Global, ns: &[u128]) -> Result<Vec<u32>, OutOfMemory>
    requires { space_count ns.now ≢ 0 }
    ensures { IfOk result (λ narrow. narrow.items ≡ ns.now) }
{
    let mut narrow = Vec::new(alloc);
    for n in ns {
        if *n > MAX_TUPLES as u128 {
            unreachable!();
        }
        narrow.push(*n as u32)?;
    }
    Ok(narrow)
}

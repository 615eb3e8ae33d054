//! Blocks of given sizes (HPF 2.0, approved extensions, GEN_BLOCK).

ghost use Rattle.std.specs.Prelude.{◌≡◌, ◌≤◌, length, nat_le, nat_lt, option_and_then, option_map, sum, IfOk};
ghost use Rattle.std.specs.List.{list_all};
ghost use Rattle.hpf_base.specs.declared.limits.TheConstants.{MAX_NODES};
ghost use Rattle.mappings.specs.declared.limits.TheConstants.{MAX_BLOCK};
ghost use Rattle.distribution_rules.specs.Dimensions.{passes};
ghost use Rattle.distribution_rules.specs.Distributed.{gen_block};
ghost use Rattle.distribution_rules.specs.DistributedSteps.{size_list};
ghost use Rattle.distribution_rules.specs.DistributionRules.{has_small_sum, have_small_sum, known_sizes};

use crate::dimensions::position_count;
use crate::evaluated_formats::FormatValue;
use expression_rules::{Dim, Evaluated};
use mappings::{BlockSizes, Form, MAX_BLOCK};
use std::alloc::{AllocError, Global};

/// The sizes of GEN_BLOCK for one of these dimensions are known, and their sum is below its extent.
pub(crate) fn have_small_sum(formats: &[FormatValue], dims: &[Option<Dim>]) -> bool
    requires { length formats.now ≡ length dims.now }
    ensures { result ≡ have_small_sum formats.now dims.now }
{
    let mut small = false;
    for place in 0..formats.len() {
        small |= has_small_sum(&formats[place], dims[place]);
    }
    small
}

/// The sizes of GEN_BLOCK are known, and their sum is below the extent of the dimension.
fn has_small_sum(format: &FormatValue, dim: Option<Dim>) -> bool
    ensures { result ≡ has_small_sum format.now dim }
{
    match (format, dim) {
        (FormatValue::GenBlock(sizes), Some(dim)) => {
            is_below(known_sum(sizes.as_slice()), position_count(dim))
        }
        _ => false,
    }
}

/// A number is known, and below another.
fn is_below(number: Option<u128>, other: u128) -> bool
    ensures { result ≡ passes (λ n. nat_lt n other) number }
{
    match number {
        None => false,
        Some(number) => number < other,
    }
}

/// The sum of sizes, where all are known.
fn known_sum(sizes: &[Evaluated<i64>]) -> Option<u128>
    ensures { result ≡ option_map sum (known_sizes sizes.now) }
{
    let mut total = 0;
    for size in sizes {
        match size {
            Evaluated::Known(n) => total += n.unsigned_abs() as u128,
            Evaluated::Invalid | Evaluated::Unknown => return None,
        }
    }
    Some(total)
}

/// The sizes, where all are known.
fn known_sizes(alloc: Global, sizes: &[Evaluated<i64>]) -> Result<Option<Vec<u64>>, AllocError>
    ensures { IfOk result (λ ns. size_list ns ≡ known_sizes sizes.now) }
{
    let mut known = Vec::new(alloc);
    for size in sizes {
        match size {
            Evaluated::Known(n) => known.push(n.unsigned_abs())?,
            Evaluated::Invalid | Evaluated::Unknown => return Ok(None),
        }
    }
    Ok(Some(known))
}

/// Blocks of these sizes, where all are known, there is one a processor, and none is above the limit.
pub(crate) fn known_blocks(
    alloc: Global,
    procs: u32,
    sizes: &[Evaluated<i64>],
) -> Result<Option<Form>, AllocError>
    requires { procs ≤ MAX_NODES }
    ensures { IfOk result (λ f. f ≡ option_and_then (gen_block procs) (known_sizes sizes.now)) }
{
    match known_sizes(alloc, sizes)? {
        None => Ok(None),
        Some(sizes) => {
            let form = gen_block(alloc, procs, sizes)?;
            Ok(form)
        }
    }
}

/// Blocks of these sizes, where there is one a processor, and none is above the limit.
fn gen_block(alloc: Global, procs: u32, sizes: Vec<u64>) -> Result<Option<Form>, AllocError>
    requires { procs ≤ MAX_NODES }
    ensures { IfOk result (λ f. f ≡ gen_block procs sizes.items) }
{
    if sizes.len() != procs as usize || !are_small(&sizes) {
        return Ok(None);
    }
    let blocks = BlockSizes::new(alloc, sizes)?;
    Ok(Some(Form::Gen(blocks)))
}

/// None of these sizes is above the limit.
fn are_small(sizes: &[u64]) -> bool
    ensures { result ≡ list_all (λ n. nat_le n MAX_BLOCK) sizes.now }
{
    sizes.iter().all(|n| *n <= MAX_BLOCK)
}

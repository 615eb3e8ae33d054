//! The places of a regular section that a node owns under CYCLIC(k).

ghost use Rattle.std.specs.Prelude.{◌≡◌, ◌≢◌, ◌+◌, ◌*◌, ◌≤◌, ◌<◌, ◌==◌, pos, ◌≤ℤ◌, IfOk, filter, length, ℕ};
ghost use Rattle.std.specs.List.{range_with_len};
ghost use Rattle.hpf_base.specs.declared.limits.TheConstants.{MAX_NODES};
ghost use Rattle.mappings.specs.declared.limits.TheConstants.{MAX_CYCLIC, MAX_TEMPLATE_EXTENT};
ghost use Rattle.mappings.specs.declared.mapping.Form.TheVariants.{Cyclic};
ghost use Rattle.mappings.specs.Owner.{coordinate_under};
ghost use Rattle.gap_table.specs.GapTable.{places_of};
ghost use Rattle.gap_table.specs.OwnedSequence.{owned_under};
ghost use Rattle.gap_table.specs.Residues.{AreOffsets};
ghost use Rattle.gap_table.specs.Sections.{IsLimited};

use crate::ascending::count_below;
use crate::sections::Section;
use crate::steps::Steps;
use crate::table::GapTable;
use congruences::{inverse_of, residue_of};
use hpf_base::OutOfMemory;
use std::alloc::Global;
use std::sync::ledger::Ledger;

/// The table of the places whose positions the node owns under CYCLIC(block).
pub(crate) fn cyclic_table<L: Ledger>(
    alloc: Global,
    block: u64,
    procs: u64,
    node: u64,
    section: Section,
    steps: &mut Steps<L>,
) -> Result<GapTable, OutOfMemory>
    requires block { 1 ≤ block }
    requires small { block ≤ MAX_CYCLIC }
    requires procs { procs ≤ MAX_NODES }
    requires node { node < procs }
    requires section { IsLimited section }
    ensures places { IfOk result (λ t. places_of t ≡ owned_under (Cyclic block) procs node section.start section.stride section.count) }
    ensures offsets { IfOk result (λ t. length t.offsets ≤ block) }
    ensures steps { steps.new ≤ steps.old + 2 * block }
    ensures counted { IfOk result (λ t. steps.old + length t.offsets ≤ steps.new) }
{
    // What remains of the stride leads to the same residues by the cycle, and isn't negative.
    let factor = residue_of(section.stride as i128, (block * procs) as u128) as u64;
    let Offsets { offsets, period } = cyclic_offsets(
        alloc,
        block,
        procs,
        node,
        section.start,
        factor,
        steps,
    )?;
    let count = section.count;
    let len = count / period * offsets.len() as u64 + count_below(&offsets, count % period) as u64;
    Ok(GapTable {
        base: 0,
        period,
        offsets,
        len,
    })
}

/// The places of one period that a node owns, ascending, and the length of the period.
struct Offsets {
    offsets: Vec<u64>,
    period: u64,
}

/// The places j of one period at which the node owns the position `start + factor * j` under CYCLIC(block). Counted from the node's
/// first position and by the cycle, that position has the residue `distance + factor * j`, and it is owned where the residue is
/// below block. The residues that occur are `distance % divisor` and each divisor-th one after it. The first of them is that
/// of the place with which `offset` begins, and each next one lies `inverse` places further, by the period.
fn cyclic_offsets<L: Ledger>(
    alloc: Global,
    block: u64,
    procs: u64,
    node: u64,
    start: u64,
    factor: u64,
    steps: &mut Steps<L>,
) -> Result<Offsets, OutOfMemory>
    requires block { 1 ≤ block }
    requires small { block ≤ MAX_CYCLIC }
    requires procs { procs ≤ MAX_NODES }
    requires node { node < procs }
    requires start { 1 ≤ start }
    requires near { start ≤ MAX_TEMPLATE_EXTENT }
    requires factor { factor < block * procs }
    ensures offsets { IfOk result (λ o. AreOffsets block procs node start factor o.offsets.items o.period) }
    ensures steps { steps.new ≤ steps.old + 2 * block }
    ensures counted { IfOk result (λ o. steps.old + length o.offsets.items ≤ steps.new) }
{
    let cycle = block * procs;
    let found = inverse_of(factor as u128, cycle as u128);
    let divisor = found.divisor as u64;
    let period = found.period as u64;
    let inverse = found.number as u64;
    let distance = start + cycle - (node * block + 1);
    let mut offsets = Vec::new(alloc);
    let mut residue = distance % divisor;
    let mut offset = (period - distance / divisor % period * inverse % period) % period;
    while residue < block {
        steps.tick();
        offsets.push(offset)?;
        steps.tick();
        residue += divisor;
        offset = (offset + inverse) % period;
    }
    offsets.sort_unstable();
    // All offsets differ, so nothing is dropped: this makes the list strictly ascending without a proof that they do.
    offsets.dedup();
    Ok(Offsets { offsets, period })
}

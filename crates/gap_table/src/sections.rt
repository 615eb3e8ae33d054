//! The places of a regular section whose positions stand in one section from a first to a last position.

ghost use Rattle.std.specs.Prelude.{◌≡◌, ◌≢◌, ◌+◌, ◌*◌, ◌≤◌, ◌<◌, pos, ◌≤ℤ◌, IfOk, filter, length, ℕ, unsigned_abs, nat_le, nat_lt, ◌&&◌};
ghost use Rattle.std.specs.List.{range_with_len};
ghost use Rattle.hpf_base.specs.declared.limits.TheConstants.{MAX_NODES};
ghost use Rattle.mappings.specs.declared.limits.TheConstants.{MAX_BLOCK};
ghost use Rattle.mappings.specs.Positions.{in_section};
ghost use Rattle.gap_table.specs.GapTable.{places_of};
ghost use Rattle.gap_table.specs.OwnedSequence.{position_of};
ghost use Rattle.gap_table.specs.Sections.{IsLimited};

use crate::steps::Steps;
use crate::table::GapTable;
use hpf_base::OutOfMemory;
use std::alloc::Global;
use std::sync::ledger::Ledger;

/// A regular section: `count` places, of which place j, from 0, is the position `start + stride * j`.
#[derive(Clone, Copy)]
pub(crate) struct Section {
    pub(crate) start: u64,
    pub(crate) stride: i64,
    pub(crate) count: u64,
}

/// The table of the places whose positions stand from `first` to `last`: they follow one another, so one offset serves all.
pub(crate) fn section_table<L: Ledger>(
    alloc: Global,
    first: u64,
    last: u64,
    section: Section,
    steps: &mut Steps<L>,
) -> Result<GapTable, OutOfMemory>
    requires first { 1 ≤ first }
    requires last { last ≤ MAX_BLOCK * MAX_NODES }
    requires section { IsLimited section }
    ensures places { IfOk result (λ t. places_of t
        ≡ filter (λ j. in_section first last (unsigned_abs (position_of section.start section.stride j))) (range_with_len 0 section.count)) }
    ensures offsets { IfOk result (λ t. length t.offsets ≤ 1) }
    ensures steps { steps.new ≤ steps.old + 1 }
    ensures counted { IfOk result (λ t. steps.old + length t.offsets ≤ steps.new) }
{
    let Span { begin, end } = span_of(first, last, section);
    let mut offsets = Vec::new(alloc);
    offsets.push(0)?;
    steps.tick();
    Ok(GapTable {
        base: begin,
        period: 1,
        offsets,
        len: end - begin,
    })
}

/// The places from `begin` up to `end`, without `end`.
struct Span {
    begin: u64,
    end: u64,
}

/// The places whose positions stand from `first` to `last`. An ascending section comes to `first` before `last`, a descending one
/// after it.
fn span_of(first: u64, last: u64, section: Section) -> Span
    requires first { 1 ≤ first }
    requires last { last ≤ MAX_BLOCK * MAX_NODES }
    requires section { IsLimited section }
    ensures order { result.begin ≤ result.end }
    ensures within { result.end ≤ section.count }
    ensures places { (j : ℕ) → j < section.count
        → in_section first last (unsigned_abs (position_of section.start section.stride j)) ≡ (nat_le result.begin j && nat_lt j result.end) }
{
    let Section {
        start,
        stride,
        count,
    } = section;
    let size = stride.unsigned_abs();
    if stride > 0 {
        span_between(
            first.saturating_sub(start),
            (last + 1).saturating_sub(start),
            size,
            count,
        )
    } else {
        span_between(
            start.saturating_sub(last),
            (start + 1).saturating_sub(first),
            size,
            count,
        )
    }
}

/// The places j below count at which `size * j` is at least `near` and below `far`.
fn span_between(near: u64, far: u64, size: u64, count: u64) -> Span
    requires { 1 ≤ size }
    ensures order { result.begin ≤ result.end }
    ensures within { result.end ≤ count }
    ensures places { (j : ℕ) → j < count → (nat_le near (j * size) && nat_lt (j * size) far) ≡ (nat_le result.begin j && nat_lt j result.end) }
{
    let end = far.div_ceil(size).min(count);
    Span {
        begin: near.div_ceil(size).min(end),
        end,
    }
}

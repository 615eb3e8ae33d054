//! Gap tables.

ghost use Rattle.std.specs.Prelude.{[], ◌≡◌, ◌≢◌, ◌+◌, ◌≤◌, ◌<◌, pos, IfOk, Some, None, if◌then◌else◌, nat_lt, length};
ghost use Rattle.mappings.specs.Mapping.{IsLine};
ghost use Rattle.gap_table.specs.GapTable.{IsCountUpTo, next, nth_of, places_of};
ghost use Rattle.gap_table.specs.OwnedSequence.{IsSectionOf, owned_sequence};
ghost use Rattle.gap_table.specs.Sizes.{most_offsets, most_steps};

use crate::ascending::count_below;
use crate::cyclic::cyclic_table;
use crate::sections::{Section, section_table};
use crate::steps::Steps;
use hpf_base::OutOfMemory;
use mappings::{Form, Line, MAX_TEMPLATE_EXTENT};
use std::alloc::Global;
use std::marker::{Brand, Model};
use std::sync::ledger::{Blank, Ledger};

/// Which places of a regular section a node owns, ascending. Contracts see the place at which the first period begins, how
/// long a period is, the offsets of the owned places in it, and how many owned places there are in all.
#[derive(Drop)]
pub struct GapTable {
    pub(crate) base: u64,
    pub(crate) period: u64,
    pub(crate) offsets: Vec<u64>,
    pub(crate) len: u64,
}

impl Model for GapTable {
    ghost use Rattle.gap_table.specs.GapTable.{GapView, IsGapTable};

    ghost Value = { GapView };

    ghost view = { λ t. record { base = t.base; period = t.period; offsets = t.offsets.items; len = t.len } };

    ghost invariant = { λ t. IsGapTable (record { base = t.base; period = t.period; offsets = t.offsets.items; len = t.len }) };
}

impl GapTable {
    /// The table of the places j, from 0 and below count, at which the processor with the coordinate `node` owns the position
    /// `start + stride * j` of the line, ascending. Positions are counted from 1. The stride isn't 0, and all these positions are inside the
    /// line. One step is one residue tried or one offset placed; those of a call that is refused stay counted. An `Err` is want
    /// of memory, here and below.
    pub fn build<L: Ledger>(
        alloc: Global,
        line: &Line,
        node: u32,
        start: u64,
        stride: i64,
        count: u64,
        steps: &mut Steps<L>,
    ) -> Result<GapTable, OutOfMemory>
        requires line { IsLine line.now }
        requires node { node < line.now.procs }
        requires stride { stride ≢ pos 0 }
        requires section { IsSectionOf line.now start stride count }
        ensures places { IfOk result (λ t. places_of t ≡ owned_sequence line.now node start stride count) }
        ensures offsets { IfOk result (λ t. length t.offsets ≤ most_offsets line.now.form) }
        ensures steps { steps.new ≤ steps.old + most_steps line.now.form }
        ensures counted { IfOk result (λ t. steps.old + length t.offsets ≤ steps.new) }
    {
        if count == 0 {
            return Ok(empty_table(alloc));
        }
        let section = Section {
            start,
            stride,
            count,
        };
        let node = node as u64;
        let table = match &line.form {
            Form::Whole => section_table(alloc, 1, line.extent, section, steps)?,
            Form::Block(m) => section_table(alloc, node * *m + 1, (node + 1) * *m, section, steps)?,
            Form::Cyclic(k) => cyclic_table(alloc, *k, line.procs as u64, node, section, steps)?,
            Form::Gen(sizes) => {
                let first = sizes.before(node as u32) + 1;
                section_table(alloc, first, sizes.end(node as u32), section, steps)?
            }
        };
        Ok(table)
    }

    /// The table that `build` gives for these arguments, with a counter of its own.
    pub fn of_section(
        alloc: Global,
        line: &Line,
        node: u32,
        start: u64,
        stride: i64,
        count: u64,
    ) -> Result<GapTable, OutOfMemory>
        requires line { IsLine line.now }
        requires node { node < line.now.procs }
        requires stride { stride ≢ pos 0 }
        requires section { IsSectionOf line.now start stride count }
        ensures places { IfOk result (λ t. places_of t ≡ owned_sequence line.now node start stride count) }
        ensures offsets { IfOk result (λ t. length t.offsets ≤ most_offsets line.now.form) }
    {
        counted::<Brand>(alloc, Blank::new(1), line, node, start, stride, count)
    }

    /// How many places there are. It takes no memory.
    pub fn len(&self) -> u64
        ensures { result ≡ self.now.len }
    {
        self.len
    }

    /// After how many numbers the places repeat. It takes no memory.
    pub fn period(&self) -> u64
        ensures value { result ≡ self.now.period }
        ensures some { 1 ≤ self.now.period }
    {
        self.period
    }

    /// How many places there are in a period. It takes no memory.
    pub fn in_period(&self) -> u64
        ensures value { result ≡ length self.now.offsets }
        ensures some { 1 ≤ self.now.len → 1 ≤ length self.now.offsets }
    {
        self.offsets.len() as u64
    }

    /// The n-th place, counted from 0; None exactly where n isn't below the length. It takes no memory.
    pub fn nth(&self, n: u64) -> Option<u64>
        ensures { result ≡ (if nat_lt n self.now.len then Some (nth_of self.now n) else None) }
    {
        if n >= self.len {
            return None;
        }
        let in_period = self.offsets.len() as u64;
        let offset = self.offsets[(n % in_period) as usize];
        Some(self.base + (offset + self.period * (n / in_period)))
    }

    /// The least place above j; None exactly where no place is above j. It takes no memory.
    pub fn next(&self, j: u64) -> Option<u64>
        ensures { result ≡ next self.now j }
    {
        let count = self.up_to(j);
        self.nth(count)
    }

    /// How many places are at most j, by halving over one period. It takes no memory.
    pub fn up_to(&self, j: u64) -> u64
        ensures { IsCountUpTo self.now j result }
    {
        if j < self.base {
            return 0;
        }
        let distance = j - self.base;
        // All places are below this limit; under it no product overflows.
        if distance >= MAX_TEMPLATE_EXTENT {
            return self.len;
        }
        let in_period = self.offsets.len() as u64;
        let in_last = count_below(&self.offsets, distance % self.period + 1) as u64;
        (distance / self.period * in_period + in_last).min(self.len)
    }
}

/// The table that `build` gives, with a counter over the ledger that the blank opens.
fn counted<L: Ledger>(
    alloc: Global,
    blank: Blank,
    line: &Line,
    node: u32,
    start: u64,
    stride: i64,
    count: u64,
) -> Result<GapTable, OutOfMemory>
    requires name { blank.name ≡ L.name }
    requires parts { blank.parts ≡ L.parts }
    requires one { blank.parts ≡ 1 }
    requires line { IsLine line.now }
    requires node { node < line.now.procs }
    requires stride { stride ≢ pos 0 }
    requires section { IsSectionOf line.now start stride count }
    ensures places { IfOk result (λ t. places_of t ≡ owned_sequence line.now node start stride count) }
    ensures offsets { IfOk result (λ t. length t.offsets ≤ most_offsets line.now.form) }
{
    let mut steps = Steps::<L>::new(blank);
    let table = GapTable::build(alloc, line, node, start, stride, count, &mut steps)?;
    Ok(table)
}

/// The table of no places.
fn empty_table(alloc: Global) -> GapTable
    ensures { result ≡ record { base = 0; period = 1; offsets = []; len = 0 } }
{
    GapTable {
        base: 0,
        period: 1,
        offsets: Vec::new(alloc),
        len: 0,
    }
}

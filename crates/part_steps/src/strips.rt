//! What a part comes to at a strip of the tuples that a node computes.

ghost use Rattle.std.specs.Prelude.{◌≡◌, ℕ, ◌+◌, ◌-◌, ◌*◌, ◌%◌, ◌^◌, ◌<◌, ◌≤◌, length, slice_index, true, IfOk, IfSome, MatchOption};
ghost use Rattle.tuple_values.specs.Strips.{strip_tuple};
ghost use Rattle.part_steps.specs.Exchanged.{IsComputed};
ghost use Rattle.part_steps.specs.Gathered.{after_of};
ghost use Rattle.part_steps.specs.Strips.{AreOutcomes, AreReferencesOf, IsStripOf};

use crate::gathered::Gathered;
use crate::lines::is_near;
use hpf_base::OutOfMemory;
use tuple_numbers::Run;
use tuple_values::{ElementLine, References, Strip};

/// How many tuples a strip has at least: fewer aren't worth one.
const FEWEST: usize = 8;

/// How many it has at most.
const MOST: usize = 256;

/// The values at the tuples of a strip, and what is assigned there, where something is.
#[derive(Drop)]
pub(crate) struct StripOutcome {
    pub(crate) left: Option<ElementLine>,
    pub(crate) values: Vec<i64>,
}

/// What the statement of a part names, one reference for each read, where strips may be worth it.
pub(crate) fn references_of(gathered: &Gathered<'_>) -> Result<Option<References>, OutOfMemory>
    ensures { IfOk result (AreReferencesOf gathered.now) }
{
    if gathered.computed().len() < FEWEST {
        return Ok(None);
    }
    let Some(references) = gathered.part.statement.references()? else {
        return Ok(None);
    };
    if !references.in_order {
        return Ok(None);
    }
    Ok(Some(references))
}

/// What a strip comes to, by what the statement names. None is no answer.
pub(crate) fn strip_outcome(
    gathered: &Gathered<'_>,
    references: &Option<References>,
    s: Strip,
) -> Result<Option<StripOutcome>, OutOfMemory>
    requires computed { (k : ℕ) → k < s.count → IsComputed (after_of gathered.now) (strip_tuple s k) }
    requires references { AreReferencesOf gathered.now references.now }
    ensures { IfOk result (λ p. IfSome p (AreOutcomes (after_of gathered.now) s)) }
{
    if s.count < FEWEST {
        return Ok(None);
    }
    let Some(references) = references else {
        return Ok(None);
    };
    let statement = gathered.part.statement;
    let Some(lines) = statement.strip_lines(references, s)? else {
        return Ok(None);
    };
    if !is_left_near(lines.left, s.count) {
        return Ok(None);
    }
    match statement.strip_values(s, &lines, gathered)? {
        None => Ok(None),
        Some(values) => Ok(Some(StripOutcome {
            left: lines.left,
            values,
        })),
    }
}

/// Whether the positions of what is assigned are numbers of 64 bits.
fn is_left_near(left: Option<ElementLine>, count: usize) -> bool
    ensures { result ≡ true → IfSome left (λ l. l.first.at + (count - 1) * l.step < 2 ^ 64) }
{
    match left {
        None => true,
        Some(line) => is_near(line, count),
    }
}

/// The first extent of the space, where the names are known: how long a row of the first axis is. 0 is no answer.
pub(crate) fn row_of(references: &Option<References>) -> u64
    ensures { MatchOption references.now (result ≡ 0) (λ r. result ≡ slice_index r.extents.items 0) }
{
    match references {
        None => 0,
        Some(references) => match references.extents.first() {
            None => 0,
            Some(extent) => *extent,
        },
    }
}

/// The tuples of a run from an index on, as long as they go by equal steps and lie in one row of the first axis, which is so long: one at
/// least. Where a row's length is 0 they may lie anywhere.
pub(crate) fn strip_from(run: &Run<'_>, from: usize, row: u64) -> Strip
    requires { from < length run.now }
    ensures some { 0 < result.count }
    ensures tuples { IsStripOf run.now from result }
    ensures row { 0 < row → result.first % row + (result.count - 1) * result.step < row }
{
    let first = run.at(from);
    let most = at_most(run.len() - from, MOST);
    if most < 2 || run.at(from + 1) < first {
        return Strip {
            first,
            step: 1,
            count: 1,
        };
    }
    let step = run.at(from + 1) - first;
    let end = row_end(first, row);
    let mut last = first;
    let mut count = 1;
    while count < most {
        let next = run.at(from + count);
        if next > end || next < last || next - last != step {
            break;
        }
        last = next;
        count += 1;
    }
    Strip { first, step, count }
}

/// The last tuple of the row that a tuple lies in, where rows are so long; the greatest number of 64 bits where there is no such tuple, and
/// where a row's length is 0.
fn row_end(tuple: usize, row: u64) -> usize
    ensures order { tuple ≤ result }
    ensures row { 0 < row → tuple % row + (result - tuple) < row }
{
    if row == 0 {
        return usize::MAX;
    }
    tuple.saturating_add((row - 1 - tuple as u64 % row) as usize)
}

/// A number, and no more than another.
fn at_most(number: usize, most: usize) -> usize
    requires { 0 < most }
    ensures number { result ≤ number }
    ensures most { result ≤ most }
    ensures some { 0 < number → 0 < result }
{
    if number < most { number } else { most }
}

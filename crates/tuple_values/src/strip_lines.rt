//! What the tuples of a strip read and assign, by its first two tuples and its last: between them the places go by equal steps.

ghost use Rattle.std.specs.Prelude.{◌≡◌, ◌<◌, option_map, IfOk, IfSome, Some};
ghost use Rattle.course_forms.specs.Views.{named_of, names_of};
ghost use Rattle.tuple_values.specs.NamedElements.{AreInOrder, AreReferences};
ghost use Rattle.tuple_values.specs.Spots.{read_of, reads_of};
ghost use Rattle.tuple_values.specs.Statements.{tuple_count, tuple_left, tuple_reads};
ghost use Rattle.tuple_values.specs.StripEnds.{AreEnds, AreLines, IsLine};
ghost use Rattle.tuple_values.specs.Strips.{AreReadLines, IsInRow, IsLeftLine, IsWithin, line_spot, spots_at, strip_tuple};
ghost use Rattle.tuple_values.specs.Views.{statement};

use crate::references::References;
use crate::statement::ParallelStatement;
use crate::strips::{ElementLine, Strip, StripLines};
use hpf_base::OutOfMemory;
use std::alloc::Global;
use storage::Spot;

/// The first two tuples of a strip and the last, which has a place in it.
#[derive(Clone, Copy)]
struct Ends {
    first: usize,
    second: usize,
    last: usize,
    place: usize,
}

/// What is assigned at the tuples of a strip, where something is.
#[derive(Clone, Copy)]
struct LeftLine {
    line: Option<ElementLine>,
}

impl<'a> ParallelStatement<'a> {
    /// What the tuples of a strip read and assign, by what the statement names. None is no answer: where they don't lie in one row of the
    /// first axis, where they are one or none, and where a place is out of bounds or goes down.
    pub fn strip_lines(
        &self,
        references: &References,
        s: Strip,
    ) -> Result<Option<StripLines>, OutOfMemory>
        requires references { AreReferences (statement self.now) references.now.extents.items (option_map named_of references.now.left) (names_of references.now.reads.items) }
        requires order { AreInOrder (statement self.now) references.now.extents.items (names_of references.now.reads.items) }
        requires within { IsWithin (statement self.now) s }
        ensures row { IfOk result (λ p. IfSome p (λ _. IsInRow (statement self.now).extents s)) }
        ensures reads { IfOk result (λ p. IfSome p (λ lines. AreReadLines (statement self.now) s lines.reads.items)) }
        ensures left { IfOk result (λ p. IfSome p (λ lines. IsLeftLine (statement self.now) s lines.left)) }
    {
        let Some(ends) = ends_of(&references.extents, s) else {
            return Ok(None);
        };
        let Some(left) = self.left_line(references, s, ends)? else {
            return Ok(None);
        };
        match self.reads_at_ends(s, ends)? {
            None => Ok(None),
            Some(reads) => Ok(Some(StripLines {
                reads,
                left: left.line,
            })),
        }
    }

    /// What is assigned at the tuples of a strip with these ends.
    fn left_line(
        &self,
        references: &References,
        s: Strip,
        ends: Ends,
    ) -> Result<Option<LeftLine>, OutOfMemory>
        requires references { AreReferences (statement self.now) references.now.extents.items (option_map named_of references.now.left) (names_of references.now.reads.items) }
        requires within { IsWithin (statement self.now) s }
        requires ends { AreEnds s ends }
        requires row { IsInRow references.now.extents.items s }
        ensures { IfOk result (λ p. IfSome p (λ l. IsLeftLine (statement self.now) s l.line)) }
    {
        match &references.left {
            None => Ok(Some(LeftLine { line: None })),
            Some(_) => match self.left_at_ends(s, ends)? {
                None => Ok(None),
                Some(line) => Ok(Some(LeftLine { line: Some(line) })),
            },
        }
    }

    /// What is assigned at the ends.
    fn left_at_ends(&self, s: Strip, ends: Ends) -> Result<Option<ElementLine>, OutOfMemory>
        requires within { IsWithin (statement self.now) s }
        requires ends { AreEnds s ends }
        ensures { IfOk result (λ p. IfSome p (IsLine (tuple_left (statement self.now)) s)) }
    {
        let first = self.left(ends.first)?;
        let second = self.left(ends.second)?;
        let last = self.left(ends.last)?;
        Ok(line_by(first, second, last, ends.place))
    }

    /// What is read at the ends.
    fn reads_at_ends(&self, s: Strip, ends: Ends) -> Result<Option<Vec<ElementLine>>, OutOfMemory>
        requires within { IsWithin (statement self.now) s }
        requires ends { AreEnds s ends }
        ensures { IfOk result (λ p. IfSome p (λ ls. AreLines (tuple_reads (statement self.now)) s ls.items)) }
    {
        let alloc = *self.space.extents.allocator();
        let first = self.reads_at(alloc, ends.first)?;
        let second = self.reads_at(alloc, ends.second)?;
        let last = self.reads_at(alloc, ends.last)?;
        lines_by(alloc, &first, &second, &last, ends.place)
    }

    /// What is read at a tuple.
    fn reads_at(&self, alloc: Global, tuple: usize) -> Result<Vec<Option<Spot>>, OutOfMemory>
        requires { tuple < tuple_count (statement self.now) }
        ensures { IfOk result (λ reads. reads_of reads.items ≡ tuple_reads (statement self.now) tuple) }
    {
        let mut reads = Vec::new(alloc);
        self.read(tuple, &mut reads)?;
        Ok(reads)
    }
}

/// The ends of a strip of two tuples or more that lie in one row of the first axis.
fn ends_of(extents: &[u64], s: Strip) -> Option<Ends>
    ensures ends { IfSome result (AreEnds s) }
    ensures row { IfSome result (λ _. IsInRow extents.now s) }
{
    if extents.is_empty() || s.count < 2 {
        return None;
    }
    let place = s.count - 1;
    let way = place.checked_mul(s.step)?;
    let second = s.first.checked_add(s.step)?;
    let last = s.first.checked_add(way)?;
    let extent = extents[0];
    if extent == 0 || way as u64 >= extent - s.first as u64 % extent {
        return None;
    }
    Some(Ends {
        first: s.first,
        second,
        last,
        place,
    })
}

/// The lines of what is read, by that of the first two tuples and of the last.
fn lines_by(
    alloc: Global,
    first: &[Option<Spot>],
    second: &[Option<Spot>],
    last: &[Option<Spot>],
    place: usize,
) -> Result<Option<Vec<ElementLine>>, OutOfMemory>
    ensures { IfOk result (λ p. IfSome p (λ ls. (reads_of first.now ≡ spots_at ls.items 0) × (reads_of second.now ≡ spots_at ls.items 1) × (reads_of last.now ≡ spots_at ls.items place))) }
{
    if second.len() != first.len() || last.len() != first.len() {
        return Ok(None);
    }
    let mut lines = Vec::with_capacity(alloc, first.len())?;
    for index in 0..first.len() {
        match line_by(first[index], second[index], last[index], place) {
            Some(line) => lines.push(line)?,
            None => return Ok(None),
        }
    }
    Ok(Some(lines))
}

/// The line of elements of a row, by the first two and the one at a place.
fn line_by(
    first: Option<Spot>,
    second: Option<Spot>,
    last: Option<Spot>,
    place: usize,
) -> Option<ElementLine>
    ensures first { IfSome result (λ l. read_of first ≡ Some (line_spot l 0)) }
    ensures second { IfSome result (λ l. read_of second ≡ Some (line_spot l 1)) }
    ensures last { IfSome result (λ l. read_of last ≡ Some (line_spot l place)) }
{
    let first = first?;
    let second = second?;
    let last = last?;
    if second.row != first.row || last.row != first.row || second.at < first.at {
        return None;
    }
    let step = second.at - first.at;
    let way = place.checked_mul(step)?;
    if last.at < first.at || last.at - first.at != way {
        return None;
    }
    Some(ElementLine { first, step })
}

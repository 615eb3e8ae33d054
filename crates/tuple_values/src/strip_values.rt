//! The values of a statement at the tuples of a strip.

ghost use Rattle.std.specs.Prelude.{◌≡◌, ◌<◌, [], drop, length, map, slice_index_or, slice_set, pos, true, IfOk, IfSome, Some};
ghost use Rattle.node_code.specs.Texts.{when};
ghost use Rattle.tuple_values.specs.FormStrips.{AreMade, HavePlaces};
ghost use Rattle.tuple_values.specs.Statements.{made_by};
ghost use Rattle.tuple_values.specs.Strips.{AreReadLines, AreStripValues, IsInRow, IsLeftLine};
ghost use Rattle.tuple_values.specs.Views.{statement};

use crate::elements::Elements;
use crate::form_strips::right_strip;
use crate::statement::ParallelStatement;
use crate::strips::{ElementLine, Strip, StripLines};
use crate::target::Target;
use hpf_base::OutOfMemory;
use node_code::When;
use op_tables::Made;

impl<'a> ParallelStatement<'a> {
    /// The values at the tuples of a strip, of which this is what they read and assign. None is no answer: where one comes to a fault, under masks, and where
    /// what is evaluated isn't of one of the forms that are known.
    pub fn strip_values<E: Elements>(
        &self,
        s: Strip,
        lines: &StripLines,
        elements: &E,
    ) -> Result<Option<Vec<i64>>, OutOfMemory>
        requires row { IsInRow (statement self.now).extents s }
        requires reads { AreReadLines (statement self.now) s lines.now.reads.items }
        requires left { IsLeftLine (statement self.now) s lines.now.left }
        ensures { IfOk result (λ p. IfSome p (λ vs. AreStripValues (statement self.now) s (E.get elements.now) vs.items)) }
    {
        if is_unmasked(self.whens) && self.has_places(s, lines.left) {
            self.unmasked_values(s, &lines.reads, elements)
        } else {
            Ok(None)
        }
    }

    /// Those of a statement without masks.
    fn unmasked_values<E: Elements>(
        &self,
        s: Strip,
        reads: &[ElementLine],
        elements: &E,
    ) -> Result<Option<Vec<i64>>, OutOfMemory>
        requires unmasked { (statement self.now).whens ≡ [] }
        requires places { HavePlaces (statement self.now) s }
        requires row { IsInRow (statement self.now).extents s }
        requires reads { AreReadLines (statement self.now) s reads.now }
        ensures { IfOk result (λ p. IfSome p (λ vs. AreStripValues (statement self.now) s (E.get elements.now) vs.items)) }
    {
        let Some(lines) = lines_after(self.copies, reads) else {
            return Ok(None);
        };
        match right_strip(self, s, lines, elements)? {
            None => Ok(None),
            Some(values) => Ok(Some(all_made(self.made, values))),
        }
    }

    /// Whether what is assigned at each tuple has a place, which it has where nothing is assigned.
    #[tactic(auto, using(crate::proofs::StripValues::places_nowhere, crate::proofs::StripValues::places_on_line))]
    fn has_places(&self, s: Strip, left: Option<ElementLine>) -> bool
        requires { IsLeftLine (statement self.now) s left }
        ensures { result ≡ true → HavePlaces (statement self.now) s }
    {
        match &self.target {
            Target::Nothing => true,
            _ => left.is_some(),
        }
    }
}

/// Whether there are no masks.
fn is_unmasked(whens: &[When]) -> bool
    ensures { result ≡ true → map when whens.now ≡ [] }
{
    match whens {
        [] => true,
        _ => false,
    }
}

/// The lines after those of the copies.
fn lines_after<'b>(copies: &[usize], lines: &'b [ElementLine]) -> Option<&'b [ElementLine]>
    ensures { IfSome result (λ rest. rest.now ≡ drop (length copies.now) lines.now) }
{
    if copies.len() > lines.len() {
        return None;
    }
    Some(&lines[copies.len()..])
}

/// What is made of values, where something is.
fn all_made(made: Option<Made>, values: Vec<i64>) -> Vec<i64>
    ensures { AreMade made values.items result.items }
{
    match made {
        None => values,
        Some(made) => all_made_by(made, values),
    }
}

/// What is made of values.
fn all_made_by(made: Made, values: Vec<i64>) -> Vec<i64>
    ensures { AreMade (Some made) values.items result.items }
{
    let mut values = values;
    for index in 0..values.len() {
        make(made, &mut values, index);
    }
    values
}

/// What is made of one of them.
#[inline(always)]
fn make(made: Made, values: &mut [i64], index: usize)
    requires { index < length values.old }
    ensures { values.new ≡ slice_set values.old index (made_by (Some made) (slice_index_or values.old index (pos 0))) }
{
    values[index] = made.of(values[index]);
}

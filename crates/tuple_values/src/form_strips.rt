//! The values of array expressions at the tuples of a strip: each operator is taken over all of them before the next one.

ghost use Rattle.std.specs.Prelude.{◌≡◌, ◌∷◌, [], ℕ, List, length, IfOk, IfSome};
ghost use Rattle.node_code.specs.Forms.{AndForm, NoForm, OperationForm, SectionForm, Sub};
ghost use Rattle.node_code.specs.Texts.{form, forms_of};
ghost use Rattle.tuple_values.specs.Fixed.{IsFixedForm};
ghost use Rattle.tuple_values.specs.declared.strips.ElementLine.{ElementLine};
ghost use Rattle.tuple_values.specs.FormStrips.{IsFormStrip, all_section_counts, section_count};
ghost use Rattle.tuple_values.specs.SplitLines.{AreSplit};
ghost use Rattle.tuple_values.specs.Strips.{IsInRow};
ghost use Rattle.tuple_values.specs.Views.{statement};

use crate::elements::Elements;
use crate::fixed::fixed_form_value;
use crate::flat_strips::flat_strip;
use crate::right::Right;
use crate::statement::ParallelStatement;
use crate::strips::{ElementLine, Strip};
use hpf_base::OutOfMemory;
use node_code::ArrayForm;
use op_tables::Op;
use strip_operators::{take_of_one, take_of_two, take_with_number};

/// The values of what a statement evaluates, where these lines are what it reads.
pub(crate) fn right_strip<E: Elements>(
    w: &ParallelStatement<'_>,
    s: Strip,
    lines: &[ElementLine],
    elements: &E,
) -> Result<Option<Vec<i64>>, OutOfMemory>
    requires { IsInRow (statement w.now).extents s }
    ensures { IfOk result (λ p. IfSome p (λ vs. IsFormStrip (statement w.now) s (E.get elements.now) (statement w.now).form lines.now vs.items)) }
{
    match &w.right {
        Right::Form(f) => form_strip(w, s, f, lines, elements),
        Right::Section(_, _) => line_strip(w, s, lines, elements),
    }
}

/// The values of an array expression. None is no answer: where a value is a fault, and where a part isn't of one of the forms that are known here.
#[cycle(form_strip)]
fn form_strip<E: Elements>(
    w: &ParallelStatement<'_>,
    s: Strip,
    f: &ArrayForm,
    lines: &[ElementLine],
    elements: &E,
) -> Result<Option<Vec<i64>>, OutOfMemory>
    requires { IsInRow (statement w.now).extents s }
    ensures { IfOk result (λ p. IfSome p (λ vs. IsFormStrip (statement w.now) s (E.get elements.now) (form f.now) lines.now vs.items)) }
{
    match f {
        ArrayForm::Flat(f) => flat_strip(w, s, f, elements),
        ArrayForm::Section(_, _) => line_strip(w, s, lines, elements),
        ArrayForm::Operation(op, fs) => operation_strip(w, s, *op, fs, lines, elements),
    }
}

/// The values of a section's elements, where this line alone is what is read.
fn line_strip<E: Elements>(
    w: &ParallelStatement<'_>,
    s: Strip,
    lines: &[ElementLine],
    elements: &E,
) -> Result<Option<Vec<i64>>, OutOfMemory>
    ensures { IfOk result (λ p. IfSome p (λ vs. (a : ℕ) (ds : List Sub)
        → IsFormStrip (statement w.now) s (E.get elements.now) (SectionForm a ds) lines.now vs.items)) }
{
    let Some(line) = only_line(lines) else {
        return Ok(None);
    };
    let alloc = *w.space.extents.allocator();
    elements.line(alloc, line.first, line.step, s.count)
}

/// The line that stands alone.
fn only_line(lines: &[ElementLine]) -> Option<ElementLine>
    ensures { IfSome result (λ l. lines.now ≡ l ∷ []) }
{
    match lines {
        [line] => Some(*line),
        _ => None,
    }
}

/// The values of an operator.
#[cycle(form_strip)]
fn operation_strip<E: Elements>(
    w: &ParallelStatement<'_>,
    s: Strip,
    op: Op,
    fs: &Vec<ArrayForm>,
    lines: &[ElementLine],
    elements: &E,
) -> Result<Option<Vec<i64>>, OutOfMemory>
    requires { IsInRow (statement w.now).extents s }
    ensures { IfOk result (λ p. IfSome p (λ vs. IsFormStrip (statement w.now) s (E.get elements.now) (OperationForm op (forms_of fs.now.items)) lines.now vs.items)) }
{
    if fs.len() == 1 {
        return strip_of_one(w, s, op, fs, lines, elements);
    }
    if fs.len() == 2 {
        return strip_of_two(w, s, op, fs, lines, elements);
    }
    Ok(None)
}

/// The values of an operator of one operand.
#[cycle(form_strip)]
fn strip_of_one<E: Elements>(
    w: &ParallelStatement<'_>,
    s: Strip,
    op: Op,
    fs: &Vec<ArrayForm>,
    lines: &[ElementLine],
    elements: &E,
) -> Result<Option<Vec<i64>>, OutOfMemory>
    requires one { length fs.now.items ≡ 1 }
    requires row { IsInRow (statement w.now).extents s }
    ensures { IfOk result (λ p. IfSome p (λ vs. IsFormStrip (statement w.now) s (E.get elements.now) (OperationForm op (forms_of fs.now.items)) lines.now vs.items)) }
{
    let Some(values) = form_strip(w, s, &fs[0], lines, elements)? else {
        return Ok(None);
    };
    let taken = taken_of_one(w, s, op, &fs[0], lines, values, elements);
    Ok(taken)
}

/// By the values of the operand.
#[tactic(auto, using(crate::proofs::FormStrips::of_one))]
fn taken_of_one<E: Elements>(
    w: &ParallelStatement<'_>,
    s: Strip,
    op: Op,
    f: &ArrayForm,
    lines: &[ElementLine],
    values: Vec<i64>,
    elements: &E,
) -> Option<Vec<i64>>
    requires { IsFormStrip (statement w.now) s (E.get elements.now) (form f.now) lines.now values.items }
    ensures { IfSome result (λ vs. IsFormStrip (statement w.now) s (E.get elements.now) (OperationForm op (AndForm (form f.now) NoForm)) lines.now vs.items) }
{
    let mut values = values;
    if take_of_one(op, &mut values) {
        Some(values)
    } else {
        None
    }
}

/// The values of an operator of two operands.
#[cycle(form_strip)]
fn strip_of_two<E: Elements>(
    w: &ParallelStatement<'_>,
    s: Strip,
    op: Op,
    fs: &Vec<ArrayForm>,
    lines: &[ElementLine],
    elements: &E,
) -> Result<Option<Vec<i64>>, OutOfMemory>
    requires two { length fs.now.items ≡ 2 }
    requires row { IsInRow (statement w.now).extents s }
    ensures { IfOk result (λ p. IfSome p (λ vs. IsFormStrip (statement w.now) s (E.get elements.now) (OperationForm op (forms_of fs.now.items)) lines.now vs.items)) }
{
    let Some(split) = split_lines(&fs[0], lines) else {
        return Ok(None);
    };
    let Some(first) = form_strip(w, s, &fs[0], split.first, elements)? else {
        return Ok(None);
    };
    if let Some(v) = fixed_form_value(w.slots, &fs[1])? {
        let taken = taken_with_number(w, s, op, &fs[0], &fs[1], split, first, &v.value, elements);
        return Ok(taken);
    }
    let Some(second) = form_strip(w, s, &fs[1], split.rest, elements)? else {
        return Ok(None);
    };
    let taken = taken_of_two(w, s, op, &fs[0], &fs[1], split, first, &second, elements);
    Ok(taken)
}

/// By the values of the first operand and the one of the second, which is the same at all tuples.
#[tactic(auto, using(crate::proofs::FormStrips::with_number))]
fn taken_with_number<E: Elements>(
    w: &ParallelStatement<'_>,
    s: Strip,
    op: Op,
    f: &ArrayForm,
    g: &ArrayForm,
    split: SplitLines<'_>,
    first: Vec<i64>,
    second: &i64,
    elements: &E,
) -> Option<Vec<i64>>
    requires first { IsFormStrip (statement w.now) s (E.get elements.now) (form f.now) split.first.now first.items }
    requires second { IsFixedForm (statement w.now).slots (form g.now) second.now }
    ensures { IfSome result (λ vs. (lines : List ElementLine) → AreSplit f.now split.entry lines
        → IsFormStrip (statement w.now) s (E.get elements.now) (OperationForm op (AndForm (form f.now) (AndForm (form g.now) NoForm))) lines vs.items) }
{
    let mut values = first;
    if take_with_number(op, &mut values, second) {
        Some(values)
    } else {
        None
    }
}

/// By the values of both operands.
#[tactic(auto, using(crate::proofs::FormStrips::of_two))]
fn taken_of_two<E: Elements>(
    w: &ParallelStatement<'_>,
    s: Strip,
    op: Op,
    f: &ArrayForm,
    g: &ArrayForm,
    split: SplitLines<'_>,
    first: Vec<i64>,
    second: &[i64],
    elements: &E,
) -> Option<Vec<i64>>
    requires first { IsFormStrip (statement w.now) s (E.get elements.now) (form f.now) split.first.now first.items }
    requires second { IsFormStrip (statement w.now) s (E.get elements.now) (form g.now) split.rest.now second.now }
    ensures { IfSome result (λ vs. (lines : List ElementLine) → AreSplit f.now split.entry lines
        → IsFormStrip (statement w.now) s (E.get elements.now) (OperationForm op (AndForm (form f.now) (AndForm (form g.now) NoForm))) lines vs.items) }
{
    let mut values = first;
    if take_of_two(op, &mut values, second) {
        Some(values)
    } else {
        None
    }
}

/// Lines that an operand reads, and those after them.
#[derive(Clone, Copy)]
struct SplitLines<'a> {
    first: &'a [ElementLine],
    rest: &'a [ElementLine],
}

/// The lines that an array expression reads, of all that begin with them.
fn split_lines<'a>(f: &ArrayForm, lines: &'a [ElementLine]) -> Option<SplitLines<'a>>
    ensures { IfSome result (λ split. AreSplit f.now split lines.now) }
{
    let count = section_count(f)?;
    if count > lines.len() {
        return None;
    }
    Some(SplitLines {
        first: &lines[..count],
        rest: &lines[count..],
    })
}

/// How many sections stand in an array expression; None where they are too many to be counted.
#[cycle(section_count)]
fn section_count(f: &ArrayForm) -> Option<usize>
    ensures { IfSome result (λ n. n ≡ section_count (form f.now)) }
{
    match f {
        ArrayForm::Flat(_) => Some(0),
        ArrayForm::Section(_, _) => Some(1),
        ArrayForm::Operation(_, fs) => all_section_counts(fs),
    }
}

/// How many stand in these.
#[cycle(section_count)]
fn all_section_counts(fs: &Vec<ArrayForm>) -> Option<usize>
    ensures { IfSome result (λ n. n ≡ all_section_counts (forms_of fs.now.items)) }
{
    let mut sum: usize = 0;
    for f in fs {
        let count = section_count(f)?;
        sum = sum.checked_add(count)?;
    }
    Some(sum)
}

//! Directives closed up: their blank lines come last.

ghost use Rattle.std.specs.Prelude.{◌≡◌, ◌≤◌, ◌<◌, ◌+◌, ◌++◌, ◌∷◌, [], IfOk, OnOk, List, drop, length};
ghost use Rattle.std.specs.List.{prefix_len};
ghost use Rattle.fixed_lines.specs.FixedLines.{FixedLine as Line};
ghost use Rattle.fixed_lines.specs.FreeText as spec;
ghost use Rattle.fixed_lines.specs.FreeText.{closed_directive, contents, continues_directive, with_codes};

use crate::breach::is_directive;
use crate::fixed_line::FixedLine;
use source_lines::all_blank;
use std::alloc::{AllocError, Global};

/// The line continues a directive.
fn continues_directive(line: &FixedLine<'_>) -> bool
    ensures { result ≡ continues_directive line.now }
{
    line.continues() && is_directive(line)
}

/// How many lines in front continue a directive.
fn continuing_lines(lines: &[FixedLine<'_>]) -> usize
    ensures within { result ≤ length lines.now }
    ensures count { result ≡ prefix_len continues_directive lines.now }
{
    for (i, line) in lines.iter().enumerate() {
        if !continues_directive(line) {
            return i;
        }
    }
    lines.len()
}

/// How many lines the first one makes a directive with; any other line stands alone.
fn directive_len(lines: &[FixedLine<'_>]) -> usize
    ensures within { result ≤ length lines.now }
    ensures some { 0 < length lines.now → 0 < result }
    ensures len { result ≡ spec.directive_len lines.now }
{
    let Some((line, rest)) = lines.split_first() else {
        return 0;
    };
    if is_directive(line) {
        continuing_lines(rest) + 1
    } else {
        1
    }
}

/// The first directive line with those that continue it, or the first line.
fn first_directive<'a, 'b>(lines: &'b [FixedLine<'a>]) -> &'b [FixedLine<'a>]
    ensures within { length result.now ≤ length lines.now }
    ensures some { 0 < length lines.now → 0 < length result.now }
    ensures closed { spec.closed_up lines.now ≡ closed_directive result.now ++ spec.closed_up (drop (length result.now) lines.now) }
{
    let (directive, _) = lines.split_at(directive_len(lines));
    directive
}

/// What stands on a line, unless it is blank, after the other lines: in the place `place` of these lines. Gives the next place.
fn push_content<'a>(
    lines: &[FixedLine<'_>],
    place: usize,
    line: &FixedLine<'a>,
    closed: &mut Vec<FixedLine<'a>>,
) -> Result<usize, AllocError>
    requires { place < length lines.now }
    ensures next { IfOk result (λ next. next ≤ place + 1) }
    ensures closed { IfOk result (λ next. (rest : List Line) → closed.new.items ++ with_codes (drop next lines.now) (contents rest) ≡ closed.old.items ++ with_codes (drop place lines.now) (contents (line.now ∷ rest))) }
{
    if all_blank(line.code()) {
        return Ok(place);
    }
    closed.push(lines[place].with_code(line.code()))?;
    Ok(place + 1)
}

/// The lines with something on them after the others, in the first places of these lines. Gives how many they are.
fn push_contents<'a>(
    lines: &[FixedLine<'a>],
    closed: &mut Vec<FixedLine<'a>>,
) -> Result<usize, AllocError>
    ensures within { IfOk result (λ count. count ≤ length lines.now) }
    ensures closed { IfOk result (λ count. closed.new.items ++ with_codes (drop count lines.now) [] ≡ closed.old.items ++ with_codes lines.now (contents lines.now)) }
{
    let mut place = 0;
    for line in lines {
        place = push_content(lines, place, line, closed)?;
    }
    Ok(place)
}

/// The lines after the others, with nothing on them.
fn push_blanks<'a>(
    lines: &[FixedLine<'a>],
    closed: &mut Vec<FixedLine<'a>>,
) -> Result<(), AllocError>
    ensures { OnOk result (closed.new.items ≡ closed.old.items ++ with_codes lines.now []) }
{
    for line in lines {
        closed.push(line.left_blank())?;
    }
    Ok(())
}

/// A directive line with those that continue it, or any other line, closed up and after the others.
fn push_directive<'a>(
    lines: &[FixedLine<'a>],
    closed: &mut Vec<FixedLine<'a>>,
) -> Result<(), AllocError>
    ensures { OnOk result (closed.new.items ≡ closed.old.items ++ closed_directive lines.now) }
{
    let Some(line) = lines.first() else {
        return Ok(());
    };
    if is_directive(line) {
        let count = push_contents(lines, closed)?;
        push_blanks(&lines[count..], closed)
    } else {
        closed.push(line.with_code(line.code()))?;
        Ok(())
    }
}

/// The lines with each directive closed up.
pub(crate) fn closed_up<'a>(
    alloc: Global,
    lines: &[FixedLine<'a>],
) -> Result<Vec<FixedLine<'a>>, AllocError>
    ensures { IfOk result (λ closed. closed.items ≡ spec.closed_up lines.now) }
{
    let mut closed = Vec::new(alloc);
    let mut done = 0;
    while done < lines.len() {
        let directive = first_directive(&lines[done..]);
        push_directive(directive, &mut closed)?;
        done += directive.len();
    }
    Ok(closed)
}

//! Lines, each with those that continue it.

ghost use Rattle.std.specs.Prelude.{◌≡◌, ◌≤◌, ◌<◌, ◌^◌, ◌++◌, ◌∷◌, [], All, IfOk, MatchOption, OnOk, ◌+◌, drop, length, ⊤};
ghost use Rattle.std.specs.List.{flat_map, prefix_len};
ghost use Rattle.source_lines.specs.Breaches.{is_continued, standing};
ghost use Rattle.source_lines.specs.LogicalLines.{groups, lines_of_group};
ghost use Rattle.source_lines.specs.Steps.{IsFirstGroup};

use crate::breach::{is_continued, is_passed};
use crate::joined_bytes::joined_bytes;
use crate::line::{LineKind, LogicalLine};
use crate::physical_lines::{PhysicalKind, PhysicalLine};
use crate::statements::{push_line, push_statements};
use std::alloc::{AllocError, Global};

/// The lines that aren't passed over.
pub(crate) fn standing(mut lines: Vec<PhysicalLine<'_>>) -> Vec<PhysicalLine<'_>>
    ensures { result.items ≡ standing lines.entry.items }
{
    lines.retain(|line| !is_passed(line));
    lines
}

/// How many lines in front are continued.
fn continued_lines(lines: &[PhysicalLine<'_>]) -> usize
    ensures { result ≡ prefix_len is_continued lines.now }
{
    for (i, line) in lines.iter().enumerate() {
        if !is_continued(line) {
            return i;
        }
    }
    lines.len()
}

/// The first line and those that continue it.
fn first_group<'a, 'b>(
    lines: &'b [PhysicalLine<'a>],
) -> Option<(&'b PhysicalLine<'a>, &'b [PhysicalLine<'a>])>
    ensures group { MatchOption result (groups lines.now ≡ []) (λ x. IsFirstGroup lines.now x.0.now x.1.now) }
    ensures first { MatchOption result ⊤ (λ x. lines.now ≡ x.0.now ∷ drop 1 lines.now) }
    ensures within { MatchOption result ⊤ (λ x. length x.1.now + 1 ≤ length lines.now) }
{
    let (line, others) = lines.split_first()?;
    let (continuing, _) = others.split_at(continued_lines(lines).min(others.len()));
    Some((line, continuing))
}

/// The logical lines of a line and of those that continue it, after the others.
fn push_group(
    alloc: Global,
    line: &PhysicalLine<'_>,
    lines: &[PhysicalLine<'_>],
    found: &mut Vec<LogicalLine>,
) -> Result<(), AllocError>
    requires { line.now.number < 2 ^ 32 }
    ensures { OnOk result (found.new.items ≡ found.old.items ++ lines_of_group (line.now ∷ lines.now)) }
{
    let bytes = joined_bytes(alloc, line, lines)?;
    let number = line.number() as u32;
    match line.kind() {
        PhysicalKind::Directive => push_line(alloc, number, LineKind::Directive, &bytes, found),
        PhysicalKind::Passed | PhysicalKind::Statement => push_statements(
            alloc, number, &bytes, found,
        ),
    }
}

/// The logical lines of lines of which none is passed over.
pub(crate) fn lines_in(
    alloc: Global,
    lines: &[PhysicalLine<'_>],
) -> Result<Vec<LogicalLine>, AllocError>
    requires { All (λ line. line.number < 2 ^ 32) lines.now }
    ensures { IfOk result (λ found. found.items ≡ flat_map lines_of_group (groups lines.now)) }
{
    let mut found = Vec::new(alloc);
    let mut done = 0;
    while let Some((line, continuing)) = first_group(&lines[done..]) {
        push_group(alloc, line, continuing, &mut found)?;
        done += continuing.len() + 1;
    }
    Ok(found)
}

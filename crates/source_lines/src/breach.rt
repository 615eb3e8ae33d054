//! The first line that breaks a rule.

ghost use Rattle.std.specs.Prelude.{◌≡◌, ◌==◌, ◌+◌, ◌<◌, ◌≤◌, ◌^◌, ◌&&◌, ◌||◌, cond, not, ℕ, List, MatchOption};
ghost use Rattle.hpf_base.specs.Refusal.{IsFirstBreach, NoBreach};
ghost use Rattle.source_lines.specs.Breaches.{goes_on, is_continued, is_passed, IsBreachIn, IsLeastReasonAt};
ghost use Rattle.source_lines.specs.PhysicalLines as spec;
ghost use Rattle.source_lines.specs.PhysicalLines.{numbered_lines};
ghost use Rattle.source_lines.specs.Steps.{IsCounted};

use crate::limits::{MAX_CONTINUATIONS, MAX_LINES};
use crate::marks;
use crate::physical_lines::{PhysicalKind, PhysicalLine};
use hpf_base::{Reason, Refusal};

/// The line goes on with another.
pub(crate) fn is_continued(line: &PhysicalLine<'_>) -> bool
    ensures { result ≡ is_continued line.now }
{
    marks::is_continued(line.code())
}

/// The line is passed over.
pub(crate) fn is_passed(line: &PhysicalLine<'_>) -> bool
    ensures { result ≡ is_passed line.now.kind }
{
    match line.kind() {
        PhysicalKind::Passed => true,
        PhysicalKind::Statement | PhysicalKind::Directive => false,
    }
}

/// The first of the lines that isn't passed over is of a statement.
fn meets_statement(lines: &[PhysicalLine<'_>]) -> bool
    ensures { result ≡ goes_on PhysicalKind.Statement lines.now }
{
    for line in lines {
        match line.kind() {
            PhysicalKind::Passed => {}
            PhysicalKind::Statement => return true,
            PhysicalKind::Directive => return false,
        }
    }
    false
}

/// The first of the lines is of a directive.
fn meets_directive(lines: &[PhysicalLine<'_>]) -> bool
    ensures { result ≡ goes_on PhysicalKind.Directive lines.now }
{
    match lines.first() {
        Some(line) => line.kind() == PhysicalKind::Directive,
        None => false,
    }
}

/// A continued line of this kind goes on in these lines.
#[tactic(auto, using(crate::proofs::BreachLaws::goes_on_passed))]
fn goes_on(kind: PhysicalKind, lines: &[PhysicalLine<'_>]) -> bool
    ensures { result ≡ goes_on kind lines.now }
{
    match kind {
        PhysicalKind::Directive => meets_directive(lines),
        PhysicalKind::Passed | PhysicalKind::Statement => meets_statement(lines),
    }
}

/// The line is bad, alone or as one that is continued in front of these.
fn is_bad_before(line: &PhysicalLine<'_>, after: &[PhysicalLine<'_>]) -> bool
    ensures { result ≡ (line.now.bad || (is_continued line.now && not (goes_on line.now.kind after.now))) }
{
    line.is_bad() || is_continued(line) && !goes_on(line.kind(), after)
}

/// The line is the first after the last that may stand, or continues one more time than is allowed.
fn is_past_limit(line: &PhysicalLine<'_>, continued: usize) -> bool
    ensures { result ≡ ((line.now.number == MAX_LINES + 1) || (not (is_passed line.now.kind) && (continued == MAX_CONTINUATIONS + 1))) }
{
    line.number() == MAX_LINES as usize + 1
        || !is_passed(line) && continued == MAX_CONTINUATIONS + 1
}

/// Of the reasons for which a line is a breach the least, where this many lines in a row are continued up to it.
fn reason_at(
    line: &PhysicalLine<'_>,
    continued: usize,
    after: &[PhysicalLine<'_>],
) -> Option<Reason>
    ensures { (before : List spec.PhysicalLine) → IsCounted before continued → IsLeastReasonAt before line.now after.now result }
{
    if is_bad_before(line, after) {
        Some(Reason::BadLine)
    } else if is_past_limit(line, continued) {
        Some(Reason::Limit)
    } else {
        None
    }
}

/// How many lines in a row are continued up to the next one.
fn count_with(line: &PhysicalLine<'_>, continued: usize) -> usize
    requires { continued < 2 ^ 32 }
    ensures within { result ≤ continued + 1 }
    ensures count { result ≡ cond (is_passed line.now.kind) continued (cond (is_continued line.now) (continued + 1) 0) }
{
    if is_passed(line) {
        continued
    } else if is_continued(line) {
        continued + 1
    } else {
        0
    }
}

/// The first breach of a text's lines.
pub(crate) fn first_breach(lines: &[PhysicalLine<'_>]) -> Option<Refusal>
    requires { (text : List ℕ) × (lines.now ≡ numbered_lines text) }
    ensures { MatchOption result (NoBreach (IsBreachIn lines.now)) (IsFirstBreach (IsBreachIn lines.now)) }
{
    let mut continued = 0;
    for (i, line) in lines.iter().enumerate() {
        if let Some(reason) = reason_at(line, continued, &lines[i + 1..]) {
            let number = line.number() as u32;
            return Some(Refusal {
                line: number,
                reason,
            });
        }
        continued = count_with(line, continued);
    }
    None
}

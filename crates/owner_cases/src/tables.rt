//! Gap tables of sections of lines.

ghost use Rattle.std.specs.Prelude.{◌≡◌, ◌≢◌, ◌<◌, pos, IfOk};
ghost use Rattle.mappings.specs.Mapping.{IsLine};
ghost use Rattle.gap_table.specs.OwnedSequence.{IsSectionOf};

use crate::positions::written_line;
use crate::sections::is_section;
use case_mappings::{first_part, numbers};
use case_texts::TextError;
use gap_table::{GapTable, Steps};
use mappings::Line;
use std::alloc::Global;
use std::fmt::Write;
use std::marker::Brand;
use std::sync::ledger::{Blank, Ledger};

/// What is asked of each number.
#[derive(Clone, Copy)]
enum Asked {
    Nth,
    Next,
    UpTo,
}

/// Writes how many places of a section a node owns, and what is asked of its table.
pub fn write_table(alloc: Global, out: &mut String, written: &str) -> Result<(), TextError> {
    let (line, rest) = first_part(written);
    let line = written_line(alloc, line)?.ok_or(TextError::Malformed)?;
    let (section, rest) = first_part(rest);
    let table = table_of(alloc, &line, section_of(alloc, &line, section)?)?;
    writeln!(out, "  len {}", table.len())?;
    let (nth, rest) = first_part(rest);
    let (next, up_to) = first_part(rest);
    write_asked(alloc, out, &table, Asked::Nth, nth)?;
    write_asked(alloc, out, &table, Asked::Next, next)?;
    write_asked(alloc, out, &table, Asked::UpTo, up_to)
}

/// Writes in how many steps the table of a section is built, and how many offsets it has.
pub fn write_steps(alloc: Global, out: &mut String, written: &str) -> Result<(), TextError> {
    let (line, section) = first_part(written);
    let line = written_line(alloc, line)?.ok_or(TextError::Malformed)?;
    let section = section_of(alloc, &line, section)?;
    let found = steps_of::<Brand>(alloc, Blank::new(1), &line, section)?;
    writeln!(out, "  steps {}, offsets {}", found.steps, found.offsets)?;
    Ok(())
}

/// In how many steps a table is built, and how many offsets it has.
#[derive(Clone, Copy)]
struct Counted {
    steps: u64,
    offsets: u64,
}

/// Those of the table of a section, with a counter over the ledger that the blank opens.
fn steps_of<L: Ledger>(
    alloc: Global,
    blank: Blank,
    line: &Line,
    section: Section,
) -> Result<Counted, TextError>
    requires name { blank.name ≡ L.name }
    requires parts { blank.parts ≡ L.parts }
    requires one { blank.parts ≡ 1 }
    requires line { IsLine line.now }
    requires node { section.node < line.now.procs }
    requires stride { section.stride ≢ pos 0 }
    requires section { IsSectionOf line.now section.start section.stride section.count }
{
    let mut steps = Steps::<L>::new(blank);
    let Section {
        node,
        start,
        stride,
        count,
    } = section;
    match GapTable::build(alloc, line, node, start, stride, count, &mut steps) {
        Ok(table) => Ok(Counted {
            steps: steps.count(),
            offsets: table.in_period(),
        }),
        Err(_) => Err(TextError::Memory),
    }
}

/// A section of a line, and the coordinate of a node.
#[derive(Clone, Copy)]
struct Section {
    node: u32,
    start: u64,
    stride: i64,
    count: u64,
}

/// The table of a section.
fn table_of(alloc: Global, line: &Line, section: Section) -> Result<GapTable, TextError>
    requires line { IsLine line.now }
    requires node { section.node < line.now.procs }
    requires stride { section.stride ≢ pos 0 }
    requires section { IsSectionOf line.now section.start section.stride section.count }
{
    let Section {
        node,
        start,
        stride,
        count,
    } = section;
    match GapTable::of_section(alloc, line, node, start, stride, count) {
        Ok(table) => Ok(table),
        Err(_) => Err(TextError::Memory),
    }
}

/// The section that is written so.
fn section_of(alloc: Global, line: &Line, text: &str) -> Result<Section, TextError>
    requires { IsLine line.now }
    ensures node { IfOk result (λ s. s.node < line.now.procs) }
    ensures stride { IfOk result (λ s. s.stride ≢ pos 0) }
    ensures section { IfOk result (λ s. IsSectionOf line.now s.start s.stride s.count) }
{
    let numbers = numbers(alloc, text)?;
    let [node, start, stride, count] = numbers.as_slice() else {
        return Err(TextError::Malformed);
    };
    let node = u32::try_from(*node).ok().ok_or(TextError::Malformed)?;
    let start = u64::try_from(*start).ok().ok_or(TextError::Malformed)?;
    let count = u64::try_from(*count).ok().ok_or(TextError::Malformed)?;
    if node >= line.procs || *stride == 0 || !is_section(line, start, *stride, count) {
        return Err(TextError::Malformed);
    }
    Ok(Section {
        node,
        start,
        stride: *stride,
        count,
    })
}

/// Writes what is asked of each number.
fn write_asked(
    alloc: Global,
    out: &mut String,
    table: &GapTable,
    asked: Asked,
    text: &str,
) -> Result<(), TextError> {
    out.push_str(name_of(asked))?;
    for number in &numbers(alloc, text)? {
        match asked_of(table, asked, *number) {
            Some(value) => write!(out, " {value}")?,
            None => out.push_str(" -")?,
        }
    }
    out.push_str("\n")?;
    Ok(())
}

fn name_of(asked: Asked) -> &'static str {
    match asked {
        Asked::Nth => "  nth",
        Asked::Next => "  next",
        Asked::UpTo => "  up to",
    }
}

/// What is asked of a number; None where there is no such place.
fn asked_of(table: &GapTable, asked: Asked, number: i64) -> Option<u64> {
    let number = u64::try_from(number).ok()?;
    match asked {
        Asked::Nth => table.nth(number),
        Asked::Next => table.next(number),
        Asked::UpTo => Some(table.up_to(number)),
    }
}

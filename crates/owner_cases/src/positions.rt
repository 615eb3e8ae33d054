//! Owners of positions of a line (HPF 2.0, DISTRIBUTE).

ghost use Rattle.std.specs.Prelude.{IfOk, IfSome};
ghost use Rattle.mappings.specs.Mapping.{IsLine};

use case_mappings::{first_part, form_of, line_of, numbers};
use case_texts::TextError;
use distribution::{owned_count, owner, rank};
use mappings::Line;
use std::alloc::Global;
use std::fmt::Write;

/// What is asked of each number.
#[derive(Clone, Copy)]
pub enum Asked {
    Owner,
    Rank,
    Count,
}

/// Writes what is asked of each number after the line.
pub fn write_positions(
    alloc: Global,
    out: &mut String,
    asked: Asked,
    written: &str,
) -> Result<(), TextError> {
    let (line, rest) = first_part(written);
    let numbers = numbers(alloc, rest)?;
    match written_line(alloc, line)? {
        Some(line) => write_values(out, asked, &line, &numbers),
        None => Err(TextError::Malformed),
    }
}

/// Writes what is asked of each of these numbers.
fn write_values(
    out: &mut String,
    asked: Asked,
    line: &Line,
    numbers: &[i64],
) -> Result<(), TextError>
    requires { IsLine line.now }
{
    out.push_str(" ")?;
    for number in numbers {
        match asked_of(asked, line, *number) {
            Some(value) => write!(out, " {value}")?,
            None => out.push_str(" -")?,
        }
    }
    out.push_str("\n")?;
    Ok(())
}

/// The line that is written so.
pub fn written_line(alloc: Global, text: &str) -> Result<Option<Line>, TextError>
    ensures { IfOk result (λ line. IfSome line IsLine) }
{
    let numbers = numbers(alloc, text)?;
    let (form, rest) = form_of(alloc, text, &numbers)?;
    match rest {
        [lower, extent, procs] => match u32::try_from(*procs) {
            Ok(procs) => Ok(line_of(form, *lower, *extent, procs)),
            Err(_) => Ok(None),
        },
        _ => Ok(None),
    }
}

/// What is asked of a position or of a coordinate; None where the line has no such.
fn asked_of(asked: Asked, line: &Line, number: i64) -> Option<u64>
    requires { IsLine line.now }
{
    let number = u64::try_from(number).ok()?;
    match asked {
        Asked::Count => {
            let node = u32::try_from(number).ok()?;
            if node >= line.procs {
                return None;
            }
            Some(owned_count(line, node))
        }
        _ if number < 1 || number > line.extent => None,
        Asked::Owner => Some(owner(line, number) as u64),
        Asked::Rank => Some(rank(line, number)),
    }
}

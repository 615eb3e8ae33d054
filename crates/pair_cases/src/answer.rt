//! The answers to cases.

use crate::arrays::{Arrays, arrays_of};
use crate::coded::coded_message;
use crate::pairs::{write_moves, write_pairs};
use crate::rounds::write_rounds;
use crate::show::write_spots;
use crate::statement::{Statement, statement_of};
use crate::told::{Act, told};
use crate::words::line_of;
use std::alloc::{AllocError, Global};
use std::fmt::Write;

/// The answer to what a word asks of a case, in lines.
pub fn answer_to(
    alloc: Global,
    case: &[String],
    word: &str,
    asked: &str,
) -> Result<String, AllocError> {
    let mut out = String::new(alloc);
    if write_answer(alloc, &mut out, case, word, asked).is_none() {
        out.push_str("  no answer\n")?;
    }
    Ok(out)
}

fn write_answer(
    alloc: Global,
    out: &mut String,
    case: &[String],
    word: &str,
    asked: &str,
) -> Option<()> {
    if word == "rounds" {
        return write_rounds(alloc, out, line_of(case, "nodes"), asked);
    }
    let arrays = arrays_of(alloc, case, "array");
    if !arrays.are_well {
        None
    } else if word == "remap" {
        write_remap(alloc, out, case, &arrays)
    } else if word == "statement" {
        write_coded(alloc, out, case, &arrays, asked)
    } else {
        write_asked(alloc, out, case, &arrays, word, asked)
    }
}

/// Writes what is asked of a redistribution.
fn write_remap(alloc: Global, out: &mut String, case: &[String], arrays: &Arrays) -> Option<()> {
    let after = arrays_of(alloc, case, "after");
    if after.are_well {
        write_moves(alloc, out, arrays, &after)
    } else {
        None
    }
}

/// Writes the message from one node to another for the statement in node code.
fn write_coded(
    alloc: Global,
    out: &mut String,
    case: &[String],
    arrays: &Arrays,
    asked: &str,
) -> Option<()> {
    let (from, to) = asked.split_once(' ')?;
    let from = from.parse::<u32>().ok()?;
    let to = to.parse::<u32>().ok()?;
    let spots = coded_message(alloc, case, arrays, from, to)?;
    write_spots(out, &arrays.shapes, &spots).ok()
}

/// Writes what the word asks of a statement.
fn write_asked(
    alloc: Global,
    out: &mut String,
    case: &[String],
    arrays: &Arrays,
    word: &str,
    asked: &str,
) -> Option<()> {
    let statement = statement_of(alloc, case, &arrays.shapes);
    if !statement.is_well {
        None
    } else if word == "pairs" {
        write_pairs(alloc, out, arrays, &statement)
    } else {
        write_message(alloc, out, arrays, &statement, asked)
    }
}

/// Writes the message from one node to another, or how many of so many answers are empty.
fn write_message(
    alloc: Global,
    out: &mut String,
    arrays: &Arrays,
    statement: &Statement,
    asked: &str,
) -> Option<()> {
    let (from, rest) = asked.split_once(' ').unwrap_or((asked, ""));
    let (to, times) = rest.split_once(' ').unwrap_or((rest, ""));
    let from = from.parse::<u32>().ok()?;
    let to = to.parse::<u32>().ok()?;
    if times.is_empty() {
        let spots = told(alloc, &arrays.owners, Act::Statement(statement), from, to)?;
        write_spots(out, &arrays.shapes, &spots).ok()
    } else {
        let times = times.parse::<u32>().ok()?;
        let empty = empty_of(alloc, arrays, statement, from, to, times)?;
        writeln!(out, "  {empty} of {times} empty").ok()
    }
}

/// How many of so many answers are empty messages.
fn empty_of(
    alloc: Global,
    arrays: &Arrays,
    statement: &Statement,
    from: u32,
    to: u32,
    times: u32,
) -> Option<u32> {
    let mut empty: u32 = 0;
    for turn in 0..times {
        let spots = told(alloc, &arrays.owners, Act::Statement(statement), from, to)?;
        if spots.is_empty() {
            empty += 1;
        }
    }
    Some(empty)
}

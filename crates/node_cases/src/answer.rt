//! The answers to cases.

use crate::driver::{Order, Progress, Run};
use crate::opening::nodes_on;
use crate::outcome::outcome_of;
use crate::show::{write_end, write_shown};
use case_code::line_of;
use std::alloc::{AllocError, Global};
use std::fmt::Write;

/// The answer to a case, in lines.
pub fn answer_to(alloc: Global, case: &[String]) -> Result<String, AllocError> {
    let mut out = String::new(alloc);
    if write_answer(alloc, &mut out, case).is_none() {
        out.push_str("  no answer\n")?;
    }
    Ok(out)
}

fn write_answer(alloc: Global, out: &mut String, case: &[String]) -> Option<()> {
    let grids = match line_of(case, "grids") {
        "" => "1 2 3 4 64",
        grids => grids,
    };
    let mut first = String::new(alloc);
    for grid in grids.split(' ') {
        let mut run = Run::new(alloc, nodes_on(alloc, case, grid)?)?;
        let left = run.to_end(alloc, Order::Rotation)?;
        write_run(alloc, out, grid, left, &run, &mut first).ok()?;
        write_refused(out, grid, &run).ok()?;
        write_shows(out, case, grid, &run).ok()?;
        write_other(alloc, out, case, grid, Order::Descending, &run)?;
        write_other(alloc, out, case, grid, Order::Whole, &run)?;
    }
    Some(())
}

/// Writes where the nodes of a grid come to another outcome, or send other letters, in another order of steps than in rotation.
fn write_other(
    alloc: Global,
    out: &mut String,
    case: &[String],
    grid: &str,
    order: Order,
    rotation: &Run,
) -> Option<()> {
    let mut run = Run::new(alloc, nodes_on(alloc, case, grid)?)?;
    let left = run.to_end(alloc, order)?;
    write_refused(out, grid, &run).ok()?;
    let outcome = outcome_of(alloc, &run.nodes).ok()?;
    let wanted = outcome_of(alloc, &rotation.nodes).ok()?;
    if outcome.as_str() != wanted.as_str() {
        write!(out, "  {grid}: ").ok()?;
        write_left(out, left).ok()?;
        writeln!(out, "other than in rotation:\n{outcome}").ok()?;
    }
    if run.letters.as_slice() != rotation.letters.as_slice() {
        writeln!(out, "  {grid}: other letters than in rotation").ok()?;
    }
    Some(())
}

/// Writes whether the nodes of a grid come to the outcome on the first grid, and on that one this outcome too.
fn write_run(
    alloc: Global,
    out: &mut String,
    grid: &str,
    left: Progress,
    run: &Run,
    first: &mut String,
) -> Result<(), AllocError> {
    let outcome = outcome_of(alloc, &run.nodes)?;
    if first.is_empty() {
        write_end(out, &run.nodes)?;
        first.push_str(outcome.as_str())?;
    }
    write!(out, "  {grid}: ")?;
    write_left(out, left)?;
    if outcome.as_str() == first.as_str() {
        out.push_str("alike\n")
    } else {
        writeln!(out, "other than on the first grid:\n{outcome}")
    }
}

/// Writes how many local steps of a run were refused memory, if any was.
fn write_refused(out: &mut String, grid: &str, run: &Run) -> Result<(), AllocError> {
    if run.refused > 0 {
        writeln!(out, "  {grid}: local steps refused memory: {}", run.refused)?;
    }
    Ok(())
}

/// Writes how a run was left, if not all nodes have ended.
fn write_left(out: &mut String, left: Progress) -> Result<(), AllocError> {
    match left {
        Progress::Ended => Ok(()),
        Progress::Waits => out.push_str("stuck, "),
        Progress::Astray => out.push_str("a letter went astray, "),
        Progress::Moved => out.push_str("too long, "),
    }
}

/// Writes what the case asks to see on this grid.
fn write_shows(out: &mut String, case: &[String], grid: &str, run: &Run) -> Result<(), AllocError> {
    for line in case {
        if let Some(("show", rest)) = line.as_str().split_once(' ') {
            let (shown, words) = rest.split_once(' ').unwrap_or((rest, ""));
            if shown == grid {
                write_shown(out, grid, words, run)?;
            }
        }
    }
    Ok(())
}

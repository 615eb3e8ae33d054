//! What cases ask to see, in lines.

use crate::driver::{Run, Sent};
use case_code::row_of;
use case_texts::write_text;
use node_machine::Node;
use slot_values::{Fault, Status};
use std::alloc::AllocError;
use std::fmt::Write;
use term_values::Place;

/// Writes numbers, a blank before each.
pub fn write_numbers(out: &mut String, numbers: &[i64]) -> Result<(), AllocError> {
    for number in numbers {
        write!(out, " {number}")?;
    }
    Ok(())
}

/// Writes what node 0 printed, and how its run ends.
pub fn write_end(out: &mut String, nodes: &[Node]) -> Result<(), AllocError> {
    if let Some(first) = nodes.first() {
        if !first.printed().is_empty() {
            out.push_str("  printed ")?;
            write_text(out, first.printed())?;
            out.push_str("\n")?;
        }
        out.push_str("  ")?;
        write_status(out, first.status())?;
        out.push_str("\n")?;
    }
    Ok(())
}

/// Writes how a node's run ends.
pub fn write_status(out: &mut String, status: &Status) -> Result<(), AllocError> {
    match status {
        Status::Running => out.push_str("goes on"),
        Status::Finished => out.push_str("finished"),
        Status::Faulted(fault) => write_fault(out, fault),
    }
}

fn write_fault(out: &mut String, fault: &Fault) -> Result<(), AllocError> {
    write!(out, "line {}: {:?}", fault.line, fault.cause.kind)?;
    match &fault.cause.at {
        Place::Nowhere => Ok(()),
        Place::AtTuple(tuple) => {
            out.push_str(" at")?;
            write_numbers(out, tuple.as_slice())
        }
        Place::Between(_) => out.push_str(" between iterations"),
    }
}

/// Writes what is asked for by the words of a line.
pub fn write_shown(out: &mut String, grid: &str, words: &str, run: &Run) -> Result<(), AllocError> {
    for word in words.split(' ') {
        match word {
            "slots" => write_slots(out, grid, &run.nodes)?,
            "letters" => write_letters(out, grid, &run.letters)?,
            _ => write_pieces(out, grid, word, &run.nodes)?,
        }
    }
    Ok(())
}

/// Writes the slots of node 0.
fn write_slots(out: &mut String, grid: &str, nodes: &[Node]) -> Result<(), AllocError> {
    if let Some(node) = nodes.first() {
        write!(out, "  {grid}: slots")?;
        write_numbers(out, node.slots())?;
        out.push_str("\n")?;
    }
    Ok(())
}

/// Writes what each node holds of a row, by its letter.
fn write_pieces(
    out: &mut String,
    grid: &str,
    letter: &str,
    nodes: &[Node],
) -> Result<(), AllocError> {
    if let Some(row) = row_of(letter) {
        for (id, node) in nodes.iter().enumerate() {
            write!(out, "  {grid}: node {id} {letter}")?;
            write_numbers(out, node.piece(row))?;
            out.push_str("\n")?;
        }
    }
    Ok(())
}

/// Writes the letters, which are in order.
fn write_letters(out: &mut String, grid: &str, letters: &[Sent]) -> Result<(), AllocError> {
    for sent in letters {
        write!(
            out,
            "  {grid}: phase {} from {} to {} number {}:",
            sent.phase, sent.from, sent.to, sent.number
        )?;
        write_numbers(out, &sent.values)?;
        out.push_str("\n")?;
    }
    Ok(())
}

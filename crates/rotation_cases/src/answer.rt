//! The answers to cases.

use crate::cores::{Rerun, refused, undisturbed};
use crate::same::are_same;
use accepted_program::{AcceptedProgram, accept_program};
use case_texts::{Answers, Case, text_of, write_error};
use hpf_base::{Grid, OutOfMemory};
use hpf_reader::read_program;
use std::alloc::{AllocError, Global};

/// Answers cases of nodes in rotation.
pub struct RotationAnswers;

impl Answers for RotationAnswers {
    fn answer_to(&self, alloc: Global, case: &Case) -> Result<String, AllocError> {
        let mut out = String::new(alloc);
        if case.word.as_str() == "rotation" {
            let (grid, written) = case.written.as_str().split_once(' ').unwrap_or(("", ""));
            match grid_of(alloc, grid) {
                Some(grid) => write_answer(alloc, &mut out, &grid, written)?,
                None => out.push_str("  no answer\n")?,
            }
        }
        Ok(out)
    }
}

/// The grid whose extents these are, joined by `x`.
fn grid_of(alloc: Global, word: &str) -> Option<Grid> {
    let mut extents = Vec::new(alloc);
    for extent in word.split('x') {
        extents.push(extent.parse::<u32>().ok()?).ok()?;
    }
    Grid::new(alloc, &extents)
}

/// Writes what the nodes of a text come to on a grid.
fn write_answer(
    alloc: Global,
    out: &mut String,
    grid: &Grid,
    written: &str,
) -> Result<(), AllocError> {
    let Ok(text) = text_of(alloc, written) else {
        return out.push_str("  no answer\n");
    };
    match read_program(alloc, &text) {
        Ok(tree) => match accept_program(alloc, grid, tree) {
            Ok(accepted) => match told(alloc, &accepted) {
                Ok(line) => out.push_str(line),
                Err(_) => out.push_str("  no answer\n"),
            },
            Err(error) => write_error(out, error),
        },
        Err(error) => write_error(out, error),
    }
}

/// Whether the nodes of a program were refused memory, and came to the same.
fn told(alloc: Global, accepted: &AcceptedProgram<'_>) -> Result<&'static str, OutOfMemory> {
    let nodes = undisturbed(alloc, accepted)?;
    let Rerun {
        nodes: others,
        times,
    } = refused(alloc, accepted)?;
    if times == 0 {
        Ok("  no local step was refused memory\n")
    } else if are_same(&nodes, &others) {
        Ok("  local steps were refused memory, and the run came to the same\n")
    } else {
        Ok("  local steps were refused memory, and the run came to something else\n")
    }
}

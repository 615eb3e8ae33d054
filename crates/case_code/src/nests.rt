//! Instructions of nests, as cases write them.

use crate::anchors::read_beside;
use crate::expressions::{read_flat, read_form, read_subs};
use crate::instructions::{read_mask, read_over};
use crate::words::Words;
use node_code::{Instruction, NestLeft, NestRole, NestStatement, When};
use std::alloc::Global;

/// How many rows of copies a statement reads at most in a case, and how many masks it has.
const ROWS: u32 = 16;

/// Takes copies of a nest.
pub(crate) fn read_copies(alloc: Global, words: &mut Words<'_>) -> Instruction {
    let copy = words.row();
    words.skip("=");
    let start = read_flat(alloc, words);
    Instruction::MakeCopies {
        copy,
        over: read_over(alloc, words),
        start,
        beside: read_beside(alloc, words),
    }
}

/// Takes a statement of a nest.
pub(crate) fn read_nest(alloc: Global, line: u32, words: &mut Words<'_>) -> NestStatement {
    let role = read_role(words);
    let left = read_left(alloc, words);
    words.skip("=");
    NestStatement {
        line,
        right: read_form(alloc, words),
        over: read_over(alloc, words),
        copies: read_rows(alloc, words),
        names: Vec::new(alloc),
        whens: read_masks(alloc, words),
        left,
        role,
        beside: read_beside(alloc, words),
    }
}

fn read_role(words: &mut Words<'_>) -> NestRole {
    match words.word() {
        "assigns" => NestRole::Assigns,
        "tests" => NestRole::Tests,
        "else" => NestRole::SetsElse,
        word => {
            words.are_well = words.are_well && word == "mark";
            NestRole::SetsMark
        }
    }
}

fn read_left(alloc: Global, words: &mut Words<'_>) -> NestLeft {
    let row = words.row();
    if words.front() == "(" {
        return NestLeft::Element(row, read_subs(alloc, words));
    }
    NestLeft::Copy(row)
}

/// Takes the rows of copies that are read, if they stand there.
fn read_rows(alloc: Global, words: &mut Words<'_>) -> Vec<usize> {
    let mut rows = Vec::new(alloc);
    if words.front() != "reads" {
        return rows;
    }
    words.skip("reads");
    words.skip("(");
    for _ in 0..ROWS {
        if words.front() == ")" {
            break;
        }
        if rows.push(words.row()).is_err() {
            words.are_well = false;
        }
    }
    words.skip(")");
    rows
}

/// Takes the masks that stand there.
fn read_masks(alloc: Global, words: &mut Words<'_>) -> Vec<When> {
    let mut whens = Vec::new(alloc);
    for _ in 0..ROWS {
        if let Some(when) = read_mask(words)
            && whens.push(when).is_err()
        {
            words.are_well = false;
        }
    }
    whens
}

//! Expressions, as cases write them: the operator before its operands.
//!
//! - a number, `s3` for slot 3, `x0` for the tuple's entry on axis 0
//! - `+`, `-`, `*`, `/`, `**`, `==`, `/=`, `<`, `<=`, `>`, `>=`, `and`, `or`, `mod`, `max`, `min` before two operands, `neg`, `not`, `abs` before one
//! - `A ( .. )` for a section: subscripts between blanks, each an expression, or `/4` for a triplet in slots 4, 5 and 6
//! - `flat` before an expression over slots that is one operand of an array expression
//!
//! Where memory is wanting the words aren't well, as where no such expression stands.

use crate::words::{Words, numbered, row_of};
use node_code::{ArrayForm, Flat, Sub};
use op_tables::Op;
use std::alloc::Global;

/// The depth of the deepest expression in a case.
const DEPTH: u32 = 16;

/// An operator and how many operands it has; none where a word is no operator.
#[derive(Clone, Copy)]
struct Operator {
    op: Op,
    operands: u32,
}

fn operator_of(word: &str) -> Operator {
    let op = match word {
        "+" => Op::Add,
        "-" => Op::Sub,
        "*" => Op::Mul,
        "/" => Op::Div,
        "**" => Op::Pow,
        "==" => Op::Eq,
        "/=" => Op::Ne,
        "<" => Op::Lt,
        "<=" => Op::Le,
        ">" => Op::Gt,
        ">=" => Op::Ge,
        _ => return named_operator(word),
    };
    Operator { op, operands: 2 }
}

fn named_operator(word: &str) -> Operator {
    let (op, operands) = match word {
        "and" => (Op::And, 2),
        "or" => (Op::Or, 2),
        "mod" => (Op::Mod, 2),
        "max" => (Op::Max, 2),
        "min" => (Op::Min, 2),
        "neg" => (Op::Neg, 1),
        "not" => (Op::LogNot, 1),
        "abs" => (Op::Abs, 1),
        _ => (Op::Add, 0),
    };
    Operator { op, operands }
}

fn leaf(word: &str) -> Option<Flat> {
    if let Ok(number) = word.parse::<i64>() {
        return Some(Flat::Int(number));
    }
    match numbered(word, 's') {
        Some(slot) => Some(Flat::Slot(slot)),
        None => Some(Flat::Axis(numbered(word, 'x')?)),
    }
}

/// Takes an expression over slots.
pub(crate) fn read_flat(alloc: Global, words: &mut Words<'_>) -> Flat {
    flat_within(alloc, words, DEPTH)
}

fn flat_within(alloc: Global, words: &mut Words<'_>, depth: u32) -> Flat {
    let word = words.word();
    if let Some(leaf) = leaf(word) {
        return leaf;
    }
    let Operator { op, operands } = operator_of(word);
    let mut values = Vec::new(alloc);
    if depth == 0 || operands == 0 {
        words.are_well = false;
        return Flat::Operated(op, values);
    }
    for _ in 0..operands {
        if values.push(flat_within(alloc, words, depth - 1)).is_err() {
            words.are_well = false;
        }
    }
    Flat::Operated(op, values)
}

/// Takes subscripts in parentheses, all of them expressions over slots.
pub(crate) fn read_flats(alloc: Global, words: &mut Words<'_>) -> Vec<Flat> {
    let mut flats = Vec::new(alloc);
    words.skip("(");
    for _ in 0..8 {
        if words.front() == ")" {
            break;
        }
        if flats.push(read_flat(alloc, words)).is_err() {
            words.are_well = false;
        }
    }
    words.skip(")");
    flats
}

/// Takes section subscripts in parentheses.
pub(crate) fn read_subs(alloc: Global, words: &mut Words<'_>) -> Vec<Sub> {
    let mut subs = Vec::new(alloc);
    words.skip("(");
    for _ in 0..8 {
        if words.front() == ")" {
            break;
        }
        if subs.push(read_sub(alloc, words)).is_err() {
            words.are_well = false;
        }
    }
    words.skip(")");
    subs
}

fn read_sub(alloc: Global, words: &mut Words<'_>) -> Sub {
    match numbered(words.front(), '/') {
        Some(slot) => {
            let _triplet = words.word();
            Sub::Along(slot)
        }
        None => Sub::At(read_flat(alloc, words)),
    }
}

/// Takes an array expression.
pub(crate) fn read_form(alloc: Global, words: &mut Words<'_>) -> ArrayForm {
    form_within(alloc, words, DEPTH)
}

fn form_within(alloc: Global, words: &mut Words<'_>, depth: u32) -> ArrayForm {
    let word = words.word();
    if let Some(leaf) = leaf(word) {
        return ArrayForm::Flat(leaf);
    }
    if word == "flat" {
        return ArrayForm::Flat(read_flat(alloc, words));
    }
    if let Some(row) = row_of(word) {
        return ArrayForm::Section(row, read_subs(alloc, words));
    }
    let Operator { op, operands } = operator_of(word);
    let mut values = Vec::new(alloc);
    if depth == 0 || operands == 0 {
        words.are_well = false;
        return ArrayForm::Operation(op, values);
    }
    for _ in 0..operands {
        if values.push(form_within(alloc, words, depth - 1)).is_err() {
            words.are_well = false;
        }
    }
    ArrayForm::Operation(op, values)
}

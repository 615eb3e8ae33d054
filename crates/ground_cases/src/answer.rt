//! The answers to cases.

use crate::bases::{write_grid, write_index, write_names};
use crate::ports::{write_broken, write_passed, write_read, write_source, write_written};
use crate::tables::{write_dot, write_symbol, write_word};
use crate::texts::{write_left, write_places};
use case_texts::{Answers, Case, TextError, text_of};
use std::alloc::{AllocError, Global};

/// Answers cases of the lower crates.
pub struct GroundAnswers;

impl Answers for GroundAnswers {
    fn answer_to(&self, alloc: Global, case: &Case) -> Result<String, AllocError> {
        let mut out = String::new(alloc);
        match write_answer(alloc, &mut out, case) {
            Ok(()) => {}
            Err(TextError::Malformed) => out.push_str("  malformed\n")?,
            Err(TextError::Memory) => out.push_str("  out of memory\n")?,
        }
        Ok(out)
    }
}

/// Writes what the first word of a case asks for; nothing for a remark.
fn write_answer(alloc: Global, out: &mut String, case: &Case) -> Result<(), TextError> {
    let written = case.written.as_str();
    match case.word.as_str() {
        "tokens" => write_places(alloc, out, text_of(alloc, written)?),
        "expression" => write_left(alloc, out, text_of(alloc, written)?),
        "reader" | "writer" | "source" => {
            let text = text_of(alloc, written)?;
            Ok(write_ports(alloc, out, case.word.as_str(), text)?)
        }
        word => Ok(write_plain(alloc, out, word, written)?),
    }
}

/// Writes what comes of the bytes of a case in a reader, a writer or a source.
fn write_ports(
    alloc: Global,
    out: &mut String,
    word: &str,
    bytes: Vec<u8>,
) -> Result<(), AllocError> {
    match word {
        "reader" => write_read(alloc, out, &bytes),
        "writer" => write_written(out, &bytes),
        _ => write_source(alloc, out, bytes),
    }
}

/// Writes what a case asks for that has no text.
fn write_plain(
    alloc: Global,
    out: &mut String,
    word: &str,
    written: &str,
) -> Result<(), AllocError> {
    match word {
        "grid" => write_grid(alloc, out, written),
        "index" => write_index(alloc, out, written),
        "names" => write_names(alloc, out, written),
        "word" => write_word(out, written.as_bytes()),
        "dot" => write_dot(out, written),
        "symbol" => write_symbol(out, written),
        "broken" => write_broken(alloc, out),
        "gate" => write_passed(out),
        _ => Ok(()),
    }
}

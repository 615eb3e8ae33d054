//! The answers to cases.

use crate::alike::write_alike;
use crate::fronts::write_fronts;
use crate::show::{write_free, write_tree, write_verdict};
use case_texts::{Answers, Case, TextError, text_of};
use fixed_lines::free_text;
use hpf_reader::{read_fixed, read_program};
use std::alloc::{AllocError, Global};

/// What a case asks of its text.
#[derive(Clone, Copy)]
enum Wanted {
    Verdict,
    Tree,
    Fronts,
    FixedVerdict,
    FixedTree,
    FreeText,
}

/// What a word asks of a text; None where it begins something else.
fn asked(word: &str) -> Option<Wanted> {
    match word {
        "read" => Some(Wanted::Verdict),
        "tree" => Some(Wanted::Tree),
        "fronts" => Some(Wanted::Fronts),
        "fixed" => Some(Wanted::FixedVerdict),
        "fixed_tree" => Some(Wanted::FixedTree),
        "free" => Some(Wanted::FreeText),
        _ => None,
    }
}

/// Answers cases of texts.
pub struct ReaderAnswers;

impl Answers for ReaderAnswers {
    fn answer_to(&self, alloc: Global, case: &Case) -> Result<String, AllocError> {
        let mut out = String::new(alloc);
        let (word, written) = (case.word.as_str(), case.written.as_str());
        if word == "alike" {
            match written.parse::<usize>() {
                Ok(count) => write_alike(alloc, &mut out, count)?,
                Err(_) => out.push_str("  no number is written so\n")?,
            }
        } else if let Some(wanted) = asked(word) {
            match text_of(alloc, written) {
                Ok(text) => write_answer(alloc, &mut out, wanted, &text)?,
                Err(TextError::Malformed) => out.push_str("  no text is written so\n")?,
                Err(TextError::Memory) => out.push_str("  out of memory\n")?,
            }
        }
        Ok(out)
    }
}

/// Writes what is asked of a text.
fn write_answer(
    alloc: Global,
    out: &mut String,
    wanted: Wanted,
    text: &[u8],
) -> Result<(), AllocError> {
    match wanted {
        Wanted::Verdict => write_verdict(out, &read_program(alloc, text)),
        Wanted::Tree => write_tree(out, &read_program(alloc, text)),
        Wanted::Fronts => write_fronts(alloc, out, text),
        Wanted::FixedVerdict => write_verdict(out, &read_fixed(alloc, text)),
        Wanted::FixedTree => write_tree(out, &read_fixed(alloc, text)),
        Wanted::FreeText => write_free(out, &free_text(alloc, text)),
    }
}

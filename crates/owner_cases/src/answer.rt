//! The answers to cases.

use crate::composed::write_composed;
use crate::integers::{write_common, write_divisor, write_solution};
use crate::owned::{write_owners, write_piece};
use crate::positions::{Asked, write_positions};
use crate::tables::{write_steps, write_table};
use case_texts::{Answers, Case, TextError};
use std::alloc::{AllocError, Global};

/// Answers cases of owners.
pub struct OwnerAnswers;

impl Answers for OwnerAnswers {
    fn answer_to(&self, alloc: Global, case: &Case) -> Result<String, AllocError> {
        let mut out = String::new(alloc);
        match write_answer(alloc, &mut out, case) {
            Ok(()) => {}
            Err(TextError::Malformed) => out.push_str("  malformed\n")?,
            Err(TextError::Memory) => out.push_str("  out of memory\n")?,
        }
        Ok(out)
    }
}

/// Writes what the first word of a case asks for.
fn write_answer(alloc: Global, out: &mut String, case: &Case) -> Result<(), TextError> {
    let written = case.written.as_str();
    match case.word.as_str() {
        "owner" => write_positions(alloc, out, Asked::Owner, written),
        "rank" => write_positions(alloc, out, Asked::Rank, written),
        "count" => write_positions(alloc, out, Asked::Count, written),
        "owners" => write_owners(alloc, out, written),
        "piece" => write_piece(alloc, out, written),
        "compose" => write_composed(alloc, out, written),
        "table" => write_table(alloc, out, written),
        "steps" => write_steps(alloc, out, written),
        "gcd" => write_divisor(alloc, out, written),
        "solve" => write_solution(alloc, out, written),
        "meet" => write_common(alloc, out, written),
        _ => Ok(()),
    }
}

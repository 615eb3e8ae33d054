//! Texts that end too early.

use hpf_base::{Refusal, StaticError};
use hpf_reader::read_program;
use std::alloc::{AllocError, Global};
use std::fmt::Write;

/// One more than the greatest number of a reason.
const REASON_COUNT: usize = 13;

/// Writes how many fronts of a text are read, and how many are refused for each reason, the reason's number first.
pub fn write_fronts(alloc: Global, out: &mut String, text: &[u8]) -> Result<(), AllocError> {
    let mut counts = [0_u32; REASON_COUNT];
    for length in 0..=text.len() {
        let place = place_of(alloc, &text[..length])?;
        if let Some(count) = counts.get_mut(place) {
            *count = count.saturating_add(1);
        }
    }
    out.push_str(" ")?;
    for (place, count) in counts.iter().enumerate() {
        match (place, *count) {
            (_, 0) => {}
            (0, read) => write!(out, " {read} read")?,
            (reason, refused) => write!(out, " {reason}:{refused}")?,
        }
    }
    out.push_str("\n")
}

/// 0 where a text is read, else the number of the reason for which it is refused.
fn place_of(alloc: Global, text: &[u8]) -> Result<usize, AllocError> {
    match read_program(alloc, text) {
        Ok(_) => Ok(0),
        Err(StaticError::Refused(Refusal { reason, .. })) => Ok(usize::from(reason.number())),
        Err(StaticError::Memory) => Err(AllocError),
    }
}

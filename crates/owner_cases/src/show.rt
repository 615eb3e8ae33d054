//! Elements and alignments, as answers write them.

use hpf_base::Index;
use mappings::AlignDim;
use std::alloc::AllocError;
use std::fmt::Write;

/// Writes the subscripts of an element, with commas between them.
pub fn write_index(out: &mut String, index: &Index) -> Result<(), AllocError> {
    for (i, number) in index.numbers().iter().enumerate() {
        let before = if i == 0 { ' ' } else { ',' };
        write!(out, "{before}{number}")?;
    }
    Ok(())
}

/// Writes an alignment in a line, as a case has it.
pub fn write_align(out: &mut String, align: &AlignDim) -> Result<(), AllocError> {
    match *align {
        AlignDim::Linear { dim, a, b } => writeln!(out, "  {dim} {a} {b}"),
        AlignDim::At(subscript) => writeln!(out, "  at {subscript}"),
        AlignDim::Every => out.push_str("  every\n"),
    }
}

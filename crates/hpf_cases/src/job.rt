//! Jobs, as cases write them.

use hpf_words::{Job, WordsError, read_words};
use std::alloc::{AllocError, Global};
use std::fmt::Write;

/// Writes the job that the words are, or that they are none.
pub fn write_job(alloc: Global, out: &mut String, words: &[String]) -> Result<(), AllocError> {
    match read_words(alloc, words) {
        Ok(job) => write_asked(out, &job),
        Err(WordsError::Usage) => out.push_str("  no job\n"),
        Err(WordsError::Memory) => out.push_str("  out of memory\n"),
    }
}

/// Writes the action, the grid, the threads and the size of a job, and whether the arrays are asked for and the text is in fixed form.
fn write_asked(out: &mut String, job: &Job) -> Result<(), AllocError> {
    write!(out, "  {:?} on ", job.action)?;
    for (i, extent) in job.grid.dims().iter().enumerate() {
        if i > 0 {
            out.push('x')?;
        }
        write!(out, "{extent}")?;
    }
    write!(out, ", threads {}, size {}", job.threads, job.size)?;
    if job.arrays {
        out.push_str(", arrays")?;
    }
    if job.fixed {
        out.push_str(", fixed")?;
    }
    out.push_str("\n")
}

//! Cases, as they stand in the input.

use crate::stream::Stream;
use std::alloc::{AllocError, Global};

/// What a case asks for: the job that its words are, or what the program answers, also with what its run on nodes leaves, or what it writes, or
/// whether it answers alike in one order and on nodes.
#[derive(Clone, Copy)]
pub enum Wanted {
    Job,
    Answer,
    Ran,
    Writing,
    Alike,
}

/// What is asked, the words and the text as they are written, and how the three streams behave.
#[derive(Drop)]
pub struct Case {
    pub wanted: Wanted,
    pub words: String,
    pub text: String,
    pub source: Stream,
    pub out: Stream,
    pub err: Stream,
}

/// The word in front of a line, and what stands after it.
fn parted(line: &str) -> (&str, &str) {
    line.split_once(' ').unwrap_or((line, ""))
}

impl Case {
    /// The case that begins with a line; None where none does.
    pub fn begin(alloc: Global, line: &str) -> Result<Option<Case>, AllocError> {
        let (word, rest) = parted(line);
        let (wanted, words, text) = match word {
            "job" => (Wanted::Job, rest, ""),
            "words" => (Wanted::Answer, rest, ""),
            "ran" => (Wanted::Ran, rest, ""),
            "alike" => (Wanted::Alike, rest, ""),
            "check" | "serial" => (Wanted::Writing, word, rest),
            _ => return Ok(None),
        };
        Ok(Some(Case {
            wanted,
            words: String::from_str(alloc, words)?,
            text: String::from_str(alloc, text)?,
            source: Stream::new(alloc),
            out: Stream::new(alloc),
            err: Stream::new(alloc),
        }))
    }

    /// Whether a line goes on with the case; what it says is taken up.
    pub fn go_on(&mut self, line: &str) -> Result<bool, AllocError> {
        if line.starts_with('|') {
            self.text.push_str(line)?;
            return Ok(true);
        }
        let (word, rest) = parted(line);
        match word {
            "text" => self.text.push_str(rest)?,
            "source" => self.source.set(rest)?,
            "out" => self.out.set(rest)?,
            "err" => self.err.set(rest)?,
            _ => return Ok(false),
        }
        Ok(true)
    }
}

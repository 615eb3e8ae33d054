//! Cases, as they stand in the input.

use std::alloc::{AllocError, Global};

/// What is another in each run of a case: the read, the write to standard output or the write to standard error that fails, the prefix of the
/// text that is the source, or the text, which is made by a number.
#[derive(Clone, Copy)]
pub enum Tried {
    Reads,
    Writes,
    Errs,
    Prefixes,
    Chance,
}

/// What is tried, the words and the text as they are written, how many bytes the stream that is tried gives or takes in a call at most, or how many
/// texts are made, and the number of the read that fails in each run, 0 where none does.
#[derive(Drop)]
pub struct Case {
    pub tried: Tried,
    pub number: usize,
    pub words: String,
    pub text: String,
    pub fails: u64,
}

/// The word in front of a line, and what stands after it.
fn parted(line: &str) -> (&str, &str) {
    line.split_once(' ').unwrap_or((line, ""))
}

/// What a word asks to be tried; None for any other word.
fn tried_by(word: &str) -> Option<Tried> {
    match word {
        "reads" => Some(Tried::Reads),
        "writes" => Some(Tried::Writes),
        "errs" => Some(Tried::Errs),
        "prefixes" => Some(Tried::Prefixes),
        "chance" => Some(Tried::Chance),
        _ => None,
    }
}

impl Case {
    /// The case that begins with a line; None where none does.
    pub fn begin(alloc: Global, line: &str) -> Result<Option<Case>, AllocError> {
        let (word, rest) = parted(line);
        let Some(tried) = tried_by(word) else {
            return Ok(None);
        };
        let (number, words) = match tried {
            Tried::Prefixes => ("4096", rest),
            _ => parted(rest),
        };
        let Ok(number) = number.parse::<usize>() else {
            return Ok(None);
        };
        Ok(Some(Case {
            tried,
            number,
            words: String::from_str(alloc, words)?,
            text: String::new(alloc),
            fails: 0,
        }))
    }

    /// Whether a line goes on with the case; what it says is taken up.
    pub fn go_on(&mut self, line: &str) -> Result<bool, AllocError> {
        if line.starts_with('|') {
            self.text.push_str(line)?;
            return Ok(true);
        }
        let (word, rest) = parted(line);
        match word {
            "text" => self.text.push_str(rest)?,
            "fails" => self.fails = rest.parse::<u64>().unwrap_or(0),
            _ => return Ok(false),
        }
        Ok(true)
    }
}

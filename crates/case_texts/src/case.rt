//! Cases, as they stand in the input of a test program.

use std::alloc::{AllocError, Global};

/// A case: its first word, which says what is asked, and the text after it as it is written.
#[derive(Drop)]
pub struct Case {
    pub word: String,
    pub written: String,
}

impl Case {
    /// The case that begins with a line. The word and the text are parted by one blank.
    pub fn begin(alloc: Global, line: &str) -> Result<Case, AllocError> {
        let (word, written) = line.split_once(' ').unwrap_or((line, ""));
        Ok(Case {
            word: String::from_str(alloc, word)?,
            written: String::from_str(alloc, written)?,
        })
    }

    /// Goes on with the text on a further line.
    pub fn go_on(&mut self, line: &str) -> Result<(), AllocError> {
        self.written.push_str(line)
    }
}

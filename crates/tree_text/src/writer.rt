//! The text that grows.

use case_texts::write_text;
use std::alloc::AllocError;
use std::fmt::Write;

/// A text, and whether a growth of it was refused. Nothing is written after that, and it is asked once, at the end.
#[derive(Drop)]
pub struct Writer<'a> {
    out: &'a mut String,
    is_refused: bool,
}

impl<'a> Writer<'a> {
    pub fn new(out: &'a mut String) -> Writer<'a> {
        Writer {
            out,
            is_refused: false,
        }
    }

    /// Writes a text as it stands.
    pub fn text(&mut self, text: &str) {
        if !self.is_refused {
            self.is_refused = self.out.push_str(text).is_err();
        }
    }

    pub fn number(&mut self, number: i64) {
        if !self.is_refused {
            self.is_refused = write!(self.out, "{number}").is_err();
        }
    }

    /// Writes bytes as `case_texts` does, which leaves those of a name as they are.
    pub fn bytes(&mut self, bytes: &[u8]) {
        if !self.is_refused {
            self.is_refused = write_text(self.out, bytes).is_err();
        }
    }

    /// Whether all was written.
    pub fn outcome(&self) -> Result<(), AllocError> {
        if self.is_refused {
            return Err(AllocError);
        }
        Ok(())
    }
}

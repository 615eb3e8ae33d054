//! Cases of test programs, and texts as they write them, in printable bytes.
//!
//! Comes in: a text as it is written. Goes out: its bytes; and the other way, bytes as they are written. What holds in
//! between: a bar stands for a line feed, `\x` and two hexadecimal digits for the byte of that number, and `{N*TEXT}` for
//! TEXT N times, where TEXT has no braces. Any other byte stands for itself. Where a test program makes texts itself, it makes
//! them by `Numbers`.
#![tactic(auto)]

mod case;
mod driver;
mod numbers;
mod reading;
mod writing;

pub use case::Case;
pub use driver::{Answers, print_answers};
pub use numbers::{Numbers, spoil};
pub use reading::{TextError, text_of};
pub use writing::{write_error, write_text};

//! The cases of `fault_cases` as they stand in the input, texts that are made by numbers, and the lines that an answer may have.
//!
//! Comes in: lines of the input; numbers; bytes. Goes out: the case that the lines say; the text of a number, the same one each time; whether the
//! bytes are the line of a refusal or of a fault. What holds in between: nothing here calls the program.
#![tactic(auto)]

mod case;
mod lines;
mod texts;

pub use case::{Case, Tried};
pub use lines::{is_fault, is_refusal};
pub use texts::text_of_number;

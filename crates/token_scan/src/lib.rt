//! From the bytes of a logical line to its tokens (Fortran 95, 3.2 and 3.3.1).
//!
//! Comes in: a logical line, any bytes. Goes out: its tokens, from left to right, each with its place and what it
//! stands for, or the refusal of the line. What holds in between: each token is the longest that fits at its place, the
//! tokens are those of the definition, which cuts whole lists, and a line is refused exactly where it has a breach.
//!
//! *Proved:* The tokens of a line, each the longest that fits, are given exactly where every piece is one, else the
//! first breach: `tokens`.
#![tactic(auto)]

mod byte_class;
mod case;
mod limits;
mod line_tokens;
mod number;
mod piece;
mod quoted;
mod run;
mod table_word;

pub use limits::MAX_NAME_BYTES;
pub use line_tokens::tokens;

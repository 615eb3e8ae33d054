//! From the bytes of a text to its logical lines, and the types of lines and tokens.
//!
//! Comes in: any bytes. Goes out: the statements and directives of the text, each with its line's number, and how many
//! lines the text has, or the first line that breaks a rule of the source form (Fortran 95, 3.3). What holds in between:
//! the lines are those of the definition, which splits whole lists; a text is refused exactly where it has a breach.
//!
//! *Proved:* The logical lines of a text are given exactly where its lines have no breach, else the first breach:
//! `logical_lines`.
#![tactic(auto)]

mod blanks;
mod breach;
mod bytes;
mod groups;
mod joined_bytes;
mod limits;
mod line;
mod line_split;
mod marks;
mod parts;
mod physical_lines;
mod statements;
mod text;
mod token;

pub use blanks::{all_blank, is_blank, without_blanks};
pub use bytes::Bytes;
pub use hpf_base::Name;
pub use limits::{MAX_CONTINUATIONS, MAX_LINE_BYTES, MAX_LINES, MAX_LOGICAL_LINE_BYTES};
pub use line::{LineKind, LogicalLine, LogicalLines};
pub use line_split::next_line;
pub use parts::{is_bad_part, is_control, next_part};
pub use text::logical_lines;
pub use token::{Token, TokenKind};

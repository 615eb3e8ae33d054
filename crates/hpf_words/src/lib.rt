//! The words of a command line.
//!
//! Comes in: the words after the program's own name, `ACTION [--grid G] [--threads T] [--size N] [--arrays] [--fixed]`. Goes
//! out: the job that they are, or that they are none. What holds in between: the words are read from left to right.
//!
//! - After the first word `--` every word is positional.
//! - Before it, `--grid`, `--threads` and `--size` have their value after `=` or as the next word, which then may not begin
//!   with `-`. `--arrays` and `--fixed` have none. No other word may begin with `-`, and no option may stand twice.
//! - One word is positional: the action, `run`, `serial`, `check`, `map`, `messages` or `bulk`.
//!
//! | option | allowed with | its value | where it doesn't stand |
//! |---|---|---|---|
//! | `--grid` | every action | 1 to 7 numbers joined by `x`, each of one or two digits and from 1 to 64, whose product is at most 64 | `1` |
//! | `--threads` | `run`, `bulk` | one or two digits, from 1 to 64 | as many as nodes |
//! | `--size` | `bulk` | one to three digits, from 8 to 512 | 64 |
//! | `--arrays` | `run` | none | not asked for |
//! | `--fixed` | every action but `bulk` | none | the free source form |
//!
//! Words that break a rule are no job: [`WordsError::Usage`].
//!
//! *Proved:* The words of a command line are read as the job that they are, with its grid, its threads and its source
//! form among others, and `Usage` comes only for words that are none: `read_words`.
#![tactic(auto)]

mod job;
mod texts;
mod values;

pub use job::{Action, Job, WordsError, read_words};

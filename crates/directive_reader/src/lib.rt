//! From the tokens of a directive line to the directive that it is.
//!
//! Comes in: the tokens of one directive line, in order, without its `!HPF$`, and the number of the line. Goes out: the
//! directive, or the refusal of the line for the least reason against it. What holds in between: a directive is spelled
//! by its line, whole, by the grammar of its kind, and no other directive is; one that is passed over begins with a
//! word of HPF that the language leaves out, whatever stands after it.
//!
//! A line is read as the kind that its first words say. In DISTRIBUTE and REDISTRIBUTE the names stand after `::` where
//! a list comes first. In ALIGN they do where a list comes first, or WITH that is neither followed by a list nor by WITH
//! and a word.
//!
//! *Proved:* A line is read as the directive that it spells, or refused for its first reason: `read_directive`. No two
//! directives have one spelling: `one_directive`.
#![tactic(auto)]

mod directive;
mod elements;
mod first_words;
mod kind;
mod promises;
mod read;
mod refusal;
mod specifications;

pub use directive::DirectiveLine;
pub use kind::Kind;
pub use promises::one_directive;
pub use read::read_directive;

//! From the tokens of a line, or of a part of it, to what they say by a grammar.
//!
//! Comes in: the tokens that are left of a line, in order, and whether an expression deeper than `MAX_DEPTH` stops the
//! reading (`Depths::Limited`) or not (`Depths::Any`). Goes out: what stands in front, and the tokens after it; or why
//! nothing is read: `ReadError::Malformed` where a token isn't of the form, `ReadError::TooDeep` where an expression is
//! too deep, whichever comes first from the left, and `ReadError::Memory` for want of memory. What holds in between: a
//! part is read as its grammar says; what is read is well formed and is spelled in front; and where a grammar needs no
//! look back, what is well formed and stands in front is read, and the reading stops as too deep exactly where a front
//! of a well-formed part stands there, up to and with its first expression that is too deep.
//!
//! A form of a line is a grammar, a value of the definitions. The functions here are the readings that several forms
//! share, and `Element` is what stands between the commas of a list.
//!
//! *Proved:* What a grammar of lines reads is spelled so, and what is spelled so is read: `printed_exact`. The code of
//! names, expressions, subscripts, lists and headers computes these readings.
#![tactic(auto)]

mod bounds;
mod depths;
mod items;
mod lists;
mod names;
mod parts;
mod promises;
mod read_error;
mod shape;
mod signs;
mod variables;

pub use bounds::Bounds;
pub use depths::Depths;
pub use items::ListedItems;
pub use lists::{Element, comma_list, enclosed, header, optional_enclosed};
pub use names::ListedNames;
pub use parts::{expr, name, subscript};
pub use promises::{printed_exact, too_deep_exact};
pub use read_error::ReadError;
pub use shape::names_shape;
pub use signs::{after_sign, after_word, attribute, is_sign, is_word, skip};
pub use variables::{Subscripts, variable};

//! From the bytes of a text to the one program that it means.
//!
//! Comes in: any bytes, and the source form that they are in. Goes out: the tree of the program that the text spells, or its first breach. What holds in between:
//! a text is read exactly where it is spelled as the language asks, and is refused at the stated line, for the stated
//! reason, exactly where it isn't; it spells one program at most, and the abstract syntax of its tree is the one program
//! that it means.
//!
//! *Proved:* A text is read exactly where no stage has a breach, else the first breach of the first stage that has one:
//! `read_program` in free form, `read_fixed` in fixed form. A text reads as one tree at most and means one program at
//! most, in each form: `one_tree`, `one_program`. A text in fixed form whose lines break no rule means what its text in
//! free form means, and is refused for the same: `fixed_as_free`.
#![tactic(auto)]

mod forms;
mod program;
mod promises;
mod scan;
mod source_form;

pub use program::{read_fixed, read_in_form, read_program};
pub use promises::{fixed_as_free, one_program, one_tree};
pub use source_form::SourceForm;

//! The node code of expressions.
//!
//! Comes in: expressions whose names are resolved, as plans hold them. Goes out: their code, how many slots it takes, and what has
//! their values after it. What holds in between: what a function makes stands for what the definition of its name in `program_code` gives,
//! and an `Err` is want of memory, also where a sum of slots is past 64 bits. A part that stands twice in the code is made twice.
//!
//! - `sums`: sums of slots.
//! - `slots`: how many slots code takes.
//! - `values`: the expressions over the slots that have a value after the code, and what is left of array expressions.
//! - `evaluations`: array expressions over their own space.
//! - `texts`: code put after other code.
//! - `controls`: the three values of a control or of a triplet.
//! - `code`: the code that evaluates an expression.
//! - `indexed`: expressions of a FORALL, at an index tuple.
//!
//! *Proved:* The code of an expression whose names are resolved, the slots that it takes, and what has the expression's
//! value after it, are those of the definitions: `code_of`, `slots_of`, `flat_of`, `form_of`, and at an index tuple of
//! a FORALL `index_form`.
#![tactic(auto)]

mod code;
mod controls;
mod evaluations;
mod indexed;
mod slots;
mod sums;
mod texts;
mod values;

pub use code::{code_of, codes_of, control_code, parts_code, subscripts_code};
pub use evaluations::{own_evaluation, own_space};
pub use indexed::{all_index_flats, index_flat, index_flats, index_form, index_forms, index_subs};
pub use slots::{all_slots_of, control_slots, parts_slots, slots_of, subscripts_slots};
pub use sums::plus;
pub use texts::joined;
pub use values::{flat_of, flats_of, form_of, forms_of, subs_of};

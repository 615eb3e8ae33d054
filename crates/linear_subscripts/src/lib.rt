//! Subscripts of an align target that are linear in one align dummy (HPF 2.0, 3.4).
//!
//! Comes in: the setting of a program, the align dummies of a directive, and its expressions one by one. Goes out: the dummies that an
//! expression names, whether it is built as a linear one is, whether its parts without dummies are constant, and a and b of `a * I + b`.
//! What holds in between: a part without dummies is evaluated as a whole, and forms are put together in arithmetic that wraps.
//!
//! *Proved:* The align dummies that an expression names, whether it is built as a linear one is, whether a part without
//! dummies has an invalid value, and a and b of `a * I + b`, are those of the definitions: `dummies_in`, `is_free`,
//! `is_linear`, `has_invalid_part`, `linear_form`.
#![tactic(auto)]

mod dummies;
mod form;
mod linear_forms;

pub use dummies::{dummies_in, is_free, push_dummies};
pub use form::LinearForm;
pub use linear_forms::{are_same, has_invalid_part, has_invalid_value, is_linear, linear_form};

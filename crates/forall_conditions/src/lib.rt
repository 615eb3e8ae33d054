//! What the statements of a FORALL have to keep at run time: small subscripts, and no element assigned twice.
//!
//! Comes in: the state before a FORALL, and its indices, mask and assignments with their names resolved. Goes out: whether its
//! indices and subscripts are in the limits, and whether no assignment assigns an element at two tuples (Fortran 95, 7.5.4.3). What
//! holds in between: each answer is that of the definitions of the meaning, from the linear form of each subscript.
//!
//! *Proved:* Whether the indices and subscripts of a FORALL are in the limits, and whether no assignment assigns an
//! element at two tuples, are those of the meaning: `is_forall_in_limits`, `are_subscripts_in_limits`, `is_one_to_one`.
//! So is the linear form of a subscript: `linear`.
#![tactic(auto)]

mod forall_limits;
mod linear_forms;
mod one_to_one;

pub use forall_limits::{are_subscripts_in_limits, is_forall_in_limits};
pub use linear_forms::{LinearForm, linear};
pub use one_to_one::is_one_to_one;

//! The code of anchors: what is assigned at the tuples of a space, beside which copies lie, over the slots.
//!
//! Comes in: the assignments of a WHERE or of a FORALL, or the indices of a nest and its innermost block, with names resolved. Goes out:
//! the element that the first of them assigns, with its subscripts over the slots, and copies of it. What holds in between: a function
//! makes what the definition of its name in `program_code` does, and an `Err` is want of memory alone. No code evaluates a subscript of
//! an anchor: its value is told from the slots of scalars.
//!
//! - `axes`: expressions of a nest, whose indices are axes.
//! - `elements`: anchors whose subscripts are expressions: FORALL.
//! - `foreknown`: which subscripts of a WHERE are known before its mask is evaluated.
//! - `sections`: anchors whose subscripts may be triplets: WHERE.
//! - `lefts`: the first element that a block assigns: nests.
//! - `copies`: copies, of which each instruction has its own.
//!
//! *Proved:* What the copies of a WHERE, of a FORALL and of a nest lie beside is what the definitions say: `where_beside`,
//! `forall_beside`, `nest_beside`; and a copy of it says the same: `copied`.
#![tactic(auto)]

mod axes;
mod copies;
mod elements;
mod foreknown;
mod lefts;
mod sections;

pub use axes::{index_in, nest_flat};
pub use copies::copied;
pub use elements::forall_beside;
pub use lefts::nest_beside;
pub use sections::where_beside;

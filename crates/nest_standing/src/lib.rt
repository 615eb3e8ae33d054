//! Nests of INDEPENDENT loops that break no rule may stand, resolved.
//!
//! Comes in: nests as abstract syntax, with the rules of names, types and nests (`name_table`, `nest_check`), and what may stand in a resolved nest
//! (`nest_items`). Goes out: laws, each the contract of a function that does nothing. No code is here that runs.
//!
//! What holds in between:
//!
//! - What the rules say of names holds of their places (`Tied`): which are assigned, listed, indices or arrays.
//! - Bounds, subscripts and right sides that keep the rules are such expressions resolved; so are statements, loops, paths and texts: subscripts and
//!   bounds have no fault, since an index is a scalar, and the bounds inside a nest name no index.
//! - The lists of all loops of the nest are those of its resolved mark, and its REDUCTION variables have one operator each.
//!
//! - A nest assigns scalars and elements, so none of its assignments is a transformation of a whole array.
//! - What has subscripts in an expression with a type and a rank is no scalar, so no nest assigns it as one.
//!
//! - Each name stands once in a symbol table, so a constant expression has its value in the resolved program too.
//!
//! That the numbers of a program are of 64 bits (`fitting_states`) is asked beside the rules: the abstract syntax has integers of any size, and a text that
//! is read has none that is greater.
//!
//! *Proved:* Each nest of a program that breaks no rule keeps the rules by its form, where its numbers are of 64 bits:
//! `kept_nests`, `programs_have_forms`.
#![tactic(auto)]

mod promises;

pub use promises::{kept_nests, programs_have_forms};
pub use well_formed::accepted_programs_have_valid_code;

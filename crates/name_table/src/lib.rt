//! The names of a program, and the rules of names, constants, types and ranks.
//!
//! Comes in: the tree of a program. Goes out: the tree with its names, each with what it is, or the first breach of the rules
//! of names and constants, or of those of types and ranks where there is none of the former. What holds in between: what is
//! wrong with a program is a list of breaches that each part of it says by itself.
//!
//! *Proved:* A tree is resolved exactly where it breaks no rule of names and constants and none of types and ranks;
//! else the answer is the first breach of the former or, where they have none, of the latter: `resolve`. Its names are
//! the declared ones in order, each with what it is: `Names::len`, `get`, `find`. Where no rule is broken all that is
//! declared is known: `all_are_known`.
#![tactic(auto)]

mod declaration_ranks;
mod directive_names;
mod dummies;
mod end_name;
mod expressions;
mod head_operands;
mod integer_scalars;
mod limits;
mod listed_names;
mod name_judge;
mod names;
mod nests;
mod operands;
mod promises;
mod rank_judge;
mod refused;
mod resolution;

pub use limits::MAX_INDICES;
pub use names::{Entry, Names, What};
pub use promises::all_are_known;
pub use resolution::{Program, resolve};

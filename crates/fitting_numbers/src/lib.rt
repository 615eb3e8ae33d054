//! That the numbers of a program are of 64 bits.
//!
//! Comes in: the statements of a resolved program, and the names that it declares. Goes out: nothing but the fact that the numbers in its statements
//! fit, and so do the initial values of its names. The definitions have integers of any size, and the types of `resolved_program` and `name_table`
//! hold none past 64 bits; to say so of a whole program, each number is read.
//! What holds in between: the numbers of each expression fit, and those of each statement; so do those of the loops and of the innermost block that a
//! nest names again.
//!
//! - `terms`: the numbers in expressions.
//! - `assignments`: those in the parts of WHERE and FORALL.
//! - `statements`: those in statements. What PRINT evaluates isn't asked.
//! - `values`: the initial values.
//!
//! *Proved:* The numbers in the statements of a resolved program are of 64 bits, PRINT aside: `numbers_fit`. So are the
//! initial values of the names that it declares: `initial_values_fit`.
#![tactic(auto)]

mod assignments;
mod statements;
mod terms;
mod values;

pub use statements::numbers_fit;
pub use values::initial_values_fit;

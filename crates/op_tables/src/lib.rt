//! The words of the language, each with its code, and its operators.
//!
//! Comes in: nothing. Goes out: five tables of words, the code of a word that is spelled so, the value of an operator, and what reductions
//! join numbers by.
//! What holds in between: a table's words are those of `specs/`, distinct and in ascending order, and a word's
//! code is its place; a look-up gives that code, and None exactly where the word isn't in the table. An operator's value
//! is that of `specs/Operators.antt`, over numbers of 64 bits that wrap. What joins numbers (`specs/Joins.antt`) does so in any order and
//! grouping.
//!
//! *Proved:* A word of the language is found exactly where it stands in its table: `Table::find`, `left_out_word` and
//! the other look-ups. The tables are the lists of the definitions, distinct and ascending. `apply`: the value of each
//! operator and elemental procedure on numbers of 64 bits that wrap is that of its definition, and division by zero is
//! answered exactly where it has none. What joins numbers (sum, product, greatest, least, the bits in common, in either
//! and in just one, any and all) is associative and commutative on its values, with a unit: `Join`, `law_of_joins`. A
//! reduction is such a join and what it makes of each element: `reduction_of`. What joins the variable of a reduction
//! statement: `joined_by`.
#![tactic(auto)]

mod arguments;
mod dots;
mod intrinsics;
mod join;
mod left_out;
mod marks;
mod op;
mod operators;
mod promises;
mod reductions;
mod reserved;
mod statements;
mod table;

pub use arguments::{is_inquiry, is_processor_count, is_reduction, is_transformational, takes};
pub use dots::dot_word;
pub use intrinsics::intrinsic_word;
pub use join::Join;
pub use left_out::left_out_word;
pub use marks::{symbol, symbols};
pub use op::Op;
pub use operators::{DivZero, apply};
pub use promises::law_of_joins;
pub use reductions::{Made, Reduction, joined_by, reduction_of};
pub use reserved::is_reserved;
pub use table::{Row, Table};

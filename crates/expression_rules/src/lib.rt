//! What expressions are: their values where they must be constant, their types and ranks, and what their names stand for.
//!
//! Comes in: an expression of a tree, and the table of the names that are declared. Goes out: its value, its type and rank, and
//! whether each of its names stands for a number. What holds in between: a symbol table is the list of the declared names in
//! order, each with what it stands for; its arrays are within the limits, and what a broken rule leaves open is unknown in it.
//!
//! *Proved:* The value of an expression that must be constant, the type and rank of an expression, and whether each of
//! its names stands for a number, are those of their definitions: `value`, `type_and_rank`, `are_operands`. A symbol
//! table is the list of the declared names in order, and gives the entry of a declared name: `SymbolTable::find`,
//! `Scope::find`.
#![tactic(auto)]

mod constants;
mod dims;
mod evaluated;
mod operands;
mod scope;
mod symbols;
mod types;
mod typing;

pub use constants::{inquired, value};
pub use dims::{Dim, Dims, extent, size};
pub use evaluated::{Evaluated, Numbers};
pub use operands::{are_operands, is_operand_reference};
pub use scope::{Scope, is_among};
pub use symbols::{Symbol, SymbolTable};
pub use types::{Context, DataType, TypeAndRank, is_integer_scalar, is_logical_scalar};
pub use typing::{reference_type, type_and_rank};

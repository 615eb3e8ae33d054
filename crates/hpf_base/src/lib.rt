//! The ground floor: the types that every layer shares, and the definitions that they are proved by.
//!
//! Comes in: nothing. Goes out: limits, numbers of nodes, grids, shapes of arrays, refusals and statuses. In `specs/`: the
//! order of the elements of an array, what the lines of a text are, and which of a set of breaches is the first. What holds
//! in between: each definition is a filter, a table, a relation or a whole list in the words of the standards, and no crate
//! states it a second time.
//!
//! *Proved:* Grids, indices and names are made exactly where they are valid: `Grid::new`, `Index::new`, `Name::new`.
//! Refusals and statuses have the numbers and names of their tables: `Reason::number`, `Reason::name`,
//! `Status::exit_code`. It has the limits by name, and the definitions of the order of elements and of the lines of a
//! text, with their laws.
#![tactic(auto)]

mod array_id;
mod first_breach;
mod grid;
mod index;
mod limits;
mod memory;
mod name;
mod node;
mod refusal;
mod status;

pub use array_id::ArrayId;
pub use first_breach::{at_line, earlier};
pub use grid::Grid;
pub use index::{Index, Shape};
pub use limits::{MAX_BOUND, MAX_ELEMENTS, MAX_NODES, MAX_RANK};
pub use memory::OutOfMemory;
pub use name::{NAME_CAPACITY, Name};
pub use node::NodeId;
pub use refusal::{Reason, Refusal, StaticError};
pub use status::Status;

//! The state of a run in code, and the values of expressions.
//!
//! Comes in: a state, and an expression whose names are resolved. Goes out: its value or its first fault, where there is memory for
//! it; and the few changes of a state. What holds in between: an evaluation changes nothing; all operands are evaluated, from left to
//! right; of an array expression what is evaluated once is a value of its own (`Elemental`), and the rest is done tuple by tuple.
//!
//! *Proved:* The value of an expression, what an array expression evaluates once, and its values over its space, are
//! those of the meaning, or its first fault with kind and place: `value`, `values`, `selections`, `index_values`,
//! `elemental_of`, `array_value`, `space_size`, `element_place`.
#![tactic(auto)]

mod array_values;
mod columns;
mod elements;
mod expressions;
mod faults;
mod places;
mod reductions;
mod section_elements;
mod sequences;
mod spaces;
mod state;
mod stops;
mod subscripts;
mod wrapping;

pub use array_values::{ArrayValue, Elemental, array_value, value_at, values_over};
pub use elements::{element_place, operated, operated_of_two};
pub use expressions::{elemental_of, selections, value, values, variable_place};
pub use faults::Fault;
pub use places::{place, place_of_one, place_of_two};
pub use sequences::{index_values, sequence};
pub use spaces::{extents, own_size, size, space_size};
pub use state::{Array, State};
pub use stops::{Cause, Interference, Object, Place, Stop, at_tuple, fault};
pub use subscripts::{Division, divided, nth, positions, subscripts_at};
pub use wrapping::{Number, sum};

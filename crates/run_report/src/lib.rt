//! The texts that a run is reported by.
//!
//! Comes in: why a run ended before its program did, or a program's last arrays, or the mappings with which its arrays start. Goes out: the
//! line of the fault, or a line for each array with its elements, or a line for each array and each node, with what the node owns of the
//! array. What holds in between: a text is made whole before any of it is written, and holds only names, numbers in decimal and the words of
//! `specs/`.
//!
//! *Proved:* The line of a fault (at no place, at a tuple, or between two iterations on an object by its name), the
//! lines of the last arrays, and those of a map are those of their definitions: `fault_line`, `arrays_text`,
//! `map_text`.
#![tactic(auto)]

mod array_lines;
mod fault_text;
mod node_lines;
mod tuple_text;

pub use array_lines::arrays_text;
pub use fault_text::fault_line;
pub use node_lines::map_text;
pub use tuple_text::add_tuple;

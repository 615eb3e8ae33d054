//! Arrays with their mappings, as cases write them by words.
//!
//! Comes in: parts of a case, which stand between semicolons. Goes out: lines, alignments, mappings, and arrays all of whose elements lie inside the
//! template. What holds in between: in each part its numbers count, in their order; words among them are for the reader.
//!
//! A line is its format's name, `whole`, `block` or `cyclic`, the size of a block, its lower bound, its extent and its number of processors; where the name
//! is `gen`, how many blocks there are and the size of each stand in place of the size of a block. An array is the lower bound and the extent of each of its
//! dimensions, one or two. A mapping is the extents of its grid, and an entry for each distributed dimension, at most two: a line without its processors,
//! the dimension of the grid, from 0, and the alignment: a dimension of the array, from 0, a factor and an offset; or a subscript; or nothing, where the
//! array is replicated. So these are a vector of thirteen elements in blocks of two, dealt out to three nodes, one of ten elements of which three nodes
//! have 3, none and 7, and a plane of which the columns lie in blocks along the second dimension of a grid and which is replicated along the first:
//!
//! ```text
//! array 1 13; grid 3; cyclic 2 lower 1 extent 13 over 0 linear 0 1 0
//! array 1 10; grid 3; gen 3 blocks 3 0 7 lower 1 extent 10 over 0 linear 0 1 0
//! array 1 4 1 4; grid 2 2; block 2 lower 1 extent 4 over 1 linear 1 1 0
//! ```
#![tactic(auto)]

mod entries;
mod inside;
mod lines;
mod mapped;
mod parts;

pub use entries::{align_of, mapping_of};
pub use inside::is_inside;
pub use lines::{form_of, line_of};
pub use mapped::{Mapped, mapped_of};
pub use parts::{first_part, numbers};

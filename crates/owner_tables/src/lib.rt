//! Who owns each element of an array or of a copy, and where it lies there, as tables: *distributed array descriptors*.
//!
//! Comes in: the shape of an array and the mapping by which its elements lie on the nodes, or the extents of a copy, and its anchor where it has
//! one: the element that is assigned at each of its positions. Goes out: for each
//! element its owners, the owner with the least number, and the local address, each by a look-up; of each node how many elements it owns,
//! the positions of these, and the nodes that own them too; and by two tables of a row which owners elements have by both. Of elements at equal
//! distances `held_line` finds those at the front that a node owns and that lie at equal distances in its piece, without a look-up for each.
//! The tables of all rows stand in `Owners`, and are shared by the nodes. A node's piece of a row is a `Row`, and `local_value` is the value
//! of an element that it owns.
//!
//! What holds in between: where a node owns one element, any node owns it exactly where the two agree in each distributed dimension that
//! isn't replicated. So elements with the same least owner have the same owners, the least owner tells all of them, and an element has one
//! local address: its number, from 0, among the elements with its least owner. Each element of a copy has an owner, whatever its extents.
//! Both come from one table a dimension: of its places, or, where there are 65,536 of these or more, of the runs of one period. So they take
//! memory by the sum of the extents at most: each place adds its part to the number of the least owner, and its rank among the places with
//! its coordinate, times what the owner owns on the dimensions before, to the local address.
//!
//! *Proved:* Who owns each element of a row and where it lies there, by look-ups in tables of its dimensions:
//! `Owners::owners`, `owns`, `least_owner`, `address`, `held`. Tables compare as alike exactly where they are the same:
//! `lies_as`. Nobody owns an element that isn't there. The nodes that share what a node owns, and the positions of what
//! it owns: `OwnerTable::sharers`, `owned_positions`. Elements among which each element of a row has one with the same
//! owners in two tables: `samples`. A copy lies in blocks over all nodes on its last index: `OwnerTable::of_copy`; by how all rows lie it has
//! the layout of its definition, beside the row of its anchor where that is good: `Owners::copy_table`. The
//! value of an element that a node owns, by its pieces: `local_value`. Of elements at equal distances a front that a
//! node owns and that lies at equal distances in its piece: `held_line`; the values of such a front: `push_held`.
//! Values put at equal distances: `Row::set_line`.
#![tactic(auto)]

mod alike;
mod columns;
mod copies;
mod copy_tables;
mod held_values;
mod lines;
mod numbers;
mod owner_table;
mod owners;
mod positions;
mod row;
mod same;
mod samples;
mod tables;

pub use copy_anchors::{Anchor, Subscript};
pub use held_values::{held_value, local_value, local_values, push_held};
pub use lines::HeldLine;
pub use owner_table::OwnerTable;
pub use owners::Owners;
pub use row::Row;
pub use storage::Spot;

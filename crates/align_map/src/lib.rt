//! Alignment: which nodes own an element of a mapped array (HPF 2.0, ALIGN and DISTRIBUTE).
//!
//! Comes in: a mapping, whose entries say which subscript each distributed dimension of the template is given for
//! an element, and the element's subscripts. Goes out: whether a node owns the element, the owner with the least
//! number, and the mapping of an array that is aligned with a mapped one. What holds in between: a node owns an
//! element where its coordinate agrees in every distributed dimension, and a replicated dimension takes any
//! coordinate; so each element has an owner, and to compose and then to own is to own through both.
//!
//! *Proved:* Owners are those of the definition: `owns`, `least_owner`. To compose alignments and then to own is to own
//! through both: `compose`, `composed_owners`.
#![tactic(auto)]

mod composition;
mod owners;
mod promises;
mod subscripts;

pub use composition::compose;
pub use owners::{coordinate_of, least_owner, node_coordinate, owns, position};
pub use promises::composed_owners;
pub use subscripts::linear;

//! Mappings: how the elements of an array lie on the nodes of a grid (HPF 2.0, DISTRIBUTE and ALIGN).
//!
//! Comes in: a grid. Goes out: the formats of distributed dimensions, what a dimension of a template is given for an element,
//! and mappings. In `specs/`: which mappings are valid, who owns an element, and which elements a node holds, in which order.
//! What holds in between: a mapping says who owns an element and nothing else; how that is found in little time is for the
//! crates above. Blocks of given sizes alone keep their running sums beside the sizes.
//!
//! *Proved:* Formats, alignments and mappings, which are valid, who owns an element and which elements a node holds, as
//! definitions with their laws. The sizes of GEN_BLOCK give the owner of a position, and where each block ends:
//! `BlockSizes`.
#![tactic(auto)]

mod gen_block;
mod limits;
mod mapping;
mod promises;

pub use gen_block::BlockSizes;
pub use limits::{MAX_BLOCK, MAX_CYCLIC, MAX_TEMPLATE_EXTENT};
pub use mapping::{AlignDim, Form, Line, MapDim, MapDims, Mapping};
pub use promises::equal_sizes_are_blocks;

//! Gap tables: which places of a regular section one node owns (HPF 2.0, 3.3).
//!
//! Comes in: a line, which is a dimension with its format; the coordinate of a node; and a regular section of the line, by its
//! first position, its stride and how many places it has. Positions of a line are counted from 1, places of a section from 0:
//! place j is the position `start + stride * j`. Goes out: the owned sequence, which is the list of the places that the node
//! owns, ascending; how long it is, its n-th place, how many of its places are at most j, and the first one after j.
//!
//! What holds in between: the test of ownership repeats after a period, so a table has the owned places of one period, as
//! offsets into it, and the length of the sequence. Under BLOCK and GEN_BLOCK and in a dimension that isn't distributed the positions of a
//! node are one section, so the period is 1 and there is one offset at most. Under CYCLIC(k) a position is owned where its
//! residue by one cycle, which is a block of each processor, lies in the node's block; Euclid's algorithm gives the period and
//! how many places lead from one residue to the next, and so at most k offsets are found without asking for any owner. The
//! contract of `build` says that the places are those of a filter by the owner, and bounds the steps that it counts: a residue
//! tried, or an offset placed.
//!
//! What a node owns as one section is apart from the formats (`section_table`): a format that gives each node one section of
//! positions needs its bounds alone.
//!
//! *Proved:* The places of a section of a line that one processor owns, as a table with at most k offsets under
//! CYCLIC(k) and one otherwise, built in at least one step an offset and at most 2k + 4, or 4, as the body counts them,
//! its sort aside: `GapTable::build`, and without a count `of_section`; its places are those of a filter by the owner,
//! and so are their number, the n-th, the first after a place, and how many are up to one: `len`, `nth`, `next`,
//! `up_to`.
#![tactic(auto)]

mod ascending;
mod cyclic;
mod sections;
mod steps;
mod table;

pub use steps::Steps;
pub use table::GapTable;

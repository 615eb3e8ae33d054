//! The text of the messages that nodes send for an instruction of node code.
//!
//! Comes in: an instruction with the slots before it, the declared names with the shapes of their rows, and who owns which of their elements.
//! Goes out: a line for each message, after a text. What holds in between: the part that an instruction is, and what each node sends in it,
//! come from the calls that a node makes, and the messages of a redistribution from those of its rounds; a part is told over the declared
//! names and one copy after them, which has the extents of the part's own space, or the copies that a statement of a nest names, which have
//! the extents of the nest's trips. Copies lie by how the declared names lie then: beside what the instruction says, where that is good. A text
//! only grows at its end. What was listed for an instruction is kept for its next run (`KeptLines`): by slots that agree on all that it
//! mentions, and where the rows lie alike, it is the same.
//!
//! *Proved:* The lines of the messages that nodes send for an instruction are those of the definitions: `push_lines`.
//! Lines that were listed before are found again only where they are the instruction's by these slots and as the rows
//! lie; that any are found is never promised: `KeptLines::keep`, `KeptLines::find`.
#![tactic(auto)]

mod before;
mod elements;
mod instructions;
mod kept_lines;
mod message_line;
mod part_lines;
mod redistributions;
mod rows;

pub use instructions::push_lines;
pub use kept_lines::KeptLines;

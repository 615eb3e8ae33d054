//! The outside: where a program's text comes from and where its answers go.
//!
//! Comes in: a source of bytes, or a sink for bytes, of any kind. Goes out: the whole text, or all bytes
//! written, or the fault with its cause. What holds in between: a source tells the bytes that it has left
//! and a sink those that it holds, where they can, and each counts its faults. A failure is answered only
//! where that count rose.
//!
//! *Proved:* Reading gives all that was left, and a failure has a counted cause: `read_all`. Writing writes all, or a
//! proper prefix where the count rose: `write_all`. The sources and sinks in memory also say when they fail:
//! `MemSource`, `MemSink`. Gates have no clause: `OpenGate`, `MeetGate`.
#![tactic(auto)]

mod gate;
mod limits;
mod meet;
mod mem;
mod read;
mod sink;
mod source;
mod standard;
mod write;

pub use gate::{Gate, OpenGate};
pub use limits::MAX_SOURCE_BYTES;
pub use meet::{MEET_TURNS, MeetGate};
pub use mem::{MemSink, MemSource};
pub use read::{ReadAll, read_all};
pub use sink::Sink;
pub use source::{Failed, Source};
pub use standard::{StdSink, StdSource};
pub use write::write_all;

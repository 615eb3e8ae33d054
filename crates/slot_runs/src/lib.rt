//! Runs of instructions that touch slots alone, many in one call.
//!
//! Comes in: node code, and where a run of it stands. Goes out: where it stands after some instructions more, maybe none. What holds in between: each
//! of these instructions is the one at the run's place, touches no array, and does what the definitions say; none of them took memory, and
//! none ended the run. That an instruction is run is never promised: where its value isn't known in two registers, as where there is a fault,
//! the run stands before it, and `slot_values` runs it and finds the fault.
//!
//! *Proved:* Instructions that touch no array are run one after another, each as the definitions say, from where a run
//! stands, and none that ends it; how many isn't said: `run_known`.
#![tactic(auto)]

mod expressions;
mod instructions;
mod runs;

pub use runs::run_known;
